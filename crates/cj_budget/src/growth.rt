//! A count of failed growths.
//!
//! No clause can see a call of the allocator. So each growth passes its result to `note`. Only
//! `note` raises the count, and a lack of memory is reported only if the count has risen. The count
//! is private: a proof can rely on it only if no other code can set it.
ghost use Rattle.std.specs.Prelude.{◌≡◌, OnOk, OnErr, IsOk, IsErr};
ghost use Rattle.cj_budget.specs.Meaning.Counts.{HasRisen};
ghost use Rattle.cj_budget.specs.Counts.{counted};

use std::marker::Model;
use thiserror::Error;

/// An allocation failed.
#[derive(Clone, Copy, Debug, PartialEq, Eq, Error)]
#[error("out of memory")]
pub struct NoMemory;

/// How often a growth failed. The count stops at 2^64 - 1.
#[derive(Drop)]
pub struct Refusals {
    count: u64,
}

impl Model for Refusals {
    ghost use Rattle.std.specs.Prelude.{ℕ};

    ghost Value = { ℕ };

    ghost view = { λ r. r.count };
}

impl Refusals {
    /// Returns a count of no failed growths.
    pub fn none() -> Refusals
        ensures { result ≡ 0 }
    {
        Refusals { count: 0 }
    }

    /// Returns the result of a growth without its error. It raises the count if the growth
    /// failed. No other function raises it.
    pub fn note<E: Drop>(&mut self, answer: Result<(), E>) -> Result<(), NoMemory>
        ensures ok { OnOk answer (IsOk result) }
        ensures err { OnErr answer (IsErr result) }
        ensures count { self.new ≡ counted self.old result }
        ensures cause { OnErr result (HasRisen self.old self.new) }
    {
        match answer {
            Ok(()) => Ok(()),
            Err(_) => {
                self.count = self.count.saturating_add(1);
                Err(NoMemory)
            }
        }
    }
}
