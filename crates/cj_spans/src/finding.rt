//! A broken rule and its byte.
ghost use Rattle.std.specs.Prelude.{nat_eq};
ghost use Rattle.std.proofs.Common.{rules};
ghost use Rattle.std.specs.Cmp.{partial_order_from_own_ties, both_tied, unsigned_ties};
ghost use Rattle.std.specs.Cmp.Rules.{comparing};
ghost use Rattle.std.specs.Ordering.{nat_cmp, on, eq_of_both, then_cmp, as_partial_cmp};
ghost use Rattle.cj_spans.specs.Meaning.Reason.{code_of};

use crate::reason::Reason;
use std::cmp::Ordering;

/// A reason, and the byte of the line where it was found, from 0. Findings are ordered by byte, and
/// at one byte by the code of the reason.
#[derive(Clone, Copy, Debug)]
pub struct Finding {
    pub place: u64,
    pub reason: Reason,
}

impl PartialEq for Finding {
    ghost eq = { eq_of_both (on (λ f. f.place) nat_eq) (on (λ f. code_of f.reason) nat_eq) };

    ghost laws = { Prim.search (comparing, rules) };

    fn eq(&self, other: &Finding) -> bool {
        self.place == other.place && self.reason.code() == other.reason.code()
    }
}

impl Eq for Finding {
    ghost laws = { Prim.search (comparing, rules) };
}

impl Ord for Finding {
    ghost cmp = { then_cmp (on (λ f. f.place) nat_cmp) (on (λ f. code_of f.reason) nat_cmp) };

    ghost total = { Prim.search (comparing, rules) };

    ghost matches_partial_cmp = { Prim.search (comparing, rules) };

    ghost matches_eq = { λ x y. both_tied _ _ _ (nat_cmp (code_of x.reason) (code_of y.reason))
        (unsigned_ties x.place y.place) (unsigned_ties (code_of x.reason) (code_of y.reason)) };

    fn cmp(&self, other: &Finding) -> Ordering {
        self.place
            .cmp(&other.place)
            .then(self.reason.code().cmp(&other.reason.code()))
    }
}

impl PartialOrd for Finding {
    ghost partial_cmp = { as_partial_cmp (then_cmp (on (λ f. f.place) nat_cmp) (on (λ f. code_of f.reason) nat_cmp)) };

    ghost laws = { partial_order_from_own_ties (Prim.search (comparing, rules))
        (λ x y. both_tied _ _ _ (nat_cmp (code_of x.reason) (code_of y.reason)) (unsigned_ties x.place y.place)
        (unsigned_ties (code_of x.reason) (code_of y.reason))) };

    fn partial_cmp(&self, other: &Finding) -> Option<Ordering> {
        Some(self.cmp(other))
    }
}
