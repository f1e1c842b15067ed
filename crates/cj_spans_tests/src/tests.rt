//! Tests of what no clause says.
//!
//! - `scans`: which lines are JSON texts, and the tokens that a scan leaves. Also the reasons.
//! - `strings`: each byte at a place of a string.
//! - `letters`: letters beyond ASCII at many places of a string.
//! - `views`: what a scanned line shows.
//! - `findings`: the least of some findings.
ghost use Rattle.cj_spans.specs.Sound.{AreOf};

mod checks;
mod findings;
mod letters;
mod scans;
mod strings;
mod views;

use cj_budget::{Bounded, Stack};
use cj_spans::{Token, scan};
use std::alloc::Global;
use std::process::Abort;

/// Returns the tokens of a line that is a text.
fn tokens_of(rt: &impl Abort, alloc: Global, line: &[u8]) -> Bounded<Token>
    ensures { AreOf line.now result.elements }
{
    assert!(rt; line.len() <= 1_000);
    let mut tokens: Bounded<Token> = Bounded::new(alloc, 1_000);
    let mut stack = Stack::new(alloc, 64);
    match scan(line, &mut tokens, &mut stack) {
        Ok(()) => {}
        Err(fault) => panic!(rt; "{fault:?}"),
    }
    tokens
}
