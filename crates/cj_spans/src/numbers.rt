//! Whole numbers that are items of an array, with no white space after them.
ghost use Rattle.std.specs.Prelude.{◌≡◌, ◌+◌, ◌^◌, ◌≤◌, ◌<◌, ℕ, length, IfSome};
ghost use Rattle.cj_spans.specs.declared.lex.Lex.{Lex as LexOf};
ghost use Rattle.cj_spans.specs.declared.lex.Lex.TheVariants.{Whole};
ghost use Rattle.cj_spans.specs.Meaning.Json.{byte as byte_of};
ghost use Rattle.cj_spans.specs.inner.Machine.{Continues, IsNumberUpTo};

use crate::bytes::is_digit;
use crate::lex::{Lex, skip_digits};

/// Returns `stop`, where the digits that begin at `place` end. None if a 0 comes before another
/// digit.
#[tactic(auto, using(crate::proofs::WholeNumbers::number_is))]
#[inline(always)]
fn int_stop(line: &[u8], place: usize, stop: usize) -> Option<usize>
    requires digit { (48 ≤ byte_of line.now place) × (byte_of line.now place ≤ 57) }
    requires same { (i : ℕ) (x : LexOf) → Continues line.now i x (place + 1) Whole → Continues line.now i x stop Whole }
    requires order { place + 1 ≤ stop }
    requires within { stop < length line.now }
    ensures { IfSome result (λ k. (48 ≤ byte_of line.now place) × IsNumberUpTo line.now place k) }
{
    if line[place] == b'0' && stop != place + 1 {
        return None;
    }
    Some(stop)
}

/// Returns where the whole number that begins at `place` with a digit ends.
#[inline(always)]
fn digits_stop(line: &[u8], place: usize) -> Option<usize>
    requires within { place < length line.now }
    ensures { IfSome result (λ k. (48 ≤ byte_of line.now place) × IsNumberUpTo line.now place k) }
{
    if !is_digit(line[place]) {
        return None;
    }
    let stop = skip_digits(line, Lex::Whole, place + 1);
    if stop == line.len() {
        return None;
    }
    int_stop(line, place, stop)
}

/// Does what [`number_stop`] does, for a minus, for any count of digits, and near the end of the
/// line.
#[inline(never)]
#[tactic(auto, using(crate::proofs::WholeNumbers::behind_minus_stop))]
fn any_number_stop(line: &[u8], place: usize) -> Option<usize>
    requires within { place < length line.now }
    ensures { IfSome result (λ k. IsNumberUpTo line.now place k) }
{
    if is_digit(line[place]) {
        return digits_stop(line, place);
    }
    if line[place] != b'-' || place + 1 == line.len() {
        return None;
    }
    digits_stop(line, place + 1)
}

/// Returns where the whole number that begins at `place` ends. It begins with a digit or a minus.
/// None unless there is such a number, and another byte follows.
#[inline(always)]
pub fn number_stop(line: &[u8], place: usize) -> Option<usize>
    requires short { length line.now < 2 ^ 31 }
    requires within { place < length line.now }
    ensures { IfSome result (λ k. IsNumberUpTo line.now place k) }
{
    if !is_digit(line[place]) && line[place] != b'-' {
        return None;
    }
    any_number_stop(line, place)
}
