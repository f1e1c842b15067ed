//! Reads a scalar or a name to its end: strings, numbers and words.
//!
//! Straight code reads the forms that valid lines have: the place in the code shows what has been
//! read. `read_on` reads everything else, an exponent or a fault, byte by byte.
ghost use Rattle.std.specs.Prelude.{◌≡◌, ◌+◌, ◌≤◌, ◌<◌, ℕ, length, suc, IfSome, IsTrue, Some};
ghost use Rattle.cj_spans.specs.declared.lex.Lex.{Lex as LexOf};
ghost use Rattle.cj_spans.specs.declared.lex.Lex.TheVariants.{Fraction, Hex4, InString, Minus, Point, Whole, Zero};
ghost use Rattle.cj_spans.specs.Meaning.Json.{byte as byte_of};
ghost use Rattle.cj_spans.specs.inner.Machine.{lex_step as lex_step_of, Continues, Halts};
ghost use Rattle.cj_spans.specs.inner.Atom.{GoesTo, ReadsTo};

use crate::bytes::{is_digit, is_escape, is_hex, stands_at};
use crate::lex::{Lex, ends_string, lex_step, skip, skip_digits, skip_plain};

/// Where a scalar ends, and what has been read of it there.
#[derive(Clone, Copy)]
pub struct Reach {
    pub stop: usize,
    pub read: Lex,
}

/// Returns whether the line ends here, or has a byte that does not continue what has been read.
#[inline(always)]
fn halts(line: &[u8], place: usize, read: Lex) -> bool
    ensures { IsTrue result → Halts line.now place read }
{
    if place >= line.len() {
        return true;
    }
    lex_step(read, line[place]).is_none()
}

/// Reads up to the first byte that does not continue the scalar, whatever has been read of it.
#[inline(never)]
fn read_on(line: &[u8], place: usize, first: Lex) -> Reach
    requires { place ≤ length line.now }
    ensures { ReadsTo line.now place first result.stop result.read }
{
    let mut stop = skip(line, first, place);
    let mut read = first;
    while stop < line.len() {
        match lex_step(read, line[stop]) {
            Some(next) => {
                read = next;
                stop = skip(line, next, stop + 1);
            }
            None => break,
        }
    }
    Reach { stop, read }
}

/// Returns whether four hexadecimal digits are here.
#[inline(always)]
#[tactic(auto, using(crate::proofs::Atoms::goes_hex))]
fn has_hex(line: &[u8], place: usize) -> bool
    requires { place + 4 ≤ length line.now }
    ensures { IsTrue result → GoesTo line.now place Hex4 (place + 4) InString }
{
    if !is_hex(line[place]) || !is_hex(line[place + 1]) || !is_hex(line[place + 2]) {
        return false;
    }
    is_hex(line[place + 3])
}

/// Returns where the escape that begins here in a string ends. None if no valid escape begins here.
#[inline(always)]
#[tactic(auto, using(crate::proofs::Atoms::goes_escape, crate::proofs::Atoms::goes_unicode))]
fn escape_stop(line: &[u8], place: usize) -> Option<usize>
    requires { place ≤ length line.now }
    ensures { IfSome result (λ k. (place < k) × GoesTo line.now place InString k InString) }
{
    if line.len() - place < 2 || line[place] != b'\\' {
        return None;
    }
    let letter = line[place + 1];
    if is_escape(letter) {
        return Some(place + 2);
    }
    if letter == b'u' && line.len() - place >= 6 && has_hex(line, place + 2) {
        return Some(place + 6);
    }
    None
}

/// Continues to read a string whose next byte is not plain.
#[inline(never)]
fn read_escapes(line: &[u8], place: usize) -> Reach
    requires { place ≤ length line.now }
    ensures { ReadsTo line.now place InString result.stop result.read }
{
    let mut stop = place;
    while let Some(next) = escape_stop(line, stop) {
        stop = skip_plain(line, next);
    }
    if ends_string(line, stop) {
        return Reach {
            stop: stop + 1,
            read: Lex::StringDone,
        };
    }
    read_on(line, stop, Lex::InString)
}

/// Reads a string after its first quote. Most strings end at the first byte that is not plain.
#[inline(always)]
fn read_string(line: &[u8], place: usize) -> Reach
    requires { place ≤ length line.now }
    ensures { ReadsTo line.now place InString result.stop result.read }
{
    let stop = skip_plain(line, place);
    if ends_string(line, stop) {
        return Reach {
            stop: stop + 1,
            read: Lex::StringDone,
        };
    }
    read_escapes(line, stop)
}

/// Returns whether a point and a digit are here.
#[inline(always)]
#[tactic(auto, using(crate::proofs::Atoms::goes_fraction))]
fn begins_fraction(line: &[u8], place: usize) -> bool
    requires { place ≤ length line.now }
    ensures { IsTrue result → (x : LexOf) → lex_step_of x 46 ≡ Some Point
        → GoesTo line.now place x (place + 2) Fraction }
{
    if line.len() - place < 2 || line[place] != b'.' {
        return false;
    }
    is_digit(line[place + 1])
}

/// Continues to read a number after the digits before the point.
#[inline(never)]
fn read_tail(line: &[u8], place: usize, digits: Lex) -> Reach
    requires point { lex_step_of digits 46 ≡ Some Point }
    requires within { place ≤ length line.now }
    ensures { ReadsTo line.now place digits result.stop result.read }
{
    if !begins_fraction(line, place) {
        return read_on(line, place, digits);
    }
    let stop = skip_digits(line, Lex::Fraction, place + 2);
    if halts(line, stop, Lex::Fraction) {
        return Reach {
            stop,
            read: Lex::Fraction,
        };
    }
    read_on(line, stop, Lex::Fraction)
}

/// Continues to read a number after its first digit, which is not 0.
#[tactic(auto, using(crate::proofs::Atoms::goes_same, crate::proofs::Atoms::reads_far))]
#[inline(always)]
fn read_whole(line: &[u8], place: usize) -> Reach
    requires { place ≤ length line.now }
    ensures { ReadsTo line.now place Whole result.stop result.read }
{
    let stop = skip_digits(line, Lex::Whole, place);
    if halts(line, stop, Lex::Whole) {
        return Reach {
            stop,
            read: Lex::Whole,
        };
    }
    read_tail(line, stop, Lex::Whole)
}

/// Continues to read a number after the 0 that begins it.
#[tactic(auto, using(crate::proofs::Atoms::goes_same))]
#[inline(always)]
fn read_zero(line: &[u8], place: usize) -> Reach
    requires { place ≤ length line.now }
    ensures { ReadsTo line.now place Zero result.stop result.read }
{
    if halts(line, place, Lex::Zero) {
        return Reach {
            stop: place,
            read: Lex::Zero,
        };
    }
    read_tail(line, place, Lex::Zero)
}

/// Continues to read a number after its minus.
#[inline(never)]
fn read_minus(line: &[u8], place: usize) -> Reach
    requires { place ≤ length line.now }
    ensures { ReadsTo line.now place Minus result.stop result.read }
{
    if place == line.len() || !is_digit(line[place]) {
        return read_on(line, place, Lex::Minus);
    }
    if line[place] == b'0' {
        return read_zero(line, place + 1);
    }
    read_whole(line, place + 1)
}

/// Returns whether these three bytes are here.
#[inline(always)]
fn has_letters(line: &[u8], place: usize, first: u8, second: u8, third: u8) -> bool
    requires { place ≤ length line.now }
    ensures within { IsTrue result → place + 3 ≤ length line.now }
    ensures letters { IsTrue result → (byte_of line.now place ≡ first)
        × (byte_of line.now (place + 1) ≡ second) × (byte_of line.now (place + 2) ≡ third) }
{
    line.len() - place >= 3
        && line[place] == first
        && line[place + 1] == second
        && line[place + 2] == third
}

/// Continues to read a word after its first letter.
#[inline(never)]
fn read_word(line: &[u8], place: usize, first: Lex) -> Reach
    requires { place ≤ length line.now }
    ensures { ReadsTo line.now place first result.stop result.read }
{
    match first {
        Lex::AfterN => {
            if has_letters(line, place, b'u', b'l', b'l') {
                return Reach {
                    stop: place + 3,
                    read: Lex::NullDone,
                };
            }
        }
        Lex::AfterT => {
            if has_letters(line, place, b'r', b'u', b'e') {
                return Reach {
                    stop: place + 3,
                    read: Lex::TruthDone,
                };
            }
        }
        Lex::AfterF => {
            if has_letters(line, place, b'a', b'l', b's') && stands_at(line, place + 3, b'e') {
                return Reach {
                    stop: place + 4,
                    read: Lex::TruthDone,
                };
            }
        }
        _ => {}
    }
    read_on(line, place, first)
}

/// Continues to read a scalar that is no string and begins with no digit other than 0.
#[inline(never)]
fn read_other(line: &[u8], place: usize, first: Lex) -> Reach
    requires { place ≤ length line.now }
    ensures { ReadsTo line.now place first result.stop result.read }
{
    match first {
        Lex::Minus => read_minus(line, place),
        Lex::Zero => read_zero(line, place),
        _ => read_word(line, place, first),
    }
}

/// Reads the scalar that began at `start`, up to the first byte that does not continue it.
#[inline(always)]
pub fn read_atom(line: &[u8], start: usize, first: Lex) -> Reach
    requires within { start < length line.now }
    ensures read { Continues line.now (suc start) first result.stop result.read }
    ensures halts { Halts line.now result.stop result.read }
    ensures order { start < result.stop }
    ensures end { result.stop ≤ length line.now }
{
    match first {
        Lex::InString => read_string(line, start + 1),
        Lex::Whole => read_whole(line, start + 1),
        _ => read_other(line, start + 1, first),
    }
}
