//! The parts of a number's spelling, read from the front in one pass (RFC 8259, section 6).
ghost use Rattle.std.specs.Prelude.{◌≡◌, ℕ, ◌+◌, ◌*◌, ◌^◌, ◌<◌, ◌≤◌, ◌||◌, length, drop, true, false, MatchOption, ◌-◌};
ghost use Rattle.std.specs.Prelude.{unsigned_abs, IsSome, IsNone, ◌↔◌, IfSome};
ghost use Rattle.cj_decimal.specs.inner.Digits.{StandsFor};
ghost use Rattle.cj_decimal.specs.Meaning.Spelling.{SpellsNumber};
ghost use Rattle.cj_decimal.specs.Meaning.Reading.{digits_value, value_after, begins, body, digits_front, digits_rest};
ghost use Rattle.cj_decimal.specs.Meaning.Reading.{is_int, is_frac, frac_digits, after_frac, exp_digits};
ghost use Rattle.cj_decimal.specs.Meaning.Reading.{is_whole_digits, is_exp, exp_value};
ghost use Rattle.cj_decimal.specs.inner.Reading.{Saturates, SaturatesSize, IsReadOf, Passes, Carries, Stops};

use crate::digits::{Digits, Run, read_digits, read_long, read_on, read_short};

/// The fraction of a spelling: the digits up to its end, where it stops, and the count of digits
/// after the point.
#[derive(Clone, Copy)]
struct Fraction {
    digits: Digits,
    stop: usize,
    after_point: usize,
}

/// Returns whether this byte is at a place.
#[tactic(auto, using(crate::proofs::Common::nat_tests, crate::proofs::Parts::begins_past, crate::proofs::Parts::begins_at))]
pub fn has_byte(spelling: &[u8], at: usize, byte: u8) -> bool
    ensures { result ≡ begins byte (drop at spelling.now) }
{
    at < spelling.len() && spelling[at] == byte
}

/// Returns whether one of two bytes is at a place.
fn has_one_of(spelling: &[u8], at: usize, first: u8, second: u8) -> bool
    ensures { result ≡ (begins first (drop at spelling.now) || begins second (drop at spelling.now)) }
{
    has_byte(spelling, at, first) || has_byte(spelling, at, second)
}

/// Returns whether digits are an int part: `0` alone, or digits that do not begin with `0`.
#[tactic(auto, using(crate::proofs::Parts::int_longer, crate::proofs::Parts::int_alone, crate::proofs::Parts::int_none))]
pub fn is_int_part(spelling: &[u8], from: usize, stop: usize) -> bool
    requires { Stops spelling.now from stop }
    ensures { result ≡ is_int (digits_front (drop from spelling.now)) }
{
    match stop - from {
        0 => false,
        1 => true,
        _ => !has_byte(spelling, from, b'0'),
    }
}

/// Reads the int part. Its first digits have been read.
#[tactic(auto, using(crate::proofs::Grammar::stops_after))]
fn read_int(spelling: &[u8], from: usize, at: usize, short: u64) -> Option<Run>
    requires passes { Passes spelling.now from at }
    requires carries { Carries spelling.now from 0 at short }
    requires short { short < 10 ^ 18 }
    ensures reads { MatchOption result (is_int (digits_front (drop from spelling.now)) ≡ false)
        (λ run. (is_int (digits_front (drop from spelling.now)) ≡ true)
        × (drop run.stop spelling.now ≡ digits_rest (drop from spelling.now))
        × StandsFor run.digits.lead run.digits.extra run.digits.lost
        (digits_value (digits_front (drop from spelling.now)))) }
    ensures bounds { IfSome result
        (λ run. (run.digits.extra ≤ run.stop) × (run.stop ≤ length spelling.now)) }
{
    let run = read_on(spelling, at, short);
    if is_int_part(spelling, from, run.stop) {
        Some(run)
    } else {
        None
    }
}

/// Reads a fraction if there is one: `.` and at least one digit.
#[tactic(auto, using(crate::proofs::Grammar::frac_pointed, crate::proofs::Parts::drop_one, crate::proofs::Parts::begins_within, crate::proofs::Parts::no_first_digit))]
fn read_frac(spelling: &[u8], from: usize, start: Digits) -> Option<Fraction>
    requires within { from ≤ length spelling.now }
    requires bounded { start.extra ≤ from }
    ensures reads { MatchOption result (is_frac (drop from spelling.now) ≡ false)
        (λ frac. (is_frac (drop from spelling.now) ≡ true)
        × (drop frac.stop spelling.now ≡ after_frac (drop from spelling.now))
        × (length (frac_digits (drop from spelling.now)) ≡ frac.after_point)
        × ((n : ℕ) → StandsFor start.lead start.extra start.lost n
        → StandsFor frac.digits.lead frac.digits.extra frac.digits.lost
        (value_after n (frac_digits (drop from spelling.now))))) }
    ensures bounds { IfSome result
        (λ frac. (frac.digits.extra ≤ frac.stop) × (frac.stop ≤ length spelling.now)) }
{
    if !has_byte(spelling, from, b'.') {
        return Some(Fraction {
            digits: start,
            stop: from,
            after_point: 0,
        });
    }
    let run = read_digits(spelling, from + 1, start);
    if run.stop == from + 1 {
        return None;
    }
    Some(Fraction {
        digits: run.digits,
        stop: run.stop,
        after_point: run.stop - (from + 1),
    })
}

/// Returns where the digits of an exponent begin: after its sign, if it has one.
#[tactic(auto, using(crate::proofs::Parts::no_sign, crate::proofs::Parts::sign_there, crate::proofs::Parts::drop_one, crate::proofs::Parts::one_of_within))]
fn after_sign(spelling: &[u8], at: usize) -> usize
    requires { at ≤ length spelling.now }
    ensures digits { drop result spelling.now ≡ exp_digits (drop at spelling.now) }
    ensures within { result ≤ length spelling.now }
{
    if has_one_of(spelling, at, b'-', b'+') {
        at + 1
    } else {
        at
    }
}

/// Reads the digits of an exponent, up to the end. Returns their number, or one of 36 digits if
/// there are more.
#[tactic(auto, using(crate::proofs::Parts::no_whole_digits))]
fn read_size(spelling: &[u8], from: usize) -> Option<u128>
    requires { from ≤ length spelling.now }
    ensures reads { MatchOption result (is_whole_digits (drop from spelling.now) ≡ false)
        (λ size. (is_whole_digits (drop from spelling.now) ≡ true)
        × SaturatesSize (digits_value (drop from spelling.now)) size) }
    ensures bound { IfSome result (λ size. size < 10 ^ 36) }
{
    let run = read_long(spelling, from, Digits::NONE);
    if run.stop == from {
        return None;
    }
    if run.stop < spelling.len() {
        return None;
    }
    Some(run.digits.lead)
}

/// Reads what follows the fraction: an exponent up to the end, or nothing.
fn read_exponent(spelling: &[u8], from: usize) -> Option<i128>
    requires { from ≤ length spelling.now }
    ensures reads { MatchOption result (is_exp (drop from spelling.now) ≡ false)
        (λ e. (is_exp (drop from spelling.now) ≡ true)
        × Saturates (exp_value (drop from spelling.now)) e) }
    ensures bound { IfSome result (λ e. unsigned_abs e < 10 ^ 36) }
{
    if from == spelling.len() {
        return Some(0);
    }
    if !has_one_of(spelling, from, b'e', b'E') {
        return None;
    }
    let first = after_sign(spelling, from + 1);
    match read_size(spelling, first) {
        None => None,
        Some(size) => {
            if has_byte(spelling, from + 1, b'-') {
                Some(-(size as i128))
            } else {
                Some(size as i128)
            }
        }
    }
}

/// Returns where a spelling continues after its minus, if it has one.
#[tactic(auto, using(crate::proofs::Grammar::no_minus, crate::proofs::Grammar::minus_there, crate::proofs::Parts::first_within))]
pub fn after_minus(spelling: &[u8], negative: bool) -> usize
    requires { negative ≡ begins 45 spelling.now }
    ensures body { drop result spelling.now ≡ body spelling.now }
    ensures within { result ≤ length spelling.now }
{
    if negative { 1 } else { 0 }
}

/// The parts of a number's spelling that give its value.
#[derive(Clone, Copy)]
pub struct Parts {
    pub negative: bool,
    pub digits: Digits,
    /// The count of digits after the point.
    pub after_point: usize,
    /// The exponent, or a number of 36 digits if it has more.
    pub exponent: i128,
    ghost exponent_fits: { unsigned_abs exponent < 10 ^ 36 },
}

/// Returns the parts of a spelling that ends with its first digits, which are few: the usual case.
#[tactic(auto, using(crate::proofs::Parts::nothing_follows, crate::proofs::Parts::integer_read, crate::proofs::Parts::not_int))]
fn integer_parts(spelling: &[u8], negative: bool, from: usize, short: u64) -> Option<Parts>
    requires sign { negative ≡ begins 45 spelling.now }
    requires body { drop from spelling.now ≡ body spelling.now }
    requires stops { Stops spelling.now from (length spelling.now) }
    requires value { short ≡ digits_value (digits_front (drop from spelling.now)) }
    requires short { short < 10 ^ 18 }
    ensures number { IsSome result ↔ SpellsNumber spelling.now }
    ensures reads { IfSome result
        (λ parts. IsReadOf spelling.now parts.negative parts.digits.lead parts.digits.extra
        parts.digits.lost parts.after_point parts.exponent) }
{
    if !is_int_part(spelling, from, spelling.len()) {
        return None;
    }
    Some(Parts {
        negative,
        digits: Digits {
            lead: short as u128,
            extra: 0,
            lost: false,
        },
        after_point: 0,
        exponent: 0,
    })
}

/// Reads a whole spelling in one pass. Returns its parts, or None if it is not a number of JSON.
pub fn read_parts(spelling: &[u8]) -> Option<Parts>
    ensures number { IsSome result ↔ SpellsNumber spelling.now }
    ensures reads { IfSome result
        (λ parts. IsReadOf spelling.now parts.negative parts.digits.lead parts.digits.extra
        parts.digits.lost parts.after_point parts.exponent) }
{
    let negative = has_byte(spelling, 0, b'-');
    let from = after_minus(spelling, negative);
    let (short, at) = read_short(spelling, from, 0);
    if at == spelling.len() {
        return integer_parts(spelling, negative, from, short);
    }
    let int = read_int(spelling, from, at, short)?;
    let frac = read_frac(spelling, int.stop, int.digits)?;
    let exponent = read_exponent(spelling, frac.stop)?;
    Some(Parts {
        negative,
        digits: frac.digits,
        after_point: frac.after_point,
        exponent,
    })
}
