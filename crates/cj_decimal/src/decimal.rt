//! A number c * 10^p in normal form: a coefficient and a power of ten, since a float would round.
//!
//! Normal form is made once, in `from_parts`, and is the invariant of the type. So `==` compares
//! fields, and the range applies to the normal form and not to the spelling. New code that makes a
//! `Decimal` must trim its zeros, and 0 is (0, 0).
ghost use Rattle.std.specs.Prelude.{◌≡◌, ◌↔◌, ℕ, ◌+◌, ◌*◌, ◌^◌, ◌<◌, ◌≤◌, ℤ, pos, neg_ℤ, ◌-ℤ◌, ◌*ℤ◌, unsigned_abs};
ghost use Rattle.std.specs.Prelude.{length, slice_range, IsTrue, IfSome, IfNone, IsSome, IfOk, IsOk, IsErrOf};
ghost use Rattle.std.proofs.Common.{rules};
ghost use Rattle.std.specs.Cmp.Rules.{comparing};
ghost use Rattle.cj_decimal.specs.FewDigits.{IsFewDigits, IsFewSigned, IsNumberIfBegun};
ghost use Rattle.cj_decimal.specs.Meaning.Spelling.{SpellsNumber, IsValue, IsNumberInRange, IsNumberOutOfRange};
ghost use Rattle.cj_decimal.specs.Meaning.Spelling.{HasOneValue};
ghost use Rattle.cj_decimal.specs.Meaning.Class.{Class, whole_answer};
ghost use Rattle.cj_decimal.specs.Meaning.Number.{scaled, signed};
ghost use Rattle.cj_decimal.specs.Meaning.Equality.{same_parts, SameValue, IsNormal, IsInRange, IsOutOfRange, IsWhole};
ghost use Rattle.cj_decimal.specs.Meaning.Equality.{IsFixed};
ghost use Rattle.cj_decimal.specs.inner.Digits.{StandsFor};
ghost use Rattle.cj_decimal.specs.inner.Reading.{Saturates};
ghost use Rattle.cj_decimal.specs.Word.{IsCountWord, IsWordOf, IsBoundWord};

use crate::fixed::Fixed18;
use crate::powers::wide_ten_to;
use crate::spelling::{Parts, after_minus, has_byte, read_parts};
use crate::trimming::without_zeros;
use crate::whole::{read_any, read_few_digits};
use crate::word::{is_below, read_digits_word, read_word};
use std::marker::Model;
use thiserror::Error;

/// The least power of ten of a decimal.
const LEAST_POWER: i128 = -1_000_000;

/// The greatest power of ten of a decimal.
const GREATEST_POWER: i128 = 1_000_000;

/// The most digits of a decimal, and of a number of units of 10^-18.
const DIGITS: u32 = 36;

/// The most digits of a decimal as a whole number.
const WHOLE_DIGITS: u32 = 18;

/// The digits after the point of a [`Fixed18`].
const FIXED_AFTER_POINT: u32 = 18;

/// Why a spelling is no decimal.
#[derive(Clone, Copy, Debug, PartialEq, Eq, Error)]
pub enum DecimalFault {
    /// The spelling is not a number of JSON.
    #[error("not a number")]
    NotANumber,
    /// The number has more than 36 digits, or a power of ten above 1,000,000 in size.
    #[error("number out of range")]
    NumberRange,
}

/// A number `coefficient * 10^power` in normal form: the coefficient is no multiple of 10, or both
/// are 0.
#[derive(Clone, Copy, Debug)]
pub struct Decimal {
    coefficient: i128,
    power: i32,
}

impl Model for Decimal {
    ghost use Rattle.cj_decimal.specs.Meaning.Number.{Number, scaled};
    ghost use Rattle.cj_decimal.specs.Meaning.Equality.{IsNormal, IsInRange};

    ghost Value = { Number };

    ghost view = { λ d. scaled d.coefficient d.power };

    ghost invariant = { λ d. IsNormal (scaled d.coefficient d.power) × IsInRange (scaled d.coefficient d.power) };

    ghost inverse = { λ n. record { coefficient = n.coefficient; power = n.power } };
}

/// Returns the number of this size, negative if the flag is set.
fn with_sign(negative: bool, size: u128) -> i128
    requires { size < 10 ^ 36 }
    ensures { result ≡ signed negative size }
{
    if negative {
        -(size as i128)
    } else {
        size as i128
    }
}

/// Returns the number with zeros at its end. None if it then has more than `digits` digits.
fn with_zeros(number: i128, zeros: u32, digits: u32) -> Option<i128>
    requires fits { unsigned_abs number < 10 ^ 36 }
    requires bounded { digits ≤ 36 }
    requires within { zeros ≤ digits }
    ensures value { IfSome result
        (λ u. (u ≡ number *ℤ pos (10 ^ zeros)) × (unsigned_abs u < 10 ^ digits)) }
    ensures none { IfNone result (10 ^ digits ≤ unsigned_abs number * 10 ^ zeros) }
{
    if number.unsigned_abs() >= wide_ten_to(digits - zeros) {
        return None;
    }
    Some(number * wide_ten_to(zeros) as i128)
}

impl PartialEq for Decimal {
    ghost eq = { same_parts };

    ghost laws = { Prim.search (comparing, rules) };

    fn eq(&self, other: &Decimal) -> bool
        ensures parts { result ≡ same_parts self.now other.now }
        ensures same_value { IsTrue result ↔ SameValue self.now other.now }
    {
        other.coefficient == self.coefficient && other.power == self.power
    }
}

impl Eq for Decimal {
    ghost laws = { Prim.search (comparing, rules) };
}

impl Decimal {
    /// Returns the number of a spelling's parts. None if it is out of range.
    fn from_parts(parts: Parts) -> Option<Decimal>
        ensures some { (n : ℕ) (e : ℤ) → StandsFor parts.digits.lead parts.digits.extra parts.digits.lost n
            → Saturates e parts.exponent
            → IfSome result (SameValue (scaled (signed parts.negative n) (e -ℤ pos parts.after_point))) }
        ensures none { (n : ℕ) (e : ℤ) → StandsFor parts.digits.lead parts.digits.extra parts.digits.lost n
            → Saturates e parts.exponent
            → IfNone result (IsOutOfRange (scaled (signed parts.negative n) (e -ℤ pos parts.after_point))) }
        ensures form { IfSome result (λ d. IsNormal d × IsInRange d) }
    {
        if parts.digits.lost {
            return None;
        }
        if parts.digits.lead == 0 {
            return Some(Decimal {
                coefficient: 0,
                power: 0,
            });
        }
        let (lead, zeros) = without_zeros(parts.digits.lead);
        let shift = parts.digits.extra as i128 + zeros as i128;
        let power = parts.exponent - parts.after_point as i128 + shift;
        if power < LEAST_POWER {
            return None;
        }
        if power > GREATEST_POWER {
            return None;
        }
        Some(Decimal {
            coefficient: with_sign(parts.negative, lead),
            power: power as i32,
        })
    }

    /// Reads the spelling of a number of JSON (RFC 8259, section 6), of any length, in one pass.
    ///
    /// # Errors
    ///
    /// `NotANumber` if the spelling is no number of JSON. `NumberRange` if its value has more than
    /// 36 digits in normal form, or a power of ten above 1,000,000 in size.
    pub fn read(spelling: &[u8]) -> Result<Decimal, DecimalFault>
        ensures value { IfOk result (IsValue spelling.now) }
        ensures in_range { IfOk result IsInRange }
        ensures ok { IsOk result ↔ IsNumberInRange spelling.now }
        ensures not_a_number { IsErrOf result DecimalFault.NotANumber ↔ (¬ SpellsNumber spelling.now) }
        ensures number_range { IsErrOf result DecimalFault.NumberRange
            ↔ IsNumberOutOfRange spelling.now }

        // A law of the definitions: the value is determined.
        ensures one_value { HasOneValue spelling.now }
        ensures class { Class spelling.now }
    {
        let Some(parts) = read_parts(spelling) else {
            return Err(DecimalFault::NotANumber);
        };
        let Some(decimal) = Decimal::from_parts(parts) else {
            return Err(DecimalFault::NumberRange);
        };
        Ok(decimal)
    }

    /// Returns the number that at most 18 digits spell, as nearly all indices do. None for any
    /// other spelling: also for a 0 before another digit, and for other spellings of a whole
    /// number.
    #[inline(always)]
    #[tactic(auto, using(crate::proofs::Readings::answer_of_few))]
    pub fn read_few(spelling: &[u8]) -> Option<u64>
        ensures answer { IfSome result (λ n. (c : Class spelling.now) → whole_answer c ≡ Ok (Some (pos n))) }
        ensures small { IfSome result (λ n. n < 10 ^ 18) }
        ensures few { IsSome result ↔ IsFewDigits spelling.now }
    {
        read_few_digits(spelling)
    }

    /// Returns the number that such digits spell, or a minus and such digits, as nearly all
    /// coordinates do. None for any other spelling, which may be a whole number too.
    #[inline(always)]
    pub fn read_few_signed(spelling: &[u8]) -> Option<i64>
        ensures answer { IfSome result (λ w. (c : Class spelling.now) → whole_answer c ≡ Ok (Some w)) }
        ensures small { IfSome result (λ w. unsigned_abs w < 10 ^ 18) }
        ensures few { IsSome result ↔ IsFewSigned spelling.now }
    {
        let negative = has_byte(spelling, 0, b'-');
        let from = after_minus(spelling, negative);
        let Some(size) = read_few_digits(&spelling[from..]) else {
            return None;
        };
        if negative {
            Some(-(size as i64))
        } else {
            Some(size as i64)
        }
    }

    /// Returns the number of [`Decimal::read_few`] in a line from `start` to `stop`, if it has at
    /// most eight digits. It is faster still, since one word of the line has them all. None also if
    /// `stop` is below 8.
    ///
    /// The bytes must be those of a value of JSON. Then one test shows that they are digits.
    #[inline(always)]
    pub fn read_few_in(line: &[u8], start: usize, stop: usize) -> Option<u64>
        requires order { start < stop }
        requires within { stop ≤ length line.now }
        requires number { IsNumberIfBegun (slice_range line.now start stop) }
        ensures answer { IfSome result (λ n. (c : Class (slice_range line.now start stop))
            → whole_answer c ≡ Ok (Some (pos n))) }
        ensures small { IfSome result (λ n. n < 10 ^ 18) }
        ensures few { IsSome result ↔ (IsFewDigits (slice_range line.now start stop)
            × (stop ≤ start + 8) × (8 ≤ stop)) }
    {
        read_word(line, start, stop)
    }

    /// Returns whether such a number is below a count, without its value. `word` is that of the
    /// count ([`digits_word`]).
    #[inline(always)]
    pub fn is_few_below_in(line: &[u8], start: usize, stop: usize, word: u64) -> bool
        requires order { start < stop }
        requires within { stop ≤ length line.now }
        requires number { IsNumberIfBegun (slice_range line.now start stop) }
        ensures few { IsTrue result → IsFewDigits (slice_range line.now start stop) }
        ensures below { IsTrue result → (n : ℕ) → IsBoundWord word n → (m : ℕ) × (m < n) × (m < 10 ^ 18)
            × ((c : Class (slice_range line.now start stop)) → whole_answer c ≡ Ok (Some (pos m))) }
        ensures all { IsFewDigits (slice_range line.now start stop) → stop ≤ start + 8 → 8 ≤ stop
            → (n m : ℕ) → IsCountWord word n → m < n
            → ((c : Class (slice_range line.now start stop)) → whole_answer c ≡ Ok (Some (pos m))) → IsTrue result }
    {
        is_below(line, start, stop, word)
    }

    /// Does the same for the number of [`Decimal::read_few_signed`].
    #[inline(always)]
    pub fn read_few_signed_in(line: &[u8], start: usize, stop: usize) -> Option<i64>
        requires order { start < stop }
        requires within { stop ≤ length line.now }
        requires number { IsNumberIfBegun (slice_range line.now start stop) }
        ensures answer { IfSome result (λ w. (c : Class (slice_range line.now start stop))
            → whole_answer c ≡ Ok (Some w)) }
        ensures small { IfSome result (λ w. unsigned_abs w < 10 ^ 18) }
        ensures number { IsSome result → IsFewSigned (slice_range line.now start stop) }
        ensures few { IsFewSigned (slice_range line.now start stop) → stop ≤ start + 8 → 8 ≤ stop
            → IsSome result }
    {
        if line[start] != b'-' {
            let Some(size) = read_word(line, start, stop) else {
                return None;
            };
            return Some(size as i64);
        }
        if start + 1 == stop {
            return None;
        }
        let Some(size) = read_word(line, start + 1, stop) else {
            return None;
        };
        Some(-(size as i64))
    }

    /// Returns the digits of a number of JSON in a line from `start` to `stop` as a word, as
    /// [`crate::digits_word`] has those of a count. None unless it is at most eight digits. None
    /// also if `stop` is below 8.
    ///
    /// Words have the order of their numbers. So the least of many numbers is found without
    /// computing the others, and [`crate::word_value`] returns it.
    #[inline(always)]
    pub fn read_word_in(line: &[u8], start: usize, stop: usize) -> Option<u64>
        requires order { start < stop }
        requires within { stop ≤ length line.now }
        requires number { IsNumberIfBegun (slice_range line.now start stop) }
        ensures { IfSome result (λ w. (n : ℕ) × IsWordOf w n
            × ((c : Class (slice_range line.now start stop)) → whole_answer c ≡ Ok (Some (pos n)))) }
    {
        read_digits_word(line, start, stop)
    }

    /// Reads the spelling of a number of JSON (RFC 8259, section 6) as a whole number. Returns its
    /// value if it is whole and below 10^18 in size, and None for any other number in range.
    ///
    /// # Errors
    ///
    /// Those of [`Decimal::read`].
    #[inline]
    #[tactic(auto, using(crate::proofs::Common::fits_signed_from_abs))]
    pub fn read_whole(spelling: &[u8]) -> Result<Option<i64>, DecimalFault>
        ensures answer { (c : Class spelling.now) → result ≡ whole_answer c }
        ensures small { IfOk result (λ o. IfSome o (λ w. unsigned_abs w < 10 ^ 18)) }
    {
        match Decimal::read_few_signed(spelling) {
            Some(whole) => Ok(Some(whole)),
            None => read_any(spelling),
        }
    }

    /// Returns the value in units of 10^-after_point. None unless it is a whole number of them,
    /// below 10^digits in size.
    fn in_units(self, after_point: u32, digits: u32) -> Option<i128>
        requires bounded { digits ≤ 36 }
        requires apart { after_point < digits }
        ensures value { IfSome result
            (λ u. SameValue self (scaled u (neg_ℤ (pos after_point))) × (unsigned_abs u < 10 ^ digits)) }
        ensures none { IfNone result ((u : ℤ) → SameValue self (scaled u (neg_ℤ (pos after_point)))
            → 10 ^ digits ≤ unsigned_abs u) }
    {
        let power = self.power + after_point as i32;
        if power < 0 {
            return None;
        }
        if power >= digits as i32 {
            return None;
        }
        with_zeros(self.coefficient, power as u32, digits)
    }

    /// Returns the value if it is whole and below 10^18 in size.
    pub fn whole(self) -> Option<i64>
        ensures value { IfSome result (IsWhole self) }
        ensures whole { IsSome result ↔ ((w : ℤ) × IsWhole self w) }
    {
        match self.in_units(0, WHOLE_DIGITS) {
            Some(whole) => Some(whole as i64),
            None => None,
        }
    }

    /// Returns the value in units of 10^-18 if it is a multiple of 10^-18 and below 10^18 in size.
    pub fn fixed18(self) -> Option<Fixed18>
        ensures value { IfSome result (IsFixed self) }
        ensures fixed { IsSome result ↔ ((u : ℤ) × IsFixed self u) }
    {
        match self.in_units(FIXED_AFTER_POINT, DIGITS) {
            Some(units) => Some(Fixed18::from_units(units)),
            None => None,
        }
    }

    /// Returns the coefficient of the normal form.
    pub fn coefficient(self) -> i128
        ensures value { result ≡ self.coefficient }
        ensures normal { IsNormal self }
        ensures range { IsInRange self }
    {
        self.coefficient
    }

    /// Returns the power of ten of the normal form.
    pub fn power(self) -> i32
        ensures value { result ≡ self.power }
        ensures normal { IsNormal self }
        ensures range { IsInRange self }
    {
        self.power
    }
}
