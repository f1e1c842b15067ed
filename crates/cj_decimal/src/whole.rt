//! Whole numbers, read without the work for other numbers. Nearly all numbers of a city model are
//! whole.
//!
//! `read_few` and `read_few_signed` of a [`Decimal`] return what digits alone spell. `read_whole`
//! tries them first, and leaves the rest to `read`: `12.0`, `1e2` and a leading 0.
ghost use Rattle.std.specs.Prelude.{◌≡◌, ◌≤◌, length, IfSome, IsSome, ◌↔◌};
ghost use Rattle.cj_decimal.specs.Meaning.Class.{Class, whole_answer};
ghost use Rattle.cj_decimal.specs.inner.Reading.{IsShort};
ghost use Rattle.cj_decimal.specs.Meaning.Spelling.{IsInt};
ghost use Rattle.cj_decimal.specs.FewDigits.{IsFewDigits};

use crate::decimal::{Decimal, DecimalFault};
use crate::spelling::is_int_part;

/// This count of digits spells a number below 10^18.
const FEW: usize = 18;

/// Returns the number that `count` digits spell. None if there is another byte, or a 0 before
/// another digit.
#[inline(always)]
fn read_counted(digits: &[u8], count: usize) -> Option<u64>
    requires all { count ≡ length digits.now }
    requires few { count ≤ 18 }
    ensures short { IfSome result (λ n. IsShort digits.now n) }
    ensures int { IsSome result ↔ IsInt digits.now }
{
    let mut value = 0;
    let mut at = 0;
    while at < count {
        let digit = digits[at];
        if !digit.is_ascii_digit() {
            return None;
        }
        value = 10 * value + (digit - b'0') as u64;
        at += 1;
    }
    if is_int_part(digits, 0, count) {
        Some(value)
    } else {
        None
    }
}

/// Returns the number that at most 18 digits spell, the usual case. None if there is another byte,
/// or a 0 before another digit.
///
/// The usual counts are cases of their own: if the compiler knows the count, the loop becomes
/// straight code. The cases are in groups of three after a test of order, since the compiler makes
/// a jump table of four.
#[inline(always)]
pub fn read_few_digits(digits: &[u8]) -> Option<u64>
    ensures short { IfSome result (λ n. IsShort digits.now n) }
    ensures few { IsSome result ↔ IsFewDigits digits.now }
{
    let count = digits.len();
    if count <= 3 {
        match count {
            1 => read_counted(digits, 1),
            2 => read_counted(digits, 2),
            3 => read_counted(digits, 3),
            _ => None,
        }
    } else if count <= 6 {
        match count {
            4 => read_counted(digits, 4),
            5 => read_counted(digits, 5),
            _ => read_counted(digits, 6),
        }
    } else if count <= FEW {
        read_counted(digits, count)
    } else {
        None
    }
}

/// Returns the value of any spelling.
#[inline(never)]
pub fn read_any(spelling: &[u8]) -> Result<Option<i64>, DecimalFault>
    ensures { (c : Class spelling.now) → result ≡ whole_answer c }
{
    match Decimal::read(spelling) {
        Ok(decimal) => Ok(decimal.whole()),
        Err(fault) => Err(fault),
    }
}
