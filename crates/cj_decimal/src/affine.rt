//! Whole numbers, scaled and shifted, compared exactly.
//!
//! A scale is split by rounding down, not towards 0. So the remainder is never negative, and the
//! sign of the whole part decides.
ghost use Rattle.std.specs.Prelude.{◌≡◌, ◌<◌, ◌≤◌, ◌^◌, ◌+ℤ◌, ◌*ℤ◌, ◌*◌, ◌≤ℤ◌, ◌<ℤ◌, pos, unsigned_abs};
ghost use Rattle.std.specs.Int.{int_div_euclid, int_rem_euclid};
ghost use Rattle.std.specs.Ordering.{int_cmp};
ghost use Rattle.cj_decimal.specs.Meaning.Equality.{value_order};
ghost use Rattle.cj_decimal.specs.Meaning.Affine.{image};
ghost use Rattle.cj_decimal.specs.Affine.{units};

use crate::fixed::Fixed18;
use std::cmp::Ordering;
use std::marker::Model;

/// The number of units of 10^-18 in one.
const ONE: i128 = 1_000_000_000_000_000_000;

/// The map of whole numbers v to `v * scale + shift`. Contracts see scale and shift in units of
/// 10^-18.
#[derive(Clone, Copy, Debug, PartialEq, Eq)]
pub struct Affine {
    scale: i128,
    /// The scale rounded down to a whole number. It is stored, so that no comparison divides again.
    whole: i64,
    /// The remainder of the scale, in units.
    part: i64,
    shift: i128,
}

impl Model for Affine {
    ghost use Rattle.std.specs.Prelude.{pos, ◌^◌};
    ghost use Rattle.std.specs.Int.{int_div_euclid, int_rem_euclid};
    ghost use Rattle.cj_decimal.specs.Meaning.Affine.{AffineMap};
    ghost use Rattle.cj_decimal.specs.Affine.{IsSplit, IsInUnits};

    ghost Value = { AffineMap };

    ghost view = { λ a. record { scale = a.scale; shift = a.shift } };

    ghost invariant = { λ a. IsSplit a.scale a.whole a.part × IsInUnits a.scale a.shift };

    ghost inverse = { λ m. record {
      scale = m.scale;
      whole = int_div_euclid m.scale (pos (10 ^ 18));
      part = int_rem_euclid m.scale (pos (10 ^ 18));
      shift = m.shift;
    } };

    ghost inverse_ok = { λ a h i. record
        { scale = a.scale; whole = h.0.whole_is i; part = h.0.part_is i; shift = a.shift } };
}

impl Affine {
    /// Returns the map with this scale and shift.
    pub fn new(scale: Fixed18, shift: Fixed18) -> Affine
        ensures { result ≡ record { scale = scale; shift = shift } }
    {
        let scale = scale.units();
        let (whole, part) = split(scale);
        Affine {
            scale,
            whole: whole as i64,
            part: part as i64,
            shift: shift.units(),
        }
    }

    /// Compares `v * scale + shift` with a number, exactly. `v` is below 10^18 in size.
    pub fn compare(&self, v: i64, q: Fixed18) -> Ordering
        requires { unsigned_abs v < 10 ^ 18 }
        ensures order { result ≡ int_cmp (image self.now v) q }
        ensures value { result ≡ value_order (units (image self.now v)) (units q) }
    {
        let rest = product(v, self.part) + self.shift - q.units();
        let (carry, left) = split(rest);
        sign_of(product(v, self.whole) + carry, left)
    }
}

/// Returns the product of two numbers of at most 10^18 in size.
fn product(left: i64, right: i64) -> i128
    requires left_fits { unsigned_abs left < 10 ^ 18 }
    requires right_fits { unsigned_abs right ≤ 10 ^ 18 }
    ensures value { result ≡ left *ℤ right }
    ensures bound { unsigned_abs result ≤ 10 ^ 36 }
{
    left as i128 * right as i128
}

/// Returns this number of units as whole ones, rounded down, and the units that remain.
fn split(units: i128) -> (i128, i128)
    requires { unsigned_abs units < 4 * 10 ^ 36 }
    ensures whole { result.0 ≡ int_div_euclid units (pos (10 ^ 18)) }
    ensures left { result.1 ≡ int_rem_euclid units (pos (10 ^ 18)) }
    ensures joined { result.0 *ℤ pos (10 ^ 18) +ℤ result.1 ≡ units }
    ensures low { pos 0 ≤ℤ result.1 }
    ensures high { result.1 <ℤ pos (10 ^ 18) }
    ensures bound { unsigned_abs result.0 ≤ 4 * 10 ^ 18 }
{
    let whole = units.div_euclid(ONE);
    (whole, units - whole * ONE)
}

/// Compares a number of whole ones and units with 0. The units are less than one.
fn sign_of(whole: i128, left: i128) -> Ordering
    requires low { pos 0 ≤ℤ left }
    requires high { left <ℤ pos (10 ^ 18) }
    ensures { result ≡ int_cmp (whole *ℤ pos (10 ^ 18) +ℤ left) (pos 0) }
{
    if whole < 0 {
        return Ordering::Less;
    }
    if whole > 0 {
        return Ordering::Greater;
    }
    if left > 0 {
        return Ordering::Greater;
    }
    Ordering::Equal
}
