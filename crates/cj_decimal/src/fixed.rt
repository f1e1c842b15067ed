//! Multiples of 10^-18 below 10^18 in size.
ghost use Rattle.std.specs.Prelude.{◌≡◌, ◌<◌, ◌^◌, unsigned_abs};

use std::marker::Model;

/// A multiple of 10^-18, below 10^18 in size. Contracts see its number of units.
#[derive(Clone, Copy, Debug, PartialEq, Eq)]
pub struct Fixed18 {
    units: i128,
}

impl Model for Fixed18 {
    ghost use Rattle.std.specs.Prelude.{ℤ, unsigned_abs, ◌<◌, ◌^◌};

    ghost Value = { ℤ };

    ghost view = { λ f. f.units };

    ghost invariant = { λ f. unsigned_abs f.units < 10 ^ 36 };

    ghost inverse = { λ n. record { units = n } };
}

impl Fixed18 {
    /// Returns this number of units of 10^-18.
    pub(crate) fn from_units(units: i128) -> Fixed18
        requires { unsigned_abs units < 10 ^ 36 }
        ensures { result ≡ units }
    {
        Fixed18 { units }
    }

    /// Returns the number of units of 10^-18.
    pub fn units(self) -> i128
        ensures value { result ≡ self }
        ensures bound { unsigned_abs result < 10 ^ 36 }
    {
        self.units
    }
}
