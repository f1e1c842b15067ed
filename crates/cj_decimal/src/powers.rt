//! Powers of ten of one machine word.
ghost use Rattle.std.specs.Prelude.{◌≡◌, ◌^◌, ◌≤◌};

/// Returns ten to a power from 0 to 18.
pub fn ten_to(power: u32) -> u64
    requires { power ≤ 18 }
    ensures { result ≡ 10 ^ power }
{
    match power {
        0 => 1,
        1 => 10,
        2 => 100,
        3 => 1_000,
        4 => 10_000,
        5 => 100_000,
        6 => 1_000_000,
        7 => 10_000_000,
        8 => 100_000_000,
        9 => 1_000_000_000,
        10 => 10_000_000_000,
        11 => 100_000_000_000,
        12 => 1_000_000_000_000,
        13 => 10_000_000_000_000,
        14 => 100_000_000_000_000,
        15 => 1_000_000_000_000_000,
        16 => 10_000_000_000_000_000,
        17 => 100_000_000_000_000_000,
        _ => 1_000_000_000_000_000_000,
    }
}

/// Returns ten to a power from 0 to 36.
#[tactic(auto, using(crate::proofs::Values::ten_pow_add))]
pub fn wide_ten_to(power: u32) -> u128
    requires { power ≤ 36 }
    ensures { result ≡ 10 ^ power }
{
    if power <= 18 {
        ten_to(power) as u128
    } else {
        ten_to(power - 18) as u128 * 1_000_000_000_000_000_000
    }
}
