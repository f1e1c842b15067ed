//! A number without the zeros at its end.
ghost use Rattle.std.specs.Prelude.{◌≡◌, ◌*◌, ◌^◌, ◌<◌, ◌≤◌};
ghost use Rattle.cj_decimal.specs.inner.Digits.{IsTrimmed};

/// Returns the number without the zeros at its end, and their count, for numbers of one machine
/// word.
fn short_without_zeros(number: u64) -> (u64, u32)
    requires { 0 < number }
    ensures trimmed { IsTrimmed number result.0 result.1 }
    ensures few { result.1 < 20 }
{
    let mut rest = number;
    let mut zeros = 0;
    while rest % 10 == 0 {
        rest /= 10;
        zeros += 1;
    }
    (rest, zeros)
}

/// Returns the number without the zeros at its end, and their count.
pub fn without_zeros(number: u128) -> (u128, u32)
    requires { 0 < number }
    ensures trimmed { IsTrimmed number result.0 result.1 }
    ensures few { result.1 < 39 }
{
    if number <= u64::MAX as u128 {
        let (rest, zeros) = short_without_zeros(number as u64);
        return (rest as u128, zeros);
    }
    let mut rest = number;
    let mut zeros = 0;
    while rest % 10 == 0 {
        rest /= 10;
        zeros += 1;
    }
    (rest, zeros)
}
