//! The digits of a spelling, stored in a few numbers, for any count of digits.
//!
//! At most 36 digits are stored. A number below 10^36 and the product of two below 10^18 fit well
//! into 128 bits. They count from the first digit that is not 0. Zeros at the end are counted
//! separately. Only a later digit that is not 0 makes the number too long.
ghost use Rattle.std.specs.Prelude.{◌≡◌, ℕ, ◌+◌, ◌*◌, ◌^◌, ◌<◌, ◌≤◌, length, drop, [], IsTrue, ◌-◌, slice_index};
ghost use Rattle.cj_decimal.specs.inner.Digits.{StandsFor};
ghost use Rattle.cj_decimal.specs.Meaning.Reading.{value_after, begins_digit, digits_front};
ghost use Rattle.cj_decimal.specs.inner.Reading.{Carries, Passes, Stops};

/// The least number of 36 digits. One more digit fits after any lesser number.
const FULL: u128 = 100_000_000_000_000_000_000_000_000_000_000_000;

/// The least number of 18 digits. In the short loop one more digit fits after any lesser number.
const SHORT: u64 = 100_000_000_000_000_000;

/// The digits read so far. `lead` is the first 36, from the first that is not 0. `extra` is the
/// number of zeros after them. `lost` says whether another digit that is not 0 comes later.
#[derive(Clone, Copy)]
pub struct Digits {
    pub lead: u128,
    pub extra: usize,
    pub lost: bool,
    ghost lead_fits: { lead < 10 ^ 36 },
    ghost extra_after_full: { 0 < extra → 10 ^ 35 ≤ lead },
    ghost lost_after_full: { IsTrue lost → 10 ^ 35 ≤ lead },
}

impl Digits {
    /// No digit.
    pub const NONE: Digits = Digits {
        lead: 0,
        extra: 0,
        lost: false,
    };

    /// Returns these digits and one more, which still fits.
    #[tactic(auto, using(crate::proofs::Parts::push_short))]
    fn push(self, digit: u8) -> Digits
        requires digit { digit < 10 }
        requires room { self.lead < 10 ^ 35 }
        ensures stands { (n : ℕ) → StandsFor self.lead self.extra self.lost n
            → StandsFor result.lead result.extra result.lost (10 * n + digit) }
        ensures extra { result.extra ≡ self.extra }
    {
        Digits {
            lead: self.lead * 10 + digit as u128,
            extra: self.extra,
            lost: self.lost,
        }
    }
}

/// Digits that were read, and where they stop.
#[derive(Clone, Copy)]
pub struct Run {
    pub digits: Digits,
    pub stop: usize,
}

/// Reads digits while the number stays below 10^18, the usual case. It takes and returns a number
/// and a place.
#[inline(always)]
pub fn read_short(spelling: &[u8], from: usize, start: u64) -> (u64, usize)
    requires within { from ≤ length spelling.now }
    requires short { start < 10 ^ 18 }
    ensures passes { Passes spelling.now from result.1 }
    ensures carries { Carries spelling.now from start result.1 result.0 }
    ensures short { result.0 < 10 ^ 18 }
{
    let mut value = start;
    let mut at = from;
    while at < spelling.len() && value < SHORT {
        let byte = spelling[at];
        if !byte.is_ascii_digit() {
            break;
        }
        value = 10 * value + (byte - b'0') as u64;
        at += 1;
    }
    (value, at)
}

/// Reads all digits from a place on, after as many as fit. Zeros are counted. The first other digit
/// is lost, and so are all after it.
fn read_past_full(spelling: &[u8], from: usize, start: Digits) -> Run
    requires within { from ≤ length spelling.now }
    requires bounded { start.extra ≤ from }
    requires full { 10 ^ 35 ≤ start.lead }
    ensures stops { Stops spelling.now from result.stop }
    ensures stands { (n : ℕ) → StandsFor start.lead start.extra start.lost n
        → StandsFor result.digits.lead result.digits.extra result.digits.lost
        (value_after n (digits_front (drop from spelling.now))) }
    ensures bounded { result.digits.extra ≤ result.stop }
{
    let mut extra = start.extra;
    let mut at = from;
    while at < spelling.len() && spelling[at] == b'0' {
        extra += 1;
        at += 1;
    }
    let mut lost = start.lost;
    while has_digit(spelling, at) {
        lost = true;
        at += 1;
    }
    let digits = Digits {
        lead: start.lead,
        extra,
        lost,
    };
    Run { digits, stop: at }
}

/// Reads all digits from a place on, for any count of them.
///
/// It is separate from the usual case, which then needs no memory for its numbers.
#[inline(never)]
pub fn read_long(spelling: &[u8], from: usize, start: Digits) -> Run
    requires within { from ≤ length spelling.now }
    requires bounded { start.extra ≤ from }
    ensures stops { Stops spelling.now from result.stop }
    ensures stands { (n : ℕ) → StandsFor start.lead start.extra start.lost n
        → StandsFor result.digits.lead result.digits.extra result.digits.lost
        (value_after n (digits_front (drop from spelling.now))) }
    ensures bounded { result.digits.extra ≤ result.stop }
{
    let mut digits = start;
    let mut at = from;
    while digits.lead < FULL {
        if !has_digit(spelling, at) {
            return Run { digits, stop: at };
        }
        digits = digits.push(spelling[at] - b'0');
        at += 1;
    }
    read_past_full(spelling, at, digits)
}

/// Reads the digits that continue a short number. Usually there are none.
#[inline(always)]
#[tactic(auto, using(crate::proofs::Parts::short_stands, crate::proofs::Grammar::carried_here, crate::proofs::Grammar::carries_refl))]
pub fn read_on(spelling: &[u8], from: usize, short: u64) -> Run
    requires within { from ≤ length spelling.now }
    requires short { short < 10 ^ 18 }
    ensures stops { Stops spelling.now from result.stop }
    ensures stands { StandsFor result.digits.lead result.digits.extra result.digits.lost
        (value_after short (digits_front (drop from spelling.now))) }
    ensures bounded { result.digits.extra ≤ result.stop }
{
    let digits = Digits {
        lead: short as u128,
        extra: 0,
        lost: false,
    };
    if !has_digit(spelling, from) {
        return Run { digits, stop: from };
    }
    read_long(spelling, from, digits)
}

/// Reads all digits from a place on, after the digits in `start`.
#[inline(always)]
#[tactic(auto, using(crate::proofs::Grammar::stops_after, crate::proofs::Parts::stands_short))]
pub fn read_digits(spelling: &[u8], from: usize, start: Digits) -> Run
    requires within { from ≤ length spelling.now }
    requires bounded { start.extra ≤ from }
    ensures stops { Stops spelling.now from result.stop }
    ensures stands { (n : ℕ) → StandsFor start.lead start.extra start.lost n
        → StandsFor result.digits.lead result.digits.extra result.digits.lost
        (value_after n (digits_front (drop from spelling.now))) }
    ensures bounded { result.digits.extra ≤ result.stop }
{
    if start.lead >= SHORT as u128 {
        return read_long(spelling, from, start);
    }
    let (short, at) = read_short(spelling, from, start.lead as u64);
    read_on(spelling, at, short)
}

/// Returns whether a digit is at a place.
#[tactic(auto, using(crate::proofs::Common::nat_tests, crate::proofs::Grammar::no_digit_past, crate::proofs::Grammar::digit_at))]
fn has_digit(spelling: &[u8], at: usize) -> bool
    ensures { result ≡ begins_digit (drop at spelling.now) }
{
    at < spelling.len() && spelling[at].is_ascii_digit()
}
