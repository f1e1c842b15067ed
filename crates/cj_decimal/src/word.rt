//! Numbers of at most eight digits in a line, read from one word: the eight bytes before the
//! number's end.
ghost use Rattle.std.specs.Prelude.{◌≡◌, ℕ, ◌+◌, ◌-◌, ◌*◌, ◌^◌, ◌<◌, ◌≤◌, List, length, map, slice_range, IfSome};
ghost use Rattle.std.specs.Prelude.{IsSome, IsTrue, ◌↔◌};
ghost use Rattle.cj_decimal.specs.inner.Reading.{IsShort};
ghost use Rattle.cj_decimal.specs.Meaning.Spelling.{IsInt};
ghost use Rattle.cj_decimal.specs.FewDigits.{IsNumberIfBegun};
ghost use Rattle.cj_decimal.specs.Meaning.Reading.{digits_value};
ghost use Rattle.cj_decimal.specs.Word.{little_endian, AllBelow, IsCountWord, IsWordOf, IsBoundWord};

/// The number of bytes in a word.
const BYTES: usize = 8;

/// The byte `0` at each place of a word.
const ZEROS: u64 = 0x3030_3030_3030_3030;

/// The high half of each byte.
const HIGH: u64 = 0xf0f0_f0f0_f0f0_f0f0;

/// All bits of the last bytes of a word, for each count of bytes.
const LAST: [u64; 9] = [
    0,
    0xff00_0000_0000_0000,
    0xffff_0000_0000_0000,
    0xffff_ff00_0000_0000,
    0xffff_ffff_0000_0000,
    0xffff_ffff_ff00_0000,
    0xffff_ffff_ffff_0000,
    0xffff_ffff_ffff_ff00,
    0xffff_ffff_ffff_ffff,
];

/// The first and the fifth byte.
const PAIRS: u64 = 0x0000_00ff_0000_00ff;

/// Returns the eight bytes before `stop` as a word. The first byte is the least.
#[inline(always)]
fn word_before(line: &[u8], stop: usize) -> u64
    requires room { 8 ≤ stop }
    requires within { stop ≤ length line.now }
    ensures { result ≡ little_endian (slice_range line.now (stop - 8) stop) }
{
    let bytes = &line[stop - BYTES..stop];
    u64::from_le_bytes([
        bytes[0], bytes[1], bytes[2], bytes[3], bytes[4], bytes[5], bytes[6], bytes[7],
    ])
}

/// Returns all bits of the last `count` bytes of a word.
#[inline(always)]
fn last_bytes(count: usize) -> u64
    requires { count ≤ 8 }
    ensures { result ≡ 2 ^ 64 - 2 ^ (8 * (8 - count)) }
{
    LAST[count]
}

/// Returns the number that eight digits spell. Each byte is the value of a digit.
///
/// Digits are joined into pairs, and every second pair counts. Two products each weigh and add two
/// pairs.
#[inline(always)]
#[tactic(auto, using(crate::proofs::Eights::value_eight))]
fn value_of(word: u64) -> u64
    requires { word < 2 ^ 60 }
    ensures small { result < 2 ^ 32 }
    ensures value { (s : List ℕ) → length s ≡ 8 → AllBelow 10 s → word ≡ little_endian s
        → result ≡ digits_value (map (λ d. d + 48) s) }
{
    let pairs = word * 10 + (word >> 8);
    let first = (pairs & PAIRS).wrapping_mul(100 + (1_000_000 << 32));
    let second = ((pairs >> 16) & PAIRS).wrapping_mul(1 + (10_000 << 32));
    first.wrapping_add(second) >> 32
}

/// Returns whether each byte of a word is below 16.
#[inline(always)]
#[tactic(auto, using(crate::proofs::EightsInLine::low_each, crate::proofs::EightsInLine::passes_low))]
fn are_low(word: u64) -> bool
    ensures { (s : List ℕ) → length s ≡ 8 → AllBelow 256 s → word ≡ little_endian s
        → IsTrue result ↔ AllBelow 16 s }
{
    word & HIGH == 0
}

/// Returns the digits of a number of JSON from `start` to `stop` as a word, as [`digits_word`] has
/// those of a count. None unless the bytes there are at most eight digits. None also if `stop` is
/// below 8.
///
/// One test is enough. If all bytes are below 16 without the bits of `0`, then the first one does
/// not begin a string, a literal, an array or an object. So the bytes are a number of JSON. Of its
/// bytes only digits are so low, and none of them comes after a 0 in front.
#[inline(always)]
pub fn read_digits_word(line: &[u8], start: usize, stop: usize) -> Option<u64>
    requires order { start < stop }
    requires within { stop ≤ length line.now }
    requires number { IsNumberIfBegun (slice_range line.now start stop) }
    ensures word { IfSome result (λ w. IsWordOf w (digits_value (slice_range line.now start stop))) }
    ensures few { IsSome result ↔ (IsInt (slice_range line.now start stop) × (stop ≤ start + 8) × (8 ≤ stop)) }
{
    let count = stop - start;
    if count > BYTES || stop < BYTES {
        return None;
    }
    let digits = (word_before(line, stop) ^ ZEROS) & last_bytes(count);
    if are_low(digits) {
        Some(digits.swap_bytes())
    } else {
        None
    }
}

/// Returns the number that the digits of a word spell.
#[inline(always)]
pub fn word_value(word: u64) -> u64
    requires { (n : ℕ) × IsWordOf word n }
    ensures small { result < 2 ^ 32 }
    ensures value { (n : ℕ) → IsWordOf word n → result ≡ n }
{
    value_of(word.swap_bytes())
}

/// Returns the number that the digits of [`read_digits_word`] spell. None if it has none.
#[inline(always)]
pub fn read_word(line: &[u8], start: usize, stop: usize) -> Option<u64>
    requires order { start < stop }
    requires within { stop ≤ length line.now }
    requires number { IsNumberIfBegun (slice_range line.now start stop) }
    ensures short { IfSome result (λ n. IsShort (slice_range line.now start stop) n) }
    ensures few { IsSome result ↔ (IsInt (slice_range line.now start stop) × (stop ≤ start + 8) × (8 ≤ stop)) }
{
    match read_digits_word(line, start, stop) {
        Some(digits) => Some(word_value(digits)),
        None => None,
    }
}

/// The least number that has more than eight digits.
const NINE_DIGITS: u64 = 100_000_000;

/// Returns the digits of a count in the bytes of a word, the first in the greatest byte. Words of
/// eight digits have the order of their numbers, so no value need be computed to compare two.
///
/// The word of a count of more digits is the greatest one, above all of them.
#[tactic(auto, using(crate::proofs::Below::all_below))]
pub fn digits_word(count: u64) -> u64
    ensures word { IsCountWord result count }
    ensures below { IsBoundWord result count }
{
    if count < 10 {
        return count;
    }
    if count >= NINE_DIGITS {
        return u64::MAX;
    }
    let a = count / 10;
    let b = a / 10;
    let c = b / 10;
    let d = c / 10;
    let e = d / 10;
    let f = e / 10;
    let g = f / 10;
    let low = count % 10 + (a % 10) * 0x100 + (b % 10) * 0x1_0000 + (c % 10) * 0x100_0000;
    let high = d % 10 + (e % 10) * 0x100 + (f % 10) * 0x1_0000 + g * 0x100_0000;
    low + high * 0x1_0000_0000
}

/// Returns whether [`read_digits_word`] has digits that spell a number below the one of this word.
#[inline(always)]
pub fn is_below(line: &[u8], start: usize, stop: usize, word: u64) -> bool
    requires order { start < stop }
    requires within { stop ≤ length line.now }
    requires number { IsNumberIfBegun (slice_range line.now start stop) }
    ensures near { IsTrue result → stop ≤ start + 8 }
    ensures short { IsTrue result → (n : ℕ) → IsBoundWord word n
        → (m : ℕ) × (m < n) × IsShort (slice_range line.now start stop) m }
    ensures all { IsInt (slice_range line.now start stop) → stop ≤ start + 8 → 8 ≤ stop → (n : ℕ) → IsCountWord word n
        → digits_value (slice_range line.now start stop) < n → IsTrue result }
{
    match read_digits_word(line, start, stop) {
        Some(digits) => digits < word,
        None => false,
    }
}
