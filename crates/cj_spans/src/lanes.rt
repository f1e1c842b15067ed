//! Bytes of a line, 16 or more at a time.
ghost use Rattle.std.specs.Prelude.{◌≡◌, ◌+◌, ◌^◌, ◌≤◌, ◌<◌, length, ℕ, true, IfSome, IfNone, IsTrue};
ghost use Rattle.cj_spans.specs.inner.Decoding.{AreAlike};
ghost use Rattle.cj_spans.specs.Meaning.Spelling.{is_plain as is_plain_of};
ghost use Rattle.cj_spans.specs.Meaning.Json.{byte as byte_of};
ghost use Rattle.cj_spans.specs.inner.Machine.{is_digit as is_digit_of};
ghost use Rattle.cj_spans.specs.inner.Wholes.{IsWholeSign, AreMarked, AreMarkedTo};

use std::simd::prelude::*;

/// The number of bytes in one step: those of a vector of the baseline x86-64.
pub const LANES: usize = 16;

/// The number of bytes in one step if fewer than `LANES` remain.
pub const FEW_LANES: usize = 8;

/// The number of bytes in one step over what is nearly always ASCII: four vectors to a jump.
pub const BLOCK: usize = 64;

/// Returns whether the 64 bytes from `place` on are ASCII.
#[inline(always)]
pub fn is_ascii_block(line: &[u8], place: usize) -> bool
    requires { place + 64 ≤ length line.now }
    ensures { IsTrue result → (k : ℕ) → place ≤ k → k < place + 64 → byte_of line.now k < 128 }
{
    u8x64::from_slice(&line[place..])
        .simd_gt(u8x64::splat(127))
        .to_bitmask()
        == 0
}

/// Returns the place of the first byte beyond ASCII, among the 16 from `place` on.
#[inline(always)]
pub fn find_beyond_ascii(line: &[u8], place: usize) -> Option<usize>
    requires { place + 16 ≤ length line.now }
    ensures found { IfSome result (λ n. (place ≤ n) × (n ≤ place + 16)
        × ((k : ℕ) → place ≤ k → k < n → byte_of line.now k < 128)) }
    ensures none { IfNone result ((k : ℕ) → place ≤ k → k < place + 16 → byte_of line.now k < 128) }
{
    let others = u8x16::from_slice(&line[place..])
        .simd_gt(u8x16::splat(127))
        .to_bitmask();
    if others == 0 {
        None
    } else {
        Some(place + others.trailing_zeros() as usize)
    }
}

/// Returns the place of the first byte that is no digit, among the 16 from `place` on.
#[inline(always)]
#[tactic(auto, using(crate::proofs::Vectors::all_digits, crate::proofs::Vectors::digits_within, crate::proofs::Vectors::digits_before))]
pub fn find_other(line: &[u8], place: usize) -> Option<usize>
    requires { place + 16 ≤ length line.now }
    ensures found { IfSome result (λ n. (place ≤ n) × (n ≤ place + 16)
        × ((k : ℕ) → place ≤ k → k < n → is_digit_of (byte_of line.now k) ≡ true)) }
    ensures none { IfNone result
        ((k : ℕ) → place ≤ k → k < place + 16 → is_digit_of (byte_of line.now k) ≡ true) }
{
    let above = u8x16::from_slice(&line[place..]) - u8x16::splat(b'0');
    let others = above.simd_gt(u8x16::splat(9)).to_bitmask();
    if others == 0 {
        None
    } else {
        Some(place + others.trailing_zeros() as usize)
    }
}

/// The number of bytes in a block of numbers.
const NUMBERS: usize = 32;

/// Returns a number with bit `k` set if the byte at `place + k` is no digit, for 32 bytes.
#[inline(always)]
#[tactic(auto, using(crate::proofs::Vectors::block_marked))]
fn mark_block(line: &[u8], place: usize) -> u64
    requires { place + 32 ≤ length line.now }
    ensures { AreMarkedTo line.now place (place + 32) result }
{
    let above = u8x32::from_slice(&line[place..]) - u8x32::splat(b'0');
    above.simd_gt(u8x32::splat(9)).to_bitmask()
}

/// Returns a number with bit `k` set if the byte at `place + k` is no digit, for the next 32 bytes,
/// or for all that are left. It is 0 in a line of less than 32 bytes.
#[inline(always)]
pub fn mark_others(line: &[u8], place: usize) -> u64
    requires { place ≤ length line.now }
    ensures { AreMarked line.now place result }
{
    let room = line.len() - place;
    if room >= NUMBERS {
        return mark_block(line, place);
    }
    if line.len() < NUMBERS {
        return 0;
    }
    mark_block(line, line.len() - NUMBERS) >> (NUMBERS - room)
}

/// How far the byte `9` is above a comma.
const COMMA_TO_NINE: u8 = 13;

/// Returns a number with bit `k` set if the byte at `place + k` cannot be in an array of whole
/// numbers, for 16 bytes.
#[inline(always)]
#[tactic(auto, using(crate::proofs::Vectors::signs_above))]
fn mark_foreign(line: &[u8], place: usize) -> u64
    requires { place + 16 ≤ length line.now }
    ensures { (j k : ℕ) → result < 2 ^ j → j ≤ k → k < 16 → IsWholeSign (byte_of line.now (place + k)) }
{
    let bytes = u8x16::from_slice(&line[place..]);
    let pointless = bytes
        .simd_eq(u8x16::splat(b'.'))
        .select(u8x16::splat(0), bytes);
    let above = pointless - u8x16::splat(b',');
    above.simd_gt(u8x16::splat(COMMA_TO_NINE)).to_bitmask()
}

/// Returns whether the bytes from `from` to `to` are those of whole numbers and of commas. False if
/// there are more than 32, and near the start of the line.
#[inline(always)]
pub fn are_whole_signs(line: &[u8], from: usize, to: usize) -> bool
    requires order { from ≤ to }
    requires within { to ≤ length line.now }
    ensures { IsTrue result → (k : ℕ) → from ≤ k → k < to → IsWholeSign (byte_of line.now k) }
{
    let count = to - from;
    if count > 2 * LANES || to < LANES {
        return false;
    }
    let marks = mark_foreign(line, to - LANES);
    if count < LANES {
        return marks < 1 << (LANES - count);
    }
    marks == 0 && mark_foreign(line, from) == 0
}

/// Returns the place of the first byte that is not plain in a string, among the 16 from `place` on.
#[inline(always)]
#[tactic(auto, using(crate::proofs::Vectors::all_plain, crate::proofs::Vectors::plain_within, crate::proofs::Vectors::plain_before))]
pub fn find_special(line: &[u8], place: usize) -> Option<usize>
    requires { place + 16 ≤ length line.now }
    ensures found { IfSome result (λ n. (place ≤ n) × (n ≤ place + 16)
        × ((k : ℕ) → place ≤ k → k < n → is_plain_of (byte_of line.now k) ≡ true)) }
    ensures none { IfNone result
        ((k : ℕ) → place ≤ k → k < place + 16 → is_plain_of (byte_of line.now k) ≡ true) }
{
    let zero = u8x16::splat(0);
    let bytes = u8x16::from_slice(&line[place..]);
    let unquoted = bytes.simd_eq(u8x16::splat(b'"')).select(zero, bytes);
    let unescaped = bytes.simd_eq(u8x16::splat(b'\\')).select(zero, unquoted);
    let others = unescaped.simd_lt(u8x16::splat(b' ')).to_bitmask();
    if others == 0 {
        None
    } else {
        Some(place + others.trailing_zeros() as usize)
    }
}

/// Returns how many bytes of two strings are alike before the first of 16 that are not. None if all
/// 16 are alike. Two bytes are alike if they are the same, ASCII, and no backslash.
#[inline(always)]
pub fn find_unlike(bytes: &[u8], place: usize, others: &[u8], other_place: usize) -> Option<usize>
    requires first { place + 16 ≤ length bytes.now }
    requires second { other_place + 16 ≤ length others.now }
    ensures found { IfSome result (λ n. (n ≤ 16) × AreAlike bytes.now place others.now other_place n) }
    ensures none { IfNone result (AreAlike bytes.now place others.now other_place 16) }
{
    let first = u8x16::from_slice(&bytes[place..]);
    let second = u8x16::from_slice(&others[other_place..]);
    let high = u8x16::splat(255);
    let unescaped = first.simd_eq(u8x16::splat(b'\\')).select(high, first);
    let same = first.simd_eq(second).select(unescaped, high);
    let unlike = same.simd_gt(u8x16::splat(127)).to_bitmask();
    if unlike == 0 {
        None
    } else {
        Some(unlike.trailing_zeros() as usize)
    }
}

/// Does the same for 8 bytes.
#[inline(always)]
pub fn find_unlike_of_few(
    bytes: &[u8],
    place: usize,
    others: &[u8],
    other_place: usize,
) -> Option<usize>
    requires first { place + 8 ≤ length bytes.now }
    requires second { other_place + 8 ≤ length others.now }
    ensures found { IfSome result (λ n. (n ≤ 8) × AreAlike bytes.now place others.now other_place n) }
    ensures none { IfNone result (AreAlike bytes.now place others.now other_place 8) }
{
    let first = u8x8::from_slice(&bytes[place..]);
    let second = u8x8::from_slice(&others[other_place..]);
    let high = u8x8::splat(255);
    let unescaped = first.simd_eq(u8x8::splat(b'\\')).select(high, first);
    let same = first.simd_eq(second).select(unescaped, high);
    let unlike = same.simd_gt(u8x8::splat(127)).to_bitmask();
    if unlike == 0 {
        None
    } else {
        Some(unlike.trailing_zeros() as usize)
    }
}
