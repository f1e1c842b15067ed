//! The order of texts, and whether two texts are the same. Both go by code points.
ghost use Rattle.std.specs.Prelude.{◌≡◌, ◌+◌, ◌-◌, ◌<◌, ◌≤◌, length, nat_eq, true, false};
ghost use Rattle.std.specs.Str.{chars};
ghost use Rattle.cj_spans.specs.inner.Decoding.{code_points_from, code_points_left, left, StartAlike};
ghost use Rattle.cj_spans.specs.Order.{compare};
ghost use Rattle.cj_spans.specs.Meaning.Text.{text, are_same};

use crate::lanes::{FEW_LANES, LANES, find_unlike, find_unlike_of_few};
use crate::text::decode::{Characters, CodePoints};
use std::cmp::Ordering;

/// Returns how many bytes there are from a place on.
#[inline(always)]
fn bytes_from(bytes: &[u8], place: usize) -> usize
    ensures { result ≡ length bytes.now - place }
{
    bytes.len().saturating_sub(place)
}

/// Returns whether two bytes are the same plain byte.
#[tactic(auto, using(std::proofs::lemmas::Bool::Decides::nat_tests))]
#[inline(always)]
fn is_alike(first: u8, second: u8) -> bool
    ensures same { result ≡ true → first ≡ second }
    ensures ascii { result ≡ true → first < 128 }
    ensures plain { result ≡ true → nat_eq first 92 ≡ false }
{
    first == second && first < 128 && first != b'\\'
}

/// Returns how many bytes of two strings are alike from here on, one after another.
#[tactic(auto, using(crate::proofs::Quoted::alike_none, crate::proofs::Quoted::alike_one_more))]
#[inline(always)]
fn count_alike_singly(bytes: &[u8], place: usize, others: &[u8], other_place: usize) -> usize
    ensures { StartAlike bytes.now place others.now other_place result }
{
    let room = bytes_from(bytes, place).min(bytes_from(others, other_place));
    let mut count = 0;
    while count < room && is_alike(bytes[place + count], others[other_place + count]) {
        count += 1;
    }
    count
}

/// Does the same for 8 to 16 bytes, by the first 8 and the last 8 of them.
#[inline(always)]
fn count_few_alike(
    bytes: &[u8],
    place: usize,
    others: &[u8],
    other_place: usize,
    room: usize,
) -> usize
    requires least { 8 ≤ room }
    requires most { room ≤ 16 }
    requires first { place + room ≤ length bytes.now }
    requires second { other_place + room ≤ length others.now }
    ensures { StartAlike bytes.now place others.now other_place result }
{
    if let Some(count) = find_unlike_of_few(bytes, place, others, other_place) {
        return count;
    }
    let last = room - FEW_LANES;
    match find_unlike_of_few(bytes, place + last, others, other_place + last) {
        Some(more) => last + more,
        None => room,
    }
}

/// Does the same for at least 8 bytes, by 16 at a time. The last 16 may have some in common with
/// those before.
#[tactic(auto, using(crate::proofs::Quoted::alike_none))]
#[inline(never)]
fn count_many_alike(bytes: &[u8], place: usize, others: &[u8], other_place: usize) -> usize
    requires first { place + 8 ≤ length bytes.now }
    requires second { other_place + 8 ≤ length others.now }
    ensures { StartAlike bytes.now place others.now other_place result }
{
    let room = bytes_from(bytes, place).min(bytes_from(others, other_place));
    if room < LANES {
        return count_few_alike(bytes, place, others, other_place, room);
    }
    let mut count = 0;
    while room - count > LANES {
        match find_unlike(bytes, place + count, others, other_place + count) {
            Some(more) => return count + more,
            None => count += LANES,
        }
    }
    let last = room - LANES;
    match find_unlike(bytes, place + last, others, other_place + last) {
        Some(more) => last + more,
        None => room,
    }
}

/// Returns how many bytes of two strings are alike from here on.
#[inline(always)]
fn count_alike(bytes: &[u8], place: usize, others: &[u8], other_place: usize) -> usize
    ensures { StartAlike bytes.now place others.now other_place result }
{
    if bytes_from(bytes, place) < FEW_LANES || bytes_from(others, other_place) < FEW_LANES {
        count_alike_singly(bytes, place, others, other_place)
    } else {
        count_many_alike(bytes, place, others, other_place)
    }
}

/// Skips the plain code points that two strings share from here on.
#[tactic(auto, using(crate::proofs::Quoted::order_passed, crate::proofs::Quoted::fewer_left))]
#[inline(always)]
fn pass_alike(left: &mut CodePoints, right: &mut CodePoints)
    ensures order { compare (code_points_left left.new) (code_points_left right.new)
        ≡ compare (code_points_left left.old) (code_points_left right.old) }
    ensures fewer { length (code_points_left left.new) ≤ length (code_points_left left.old) }
{
    let count = count_alike(left.bytes, left.place, right.bytes, right.place);
    left.place += count;
    right.place += count;
}

/// Returns whether the next bytes of two texts show that they differ: they are different plain
/// bytes.
#[tactic(auto, using(std::proofs::lemmas::Bool::Decides::nat_tests))]
#[inline(always)]
fn differ_plainly(first: u8, second: u8) -> bool
    ensures differ { result ≡ true → nat_eq first second ≡ false }
    ensures ascii { result ≡ true → (first < 128) × (second < 128) }
    ensures plain { result ≡ true → (nat_eq first 92 ≡ false) × (nat_eq second 92 ≡ false) }
{
    first != second && first < 128 && second < 128 && first != b'\\' && second != b'\\'
}

/// Compares texts whose order their next bytes alone do not show.
#[cold]
#[inline(never)]
fn compare_points(points: CodePoints, others: CodePoints) -> Ordering
    ensures { result ≡ compare (code_points_left points.entry) (code_points_left others.entry) }
{
    let mut left = points;
    let mut right = others;
    while let Some(point) = left.next() {
        match right.next() {
            Some(other) => {
                if point != other {
                    return point.cmp(&other);
                }
            }
            None => return Ordering::Greater,
        }
        pass_alike(&mut left, &mut right);
    }
    if right.next().is_none() {
        Ordering::Equal
    } else {
        Ordering::Less
    }
}

/// Compares the texts of two strings, given with their quotes. Most are the same plain bytes, or
/// differ in a plain byte.
#[inline]
pub(crate) fn compare_spellings(spelling: &[u8], other: &[u8]) -> Ordering
    requires first { 0 < length spelling.now }
    requires second { 0 < length other.now }
    ensures { result ≡ compare (text spelling.now) (text other.now) }
{
    let mut left = CodePoints::of(spelling);
    let mut right = CodePoints::of(other);
    pass_alike(&mut left, &mut right);
    match (left.next_byte(), right.next_byte()) {
        (None, None) => Ordering::Equal,
        (Some(byte), Some(other)) if differ_plainly(byte, other) => byte.cmp(&other),
        _ => compare_points(left, right),
    }
}

/// Compares the text of a string, given with its quotes, with this text.
#[inline(never)]
pub(crate) fn compare_spelling_with(spelling: &[u8], wanted: &str) -> Ordering
    requires { 0 < length spelling.now }
    ensures { result ≡ compare (text spelling.now) (chars wanted.now) }
{
    CodePoints::of(spelling).cmp(Characters::of(wanted))
}

/// Compares two texts that are in no line, like those of a query, as
/// [`crate::Node::compare_text`] compares those of nodes.
pub fn compare_strings(first: &str, second: &str) -> Ordering
    ensures { result ≡ compare (chars first.now) (chars second.now) }
{
    Characters::of(first).cmp(Characters::of(second))
}

/// Returns whether a string, without its last quote, has the plain bytes of a text. Both have as
/// many bytes. If the text is known at compile time, a byte of it costs one comparison.
#[tactic(auto, using(crate::proofs::Quoted::plain_character, crate::proofs::Quoted::plain_code, crate::proofs::Quoted::text_ends))]
#[inline(always)]
fn has_bytes_singly(body: &[u8], characters: &[u8]) -> bool
    requires { length body.now ≡ length characters.now + 1 }
    ensures { result ≡ true → are_same (code_points_from body.now 1) (left characters.now 0) ≡ true }
{
    let mut count = 0;
    while count < characters.len() {
        if !is_alike(characters[count], body[count + 1]) {
            return false;
        }
        count += 1;
    }
    true
}

/// Does the same. It compares 8 bytes at a time if there are 8 to 16, as in many names.
#[inline(always)]
fn has_bytes(body: &[u8], characters: &[u8]) -> bool
    requires { length body.now ≡ length characters.now + 1 }
    ensures { result ≡ true → are_same (code_points_from body.now 1) (left characters.now 0) ≡ true }
{
    let length = characters.len();
    if length >= FEW_LANES && length <= LANES {
        count_few_alike(characters, 0, body, 1, length) == length
    } else {
        has_bytes_singly(body, characters)
    }
}

/// Returns whether the spelling of a string, with its quotes, is exactly the plain bytes of this
/// text, as for nearly every name.
#[tactic(auto, using(crate::proofs::Quoted::code_points_between))]
#[inline(always)]
pub(crate) fn is_spelled_so(spelling: &[u8], wanted: &str) -> bool
    requires { 0 < length spelling.now }
    ensures { result ≡ true → are_same (text spelling.now) (chars wanted.now) ≡ true }
{
    let characters = wanted.as_bytes();
    let body = &spelling[..spelling.len() - 1];
    if body.is_empty() || body.len() - 1 != characters.len() {
        return false;
    }
    has_bytes(body, characters)
}

/// Returns whether a string has this text. `spelling` includes its quotes. Most names that a search
/// passes over differ in the first byte, so it compares this byte before anything else.
#[tactic(auto, using(crate::proofs::Quoted::other_text))]
#[inline(always)]
pub(crate) fn spells(spelling: &[u8], wanted: &str) -> bool
    requires { 0 < length spelling.now }
    ensures { result ≡ are_same (text spelling.now) (chars wanted.now) }
{
    let characters = wanted.as_bytes();
    if spelling.len() > 1 && !characters.is_empty() && differ_plainly(spelling[1], characters[0]) {
        return false;
    }
    is_spelled_so(spelling, wanted) || compare_spelling_with(spelling, wanted).is_eq()
}

/// Returns whether two strings, with their quotes, have one text. It compares their first bytes
/// before anything else, if the second string is not empty. Short strings are mostly spelled alike.
#[tactic(auto, using(crate::proofs::Quoted::other_texts))]
#[inline(always)]
pub(crate) fn spell_one_text(spelling: &[u8], other: &[u8]) -> bool
    requires first { 0 < length spelling.now }
    requires second { 0 < length other.now }
    ensures { result ≡ are_same (text spelling.now) (text other.now) }
{
    if spelling.len() > 1 && other.len() > 2 && differ_plainly(spelling[1], other[1]) {
        return false;
    }
    if spelling.len() <= FEW_LANES && spelling == other {
        return true;
    }
    compare_spellings(spelling, other).is_eq()
}
