//! Numbers of texts: equal texts have equal numbers in any spelling.
ghost use Rattle.std.specs.Prelude.{◌≡◌, ◌+◌, ◌^◌, ◌<◌, ◌≤◌, length, nat_eq, false, IsTrue, Some};
ghost use Rattle.std.specs.Str.{chars};
ghost use Rattle.cj_spans.specs.inner.Decoding.{AreAlike, code_points_from, code_points_left};
ghost use Rattle.cj_spans.specs.Tail.{tail_step, tail_on, tail_of};
ghost use Rattle.cj_spans.specs.Hash.{hash_step, hash_on};
ghost use Rattle.cj_spans.specs.Order.{digits};
ghost use Rattle.cj_spans.specs.Meaning.Signs.{backslash};

use crate::lanes::{FEW_LANES, find_unlike_of_few};
use crate::text::decode::{Characters, CodePoints};

/// The weight of the first code point of a text in its word: the top eight of 64 bits.
const FIRST_WEIGHT: u64 = 1 << 56;

/// The weight of a code point in units of the next one.
const BASE: u64 = 256;

/// The least code point that ends a word.
const PAST_DIGITS: u32 = 255;

/// Returns whether a byte is a character of its own in a string: ASCII, and no backslash. One
/// comparison is enough, since the backslash becomes 255 and other ASCII stays below 127.
#[inline(always)]
fn stands_for_itself(byte: u8) -> bool
    ensures { IsTrue result → (byte < 128) × (nat_eq byte backslash ≡ false) }
{
    (byte ^ b'\\').wrapping_sub(1) < 127
}

/// Returns the word of eight plain bytes.
#[inline(always)]
#[tactic(auto, using(crate::proofs::Strings::plain_word))]
fn word_of_plain(bytes: &[u8], place: usize) -> u64
    requires within { place + 8 ≤ length bytes.now }
    requires plain { AreAlike bytes.now place bytes.now place 8 }
    ensures { result ≡ digits (256 ^ 7) (code_points_from bytes.now place) }
{
    u64::from_be_bytes([
        bytes[place],
        bytes[place + 1],
        bytes[place + 2],
        bytes[place + 3],
        bytes[place + 4],
        bytes[place + 5],
        bytes[place + 6],
        bytes[place + 7],
    ])
}

/// Returns the word that begins so, with the next code points. The first of these has this weight.
///
/// It is cold, since most texts are plain.
#[tactic(auto, using(crate::proofs::Strings::digits_none, crate::proofs::Strings::digits_few, crate::proofs::Strings::digits_cut))]
#[cold]
#[inline(never)]
fn word_on(front: u64, first_weight: u64, points: CodePoints) -> u64
    requires { front + digits first_weight (code_points_left points) < 2 ^ 64 }
    ensures { result ≡ front + digits first_weight (code_points_left points.entry) }
{
    let mut word = front;
    let mut weight = first_weight;
    for point in points {
        if weight == 0 {
            return word;
        }
        if point >= PAST_DIGITS {
            return word + PAST_DIGITS as u64 * weight;
        }
        word += point as u64 * weight;
        weight /= BASE;
    }
    word
}

/// Returns the word of a string's text, by its bytes up to the first one that is not plain.
#[inline(always)]
#[tactic(auto, using(crate::proofs::Strings::digits_plain, crate::proofs::Strings::digits_end, crate::proofs::Strings::digits_below, crate::proofs::Strings::word_fits))]
fn word_by_bytes(points: CodePoints) -> u64
    ensures { result ≡ digits (256 ^ 7) (code_points_left points.entry) }
{
    let bytes = points.bytes;
    let mut place = points.place;
    let mut word = 0;
    let mut weight = FIRST_WEIGHT;
    while weight > 0 && place < bytes.len() {
        let byte = bytes[place];
        if !stands_for_itself(byte) {
            return word_on(word, weight, CodePoints { bytes, place });
        }
        word += byte as u64 * weight;
        weight /= BASE;
        place += 1;
    }
    word
}

/// Returns the first eight code points of a string's text as one number. The order of such numbers
/// is the order of the texts, as far as they differ. It looks first whether the next eight bytes
/// are plain, which are like themselves then.
pub(crate) fn word(points: CodePoints) -> u64
    ensures { result ≡ digits (256 ^ 7) (code_points_left points.entry) }
{
    let (bytes, place) = (points.bytes, points.place);
    if bytes.len().saturating_sub(place) >= FEW_LANES
        && find_unlike_of_few(bytes, place, bytes, place).is_none()
    {
        return word_of_plain(bytes, place);
    }
    word_by_bytes(points)
}

/// Seven code points of a tail are below this. The next code point displaces the first of eight.
const SEVEN_DIGITS: u64 = 1 << 56;

/// Returns the tail after one more code point.
#[inline(always)]
fn tail_with(tail: u64, point: u32) -> u64
    ensures { result ≡ tail_step tail point }
{
    tail % SEVEN_DIGITS * BASE + point.min(PAST_DIGITS) as u64
}

/// Returns the last eight code points of a string's text as one number.
pub(crate) fn tail(points: CodePoints) -> u64
    ensures { result ≡ tail_on 0 (code_points_left points.entry) }
{
    let mut tail = 0;
    for point in points {
        tail = tail_with(tail, point);
    }
    tail
}

/// Returns the last eight code points of a text that is in no line, like one of a query, as one
/// number: [`crate::Node::text_tail`] of a node with this text.
pub fn tail_of_string(text: &str) -> u64
    ensures { result ≡ tail_of (Some (chars text.now)) }
{
    let mut tail = 0;
    for character in Characters::of(text) {
        tail = tail_with(tail, character);
    }
    tail
}

/// The factor of a number before each code point is added. It is odd, so no code point is lost.
const MULTIPLIER: u64 = 0x9E37_79B9_7F4A_7C15;

/// Returns the number of a text after one more code point.
#[inline(always)]
fn hash_with(hash: u64, point: u32) -> u64
    ensures { result ≡ hash_step hash point }
{
    hash.wrapping_mul(MULTIPLIER).wrapping_add(point as u64)
}

/// Returns the number that begins so, after the next code points.
///
/// It is cold, since most texts are plain.
#[cold]
#[inline(never)]
fn hash_from(front: u64, points: CodePoints) -> u64
    ensures { result ≡ hash_on front (code_points_left points.entry) }
{
    let mut hash = front;
    for point in points {
        hash = hash_with(hash, point);
    }
    hash
}

/// Returns all code points of a string's text, mixed to one number, by its bytes up to the first
/// one that is not plain.
#[tactic(auto, using(crate::proofs::Texts::points_done, crate::proofs::Texts::chars_past, crate::proofs::Quoted::plain_code))]
pub(crate) fn hash(points: CodePoints) -> u64
    ensures { result ≡ hash_on 0 (code_points_left points.entry) }
{
    let bytes = points.bytes;
    let mut place = points.place;
    let mut hash = 0;
    while place < bytes.len() {
        let byte = bytes[place];
        if !stands_for_itself(byte) {
            return hash_from(hash, CodePoints { bytes, place });
        }
        hash = hash_with(hash, byte as u32);
        place += 1;
    }
    hash
}
