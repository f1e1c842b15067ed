//! Whether a line is UTF-8 (RFC 3629).
//!
//! A usual line is ASCII but for a few letters of two bytes. The general check takes slower steps
//! from the first letter on. So these functions pass ASCII and the first such letters, and the
//! general check reads only what they leave.
ghost use Rattle.std.specs.Prelude.{◌≡◌, ◌+◌, ◌≤◌, ◌<◌, length, take, ℕ, IfErr, IsUtf8, OnOk};
ghost use Rattle.std.specs.Str.{IsValidUpTo};
ghost use Rattle.cj_spans.specs.Meaning.Json.{byte as byte_of};

use crate::lanes::{BLOCK, LANES, find_beyond_ascii, is_ascii_block};
use simdutf8::compat::from_utf8;

/// How many letters beyond ASCII are passed in any line. A text in another script has many more,
/// and the general check is faster there.
const LETTERS: usize = 4;

/// One more letter is passed for each so many bytes of a line.
const BYTES_PER_LETTER: usize = 1024;

/// Returns the place of the first byte beyond ASCII among the last few, or the end of the line. It
/// looks at the last 16 bytes at once, also at those before the place.
#[inline(always)]
fn pass_last_ascii(line: &[u8], from: usize) -> usize
    requires within { from ≤ length line.now }
    requires few { length line.now < from + 16 }
    ensures order { (from ≤ result) × (result ≤ length line.now) }
    ensures ascii { (k : ℕ) → from ≤ k → k < result → byte_of line.now k < 128 }
{
    if line.len() >= LANES && find_beyond_ascii(line, line.len() - LANES).is_none() {
        return line.len();
    }
    let mut place = from;
    while place < line.len() && line[place] < 128 {
        place += 1;
    }
    place
}

/// Does the same for more bytes, 16 at a time.
#[inline(always)]
fn pass_some_ascii(line: &[u8], from: usize) -> usize
    requires { from ≤ length line.now }
    ensures order { (from ≤ result) × (result ≤ length line.now) }
    ensures ascii { (k : ℕ) → from ≤ k → k < result → byte_of line.now k < 128 }
{
    let mut place = from;
    while line.len() - place >= LANES {
        match find_beyond_ascii(line, place) {
            Some(letter) => return letter,
            None => place += LANES,
        }
    }
    pass_last_ascii(line, place)
}

/// Does the same for any number of bytes, 64 at a time.
#[inline(always)]
fn pass_ascii(line: &[u8], from: usize) -> usize
    requires { from ≤ length line.now }
    ensures order { (from ≤ result) × (result ≤ length line.now) }
    ensures utf8 { IsUtf8 (take from line.now) → IsUtf8 (take result line.now) }
{
    let mut place = from;
    while line.len() - place >= BLOCK {
        if !is_ascii_block(line, place) {
            break;
        }
        place += BLOCK;
    }
    pass_some_ascii(line, place)
}

/// Returns the place after the letter of two bytes at a place. The place itself if no such letter
/// is there.
#[inline(always)]
#[tactic(auto, using(crate::proofs::Strings::past_letter))]
fn pass_letter(line: &[u8], place: usize) -> usize
    requires { place ≤ length line.now }
    ensures order { (place ≤ result) × (result ≤ length line.now) }
    ensures utf8 { IsUtf8 (take place line.now) → IsUtf8 (take result line.now) }
{
    if line.len() - place < 2 {
        return place;
    }
    let lead = line[place];
    let next = line[place + 1];
    if lead >= 0xC2 && lead <= 0xDF && next >= 0x80 && next <= 0xBF {
        place + 2
    } else {
        place
    }
}

/// Returns how many bytes at the front are ASCII and letters of two bytes. It gives up after a
/// number of letters.
///
/// It is never inlined, so that its code does not lie between the jumps of the scan.
#[inline(never)]
fn pass_plain(line: &[u8]) -> usize
    ensures within { result ≤ length line.now }
    ensures utf8 { IsUtf8 (take result line.now) }
{
    let mut place = 0;
    for _ in 0..LETTERS + line.len() / BYTES_PER_LETTER {
        let letter = pass_ascii(line, place);
        place = pass_letter(line, letter);
        if place == letter {
            break;
        }
    }
    place
}

/// Checks the line from a place on. Inlined, it would take registers from the scan.
#[cold]
#[inline(never)]
fn check_from(line: &[u8], from: usize) -> Result<(), usize>
    requires within { from ≤ length line.now }
    requires utf8 { IsUtf8 (take from line.now) }
    ensures ok { OnOk result (IsUtf8 line.now) }
    ensures err { IfErr result (λ place. IsValidUpTo line.now place) }
{
    match from_utf8(&line[from..]) {
        Ok(_) => Ok(()),
        Err(error) => Err(from + error.valid_up_to()),
    }
}

/// Checks that the line is UTF-8.
///
/// # Errors
///
/// The place of the first byte that is not UTF-8.
#[inline(always)]
pub fn check_utf8(line: &[u8]) -> Result<(), usize>
    ensures ok { OnOk result (IsUtf8 line.now) }
    ensures err { IfErr result (λ place. IsValidUpTo line.now place) }
{
    let plain = pass_plain(line);
    if plain == line.len() {
        return Ok(());
    }
    check_from(line, plain)
}
