//! How much of the spelling of a scalar or a name has been read.
ghost use Rattle.std.specs.Prelude.{◌≡◌, ◌≤◌, ◌<◌, ℕ, length, IfSome, IsTrue, Some, true, false};
ghost use Rattle.cj_spans.specs.declared.lex.Lex.{Lex as LexOf};
ghost use Rattle.cj_spans.specs.declared.lex.Lex.TheVariants.{InString};
ghost use Rattle.cj_spans.specs.Meaning.Json.{byte as byte_of};
ghost use Rattle.cj_spans.specs.inner.Machine.{is_digit as is_digit_of, lex_start as lex_start_of};
ghost use Rattle.cj_spans.specs.inner.Machine.{lex_step as lex_step_of, lex_kind as lex_kind_of, one as one_of};
ghost use Rattle.cj_spans.specs.inner.Machine.{hex as hex_of, mark as mark_of, point_or_mark as point_or_mark_of};
ghost use Rattle.cj_spans.specs.inner.Machine.{zero_or_whole as zero_or_whole_of, sign_mark as sign_mark_of};
ghost use Rattle.cj_spans.specs.inner.Machine.{string_step as string_step_of, escape_step as escape_step_of};
ghost use Rattle.cj_spans.specs.inner.Machine.{digit_or as digit_or_of, Continues, IsQuoted};

use crate::bytes::{is_digit, is_escape, is_hex, is_plain};
use crate::lanes::{LANES, find_other, find_special};
use crate::token::Kind;

/// What has been read of a scalar: letters of a literal, a part of a number, or a part of a string.
#[derive(Clone, Copy)]
pub enum Lex {
    AfterN,
    AfterNu,
    AfterNul,
    NullDone,
    AfterT,
    AfterTr,
    AfterTru,
    AfterF,
    AfterFa,
    AfterFal,
    AfterFals,
    TruthDone,
    Minus,
    Zero,
    Whole,
    Point,
    Fraction,
    Mark,
    MarkSign,
    Exponent,
    InString,
    Escape,
    Hex4,
    Hex3,
    Hex2,
    Hex1,
    StringDone,
}

/// Returns what the first byte begins of a scalar that is no number.
#[inline(never)]
fn lex_start_other(byte: u8) -> Option<Lex>
    requires digit { is_digit_of byte ≡ false }
    requires minus { byte ≡ 45 → ⊥ }
    ensures { result ≡ lex_start_of byte }
{
    match byte {
        b'n' => Some(Lex::AfterN),
        b't' => Some(Lex::AfterT),
        b'f' => Some(Lex::AfterF),
        b'"' => Some(Lex::InString),
        _ => None,
    }
}

/// Returns what the first byte of a scalar begins.
///
/// Numbers come first, by comparisons, since most scalars are numbers. For one `match` on all bytes
/// the compiler would make a jump table.
#[inline(always)]
pub fn lex_start(byte: u8) -> Option<Lex>
    ensures { result ≡ lex_start_of byte }
{
    if is_digit(byte) {
        Some(if byte == b'0' { Lex::Zero } else { Lex::Whole })
    } else if byte == b'-' {
        Some(Lex::Minus)
    } else {
        lex_start_other(byte)
    }
}

/// Returns the kind of the scalar if it may end here.
#[inline(always)]
pub fn lex_kind(read: Lex) -> Option<Kind>
    ensures { result ≡ lex_kind_of read }
{
    match read {
        Lex::NullDone => Some(Kind::Null),
        Lex::TruthDone => Some(Kind::Truth),
        Lex::Zero => Some(Kind::Number),
        Lex::Whole => Some(Kind::Number),
        Lex::Fraction => Some(Kind::Number),
        Lex::Exponent => Some(Kind::Number),
        Lex::StringDone => Some(Kind::Text),
        _ => None,
    }
}

/// Takes a letter of a literal.
fn one(byte: u8, wanted: u8, next: Lex) -> Option<Lex>
    ensures { result ≡ one_of byte wanted next }
{
    if byte == wanted { Some(next) } else { None }
}

/// Takes a digit of an escape with `u`.
fn hex(byte: u8, next: Lex) -> Option<Lex>
    ensures { result ≡ hex_of byte next }
{
    if is_hex(byte) { Some(next) } else { None }
}

/// Takes a digit of a number. `other` is the result for any other byte.
#[inline(always)]
fn digit_or(byte: u8, next: Lex, other: Option<Lex>) -> Option<Lex>
    ensures { result ≡ digit_or_of byte next other }
{
    if is_digit(byte) { Some(next) } else { other }
}

/// Takes the letter that begins an exponent.
fn mark(byte: u8) -> Option<Lex>
    ensures { result ≡ mark_of byte }
{
    if byte == b'e' || byte == b'E' {
        Some(Lex::Mark)
    } else {
        None
    }
}

/// Takes what may follow the digits before the point.
fn point_or_mark(byte: u8) -> Option<Lex>
    ensures { result ≡ point_or_mark_of byte }
{
    if byte == b'.' {
        Some(Lex::Point)
    } else {
        mark(byte)
    }
}

/// Takes the first digit of a number: no other may follow a 0.
fn zero_or_whole(byte: u8) -> Option<Lex>
    ensures { result ≡ zero_or_whole_of byte }
{
    match byte {
        b'0' => Some(Lex::Zero),
        b'1'..=b'9' => Some(Lex::Whole),
        _ => None,
    }
}

/// Takes the sign of an exponent.
fn sign_mark(byte: u8) -> Option<Lex>
    ensures { result ≡ sign_mark_of byte }
{
    if byte == b'+' || byte == b'-' {
        Some(Lex::MarkSign)
    } else {
        None
    }
}

/// Takes a byte of a string.
#[inline(always)]
fn string_step(byte: u8) -> Option<Lex>
    ensures { result ≡ string_step_of byte }
{
    if byte == b'"' {
        Some(Lex::StringDone)
    } else if byte == b'\\' {
        Some(Lex::Escape)
    } else if byte >= b' ' {
        Some(Lex::InString)
    } else {
        None
    }
}

/// Takes what follows a backslash.
fn escape_step(byte: u8) -> Option<Lex>
    ensures { result ≡ escape_step_of byte }
{
    if is_escape(byte) {
        Some(Lex::InString)
    } else if byte == b'u' {
        Some(Lex::Hex4)
    } else {
        None
    }
}

/// Reads one byte more of a scalar. None if the byte does not continue it.
#[inline(always)]
pub fn lex_step(read: Lex, byte: u8) -> Option<Lex>
    ensures { result ≡ lex_step_of read byte }
{
    match read {
        Lex::InString => string_step(byte),
        Lex::Whole => digit_or(byte, Lex::Whole, point_or_mark(byte)),
        Lex::Fraction => digit_or(byte, Lex::Fraction, mark(byte)),
        Lex::StringDone => None,
        Lex::AfterN => one(byte, b'u', Lex::AfterNu),
        Lex::AfterNu => one(byte, b'l', Lex::AfterNul),
        Lex::AfterNul => one(byte, b'l', Lex::NullDone),
        Lex::AfterT => one(byte, b'r', Lex::AfterTr),
        Lex::AfterTr => one(byte, b'u', Lex::AfterTru),
        Lex::AfterTru => one(byte, b'e', Lex::TruthDone),
        Lex::AfterF => one(byte, b'a', Lex::AfterFa),
        Lex::AfterFa => one(byte, b'l', Lex::AfterFal),
        Lex::AfterFal => one(byte, b's', Lex::AfterFals),
        Lex::AfterFals => one(byte, b'e', Lex::TruthDone),
        Lex::NullDone => None,
        Lex::TruthDone => None,
        Lex::Minus => zero_or_whole(byte),
        Lex::Zero => point_or_mark(byte),
        Lex::Point => digit_or(byte, Lex::Fraction, None),
        Lex::Mark => digit_or(byte, Lex::Exponent, sign_mark(byte)),
        Lex::MarkSign => digit_or(byte, Lex::Exponent, None),
        Lex::Exponent => digit_or(byte, Lex::Exponent, None),
        Lex::Escape => escape_step(byte),
        Lex::Hex4 => hex(byte, Lex::Hex3),
        Lex::Hex3 => hex(byte, Lex::Hex2),
        Lex::Hex2 => hex(byte, Lex::Hex1),
        Lex::Hex1 => hex(byte, Lex::InString),
    }
}

/// Skips plain bytes of a string, one by one.
#[tactic(auto, using(crate::proofs::Atoms::read_plain))]
#[inline(always)]
fn skip_plain_singly(line: &[u8], place: usize) -> usize
    requires { place ≤ length line.now }
    ensures same { (i : ℕ) (x : LexOf) → Continues line.now i x place InString
        → Continues line.now i x result InString }
    ensures order { place ≤ result }
    ensures end { result ≤ length line.now }
{
    let mut stop = place;
    while stop < line.len() && is_plain(line[stop]) {
        stop += 1;
    }
    stop
}

/// Skips plain bytes of a string, 16 at once as long as the line has 16 more.
#[inline(always)]
pub fn skip_plain(line: &[u8], place: usize) -> usize
    requires { place ≤ length line.now }
    ensures same { (i : ℕ) (x : LexOf) → Continues line.now i x place InString
        → Continues line.now i x result InString }
    ensures order { place ≤ result }
    ensures end { result ≤ length line.now }
{
    let mut stop = place;
    while line.len() - stop >= LANES {
        match find_special(line, stop) {
            Some(place) => return place,
            None => stop += LANES,
        }
    }
    skip_plain_singly(line, stop)
}

/// Skips digits one by one. They do not change these readings of a number.
#[tactic(auto, using(crate::proofs::Atoms::read_same))]
#[inline(always)]
fn skip_digits_singly(line: &[u8], read: Lex, place: usize) -> usize
    requires stays { (b : ℕ) → is_digit_of b ≡ true → lex_step_of read b ≡ Some read }
    requires within { place ≤ length line.now }
    ensures same { (i : ℕ) (x : LexOf) → Continues line.now i x place read → Continues line.now i x result read }
    ensures order { place ≤ result }
    ensures end { result ≤ length line.now }
{
    let mut stop = place;
    while stop < line.len() && is_digit(line[stop]) {
        stop += 1;
    }
    stop
}

/// Skips digits, which do not change these readings of a number. It reads up to 16 at once, so
/// numbers of varying length take no longer.
#[inline(always)]
pub fn skip_digits(line: &[u8], read: Lex, place: usize) -> usize
    requires stays { (b : ℕ) → is_digit_of b ≡ true → lex_step_of read b ≡ Some read }
    requires within { place ≤ length line.now }
    ensures same { (i : ℕ) (x : LexOf) → Continues line.now i x place read → Continues line.now i x result read }
    ensures order { place ≤ result }
    ensures end { result ≤ length line.now }
{
    if line.len() - place < LANES {
        return skip_digits_singly(line, read, place);
    }
    match find_other(line, place) {
        Some(stop) => stop,
        None => skip_digits_singly(line, read, place + LANES),
    }
}

/// Skips the bytes that do not change the reading, if there may be many.
#[inline(always)]
pub fn skip(line: &[u8], read: Lex, place: usize) -> usize
    requires { place ≤ length line.now }
    ensures same { (i : ℕ) (x : LexOf) → Continues line.now i x place read → Continues line.now i x result read }
    ensures order { place ≤ result }
    ensures end { result ≤ length line.now }
{
    match read {
        Lex::InString => skip_plain(line, place),
        Lex::Whole => skip_digits(line, Lex::Whole, place),
        Lex::Fraction => skip_digits(line, Lex::Fraction, place),
        Lex::Exponent => skip_digits(line, Lex::Exponent, place),
        _ => place,
    }
}

/// Returns whether the quote that ends a string is here.
#[inline(always)]
pub fn ends_string(line: &[u8], place: usize) -> bool
    ensures { IsTrue result → (place < length line.now) × (byte_of line.now place ≡ 34) }
{
    place < line.len() && line[place] == b'"'
}

/// Returns where the string that begins at `place` ends, if all its bytes are plain. None if no
/// such string begins there.
#[inline(always)]
pub fn plain_string_stop(line: &[u8], place: usize) -> Option<usize>
    requires { place < length line.now }
    ensures { IfSome result (λ k. IsQuoted line.now place k) }
{
    if line[place] != b'"' {
        return None;
    }
    let stop = skip_plain(line, place + 1);
    if ends_string(line, stop) {
        Some(stop + 1)
    } else {
        None
    }
}
