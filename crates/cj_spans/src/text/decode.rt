//! The code points of strings (RFC 8259, section 7), one at a time, without a buffer.
//!
//! Most bytes are plain: ASCII, and no backslash. Such a byte is a code point by itself. All other
//! characters and escapes are read by functions that are marked cold.
ghost use Rattle.std.specs.Prelude.{◌≡◌, ◌+◌, ◌*◌, ◌<◌, ◌≤◌, ◌^◌, ℕ, suc, length, drop};
ghost use Rattle.std.specs.Prelude.{IfSome, IsTrue, MatchOption, is_some, Some, List, [], true, get_or};
ghost use Rattle.std.specs.Str.{chars, chars_after};
ghost use Rattle.std.specs.Char.{digit_value as digit_value_of};
ghost use Rattle.std.specs.Char.Utf16.{is_high_surrogate as is_high_of, is_low_surrogate as is_low_of};
ghost use Rattle.cj_spans.specs.inner.Decoding.{left, after_read, ReadsCodePoint, code_points_left, characters_left};
ghost use Rattle.cj_spans.specs.Meaning.Text.{char_of, four_digits, escaped as escaped_of, is_escaped, is_unicode};
ghost use Rattle.cj_spans.specs.Meaning.Text.{unit, first_code_point, first_width, text};

/// A code point, and the place after it.
#[derive(Clone, Copy)]
pub(crate) struct CodePoint {
    pub(crate) code: u32,
    pub(crate) stop: usize,
}

/// Reads one more byte of a character. None if there is none.
#[inline(always)]
fn add_byte(bytes: &[u8], read: CodePoint) -> Option<CodePoint>
    requires { read.code < 2 ^ 25 }
    ensures more { (n : ℕ) → chars_after (suc n) read.code (drop read.stop bytes.now)
        ≡ after_read bytes.now n result }
    ensures size { IfSome result (λ p. p.code ≤ read.code * 64 + 127) }
    ensures place { IfSome result (λ p. (read.stop < p.stop) × (p.stop ≤ length bytes.now)) }
{
    if read.stop >= bytes.len() {
        return None;
    }
    Some(CodePoint {
        code: read.code * 64 + bytes[read.stop].saturating_sub(128) as u32,
        stop: read.stop + 1,
    })
}

/// Reads two more bytes of a character.
fn add_two(bytes: &[u8], read: CodePoint) -> Option<CodePoint>
    requires { read.code < 2 ^ 18 }
    ensures more { (n : ℕ) → chars_after (suc (suc n)) read.code (drop read.stop bytes.now)
        ≡ after_read bytes.now n result }
    ensures size { IfSome result (λ p. p.code ≤ read.code * 4096 + 8255) }
    ensures place { IfSome result (λ p. (read.stop < p.stop) × (p.stop ≤ length bytes.now)) }
{
    match add_byte(bytes, read) {
        Some(second) => add_byte(bytes, second),
        None => None,
    }
}

/// Reads three more bytes of a character.
fn add_three(bytes: &[u8], read: CodePoint) -> Option<CodePoint>
    requires { read.code < 256 }
    ensures more { (n : ℕ) → chars_after (suc (suc (suc n))) read.code (drop read.stop bytes.now)
        ≡ after_read bytes.now n result }
    ensures place { IfSome result (λ p. (read.stop < p.stop) × (p.stop ≤ length bytes.now)) }
{
    match add_two(bytes, read) {
        Some(third) => add_byte(bytes, third),
        None => None,
    }
}

/// Reads the character of two to four bytes at a place. None if its bytes end too early.
fn read_long_char(bytes: &[u8], place: usize) -> Option<CodePoint>
    requires within { place < length bytes.now }
    requires long { 128 ≤ get_or bytes.now place 0 }
    ensures char { left bytes.now place ≡ after_read bytes.now 0 result }
    ensures place { IfSome result (λ p. (place < p.stop) × (p.stop ≤ length bytes.now)) }
{
    let lead = bytes[place];
    let stop = place + 1;
    if lead < 224 {
        let code = lead.saturating_sub(192) as u32;
        add_byte(bytes, CodePoint { code, stop })
    } else if lead < 240 {
        let code = (lead - 224) as u32;
        add_two(bytes, CodePoint { code, stop })
    } else {
        let code = (lead - 240) as u32;
        add_three(bytes, CodePoint { code, stop })
    }
}

/// Returns the character of two to four bytes at a place. It stops at this place if its bytes end
/// too early. As a result in registers, this costs other characters nothing: an `Option` would be
/// in memory, which is cleared for each of them.
#[cold]
#[inline(never)]
fn long_char(bytes: &[u8], place: usize) -> CodePoint
    requires within { place < length bytes.now }
    requires long { 128 ≤ get_or bytes.now place 0 }
    ensures read { place < result.stop → left bytes.now place ≡ after_read bytes.now 0 (Some result) }
    ensures ended { result.stop ≤ place → left bytes.now place ≡ [] }
    ensures place { result.stop ≤ length bytes.now }
{
    match read_long_char(bytes, place) {
        Some(point) => point,
        None => CodePoint {
            code: 0,
            stop: place,
        },
    }
}

/// Returns the UTF-8 character at a place (RFC 3629, section 3). None if there is none.
#[inline(always)]
#[tactic(auto, using(crate::proofs::Texts::chars_past, crate::proofs::Texts::lead_one))]
fn first_char(bytes: &[u8], place: usize) -> Option<CodePoint>
    ensures char { left bytes.now place ≡ after_read bytes.now 0 result }
    ensures place { IfSome result (λ p. (place < p.stop) × (p.stop ≤ length bytes.now)) }
{
    if place >= bytes.len() {
        return None;
    }
    let lead = bytes[place];
    if lead < 128 {
        return Some(CodePoint {
            code: lead as u32,
            stop: place + 1,
        });
    }
    let point = long_char(bytes, place);
    if point.stop > place {
        Some(point)
    } else {
        None
    }
}

/// Returns the character at a place, or 0 at the end if there is none.
#[inline(always)]
fn char_at(bytes: &[u8], place: usize) -> CodePoint
    ensures { (cs : List ℕ) → left bytes.now place ≡ cs → ReadsCodePoint bytes.now cs (char_of cs 0) 1 result }
{
    match first_char(bytes, place) {
        Some(first) => first,
        None => CodePoint {
            code: 0,
            stop: bytes.len(),
        },
    }
}

/// Returns the ASCII character at a place.
#[inline(always)]
fn ascii_at(bytes: &[u8], place: usize) -> CodePoint
    requires within { place < length bytes.now }
    requires ascii { get_or bytes.now place 0 < 128 }
    ensures reads { (cs : List ℕ) → left bytes.now place ≡ cs → ReadsCodePoint bytes.now cs (char_of cs 0) 1 result }
    ensures stop { result.stop ≡ place + 1 }
{
    CodePoint {
        code: bytes[place] as u32,
        stop: place + 1,
    }
}

/// Returns the value of a hexadecimal digit. Two tests of a range are one comparison.
#[inline(always)]
fn digit_value(digit: u32) -> u32
    ensures value { result ≡ digit_value_of digit }
    ensures size { result ≤ 36 }
{
    if digit >= 48 && digit <= 57 {
        return digit - 48;
    }
    if digit >= 65 && digit <= 90 {
        return digit - 55;
    }
    if digit >= 97 && digit <= 122 {
        return digit - 87;
    }
    36
}

/// Returns the number that four hexadecimal digits spell, all of them ASCII.
#[inline(always)]
fn read_ascii_digits(bytes: &[u8], place: usize) -> CodePoint
    requires { (k : ℕ) → k < 4 → (place + k < length bytes.now) × (get_or bytes.now (place + k) 0 < 128) }
    ensures reads { (cs : List ℕ) → left bytes.now place ≡ cs → ReadsCodePoint bytes.now cs (four_digits cs) 4 result }
    ensures size { result.code < 2 ^ 18 }
{
    let first = ascii_at(bytes, place);
    let second = ascii_at(bytes, first.stop);
    let third = ascii_at(bytes, second.stop);
    let fourth = ascii_at(bytes, third.stop);
    let high = digit_value(first.code) * 16 + digit_value(second.code);
    let low = digit_value(third.code) * 16 + digit_value(fourth.code);
    CodePoint {
        code: high * 256 + low,
        stop: fourth.stop,
    }
}

/// Returns the unit of an escape with `u`, if the six bytes at the place are ASCII, as those of
/// each such escape are. None if another character or escape is there.
#[inline(always)]
fn read_ascii_unit(bytes: &[u8], place: usize) -> Option<CodePoint>
    requires { (k : ℕ) → k < 6 → (place + k < length bytes.now) × (get_or bytes.now (place + k) 0 < 128) }
    ensures is { (cs : List ℕ) → left bytes.now place ≡ cs → is_some result ≡ is_unicode cs }
    ensures reads { IfSome result
        (λ p. (cs : List ℕ) → left bytes.now place ≡ cs → ReadsCodePoint bytes.now cs (unit cs) 6 p) }
    ensures size { IfSome result (λ p. p.code < 2 ^ 18) }
{
    let slash = ascii_at(bytes, place);
    let mark = ascii_at(bytes, slash.stop);
    if slash.code == b'\\' as u32 && mark.code == b'u' as u32 {
        Some(read_ascii_digits(bytes, mark.stop))
    } else {
        None
    }
}

/// Returns whether six bytes are here, and are ASCII.
#[inline(always)]
fn are_six_ascii(bytes: &[u8], place: usize) -> bool
    ensures { IsTrue result
        → (k : ℕ) → k < 6 → (place + k < length bytes.now) × (get_or bytes.now (place + k) 0 < 128) }
{
    bytes.len() >= 6
        && place <= bytes.len() - 6
        && bytes[place] < 128
        && bytes[place + 1] < 128
        && bytes[place + 2] < 128
        && bytes[place + 3] < 128
        && bytes[place + 4] < 128
        && bytes[place + 5] < 128
}

/// Returns the number that four hexadecimal digits spell.
#[inline(always)]
fn read_digits(bytes: &[u8], place: usize) -> CodePoint
    ensures reads { (cs : List ℕ) → left bytes.now place ≡ cs → ReadsCodePoint bytes.now cs (four_digits cs) 4 result }
    ensures size { result.code < 2 ^ 18 }
{
    let first = char_at(bytes, place);
    let second = char_at(bytes, first.stop);
    let third = char_at(bytes, second.stop);
    let fourth = char_at(bytes, third.stop);
    let high = digit_value(first.code) * 16 + digit_value(second.code);
    let low = digit_value(third.code) * 16 + digit_value(fourth.code);
    CodePoint {
        code: high * 256 + low,
        stop: fourth.stop,
    }
}

/// Returns the unit of an escape with `u`. None if another character or escape is at the place.
#[inline(always)]
fn read_unit(bytes: &[u8], place: usize) -> Option<CodePoint>
    ensures is { (cs : List ℕ) → left bytes.now place ≡ cs → is_some result ≡ is_unicode cs }
    ensures reads { IfSome result
        (λ p. (cs : List ℕ) → left bytes.now place ≡ cs → ReadsCodePoint bytes.now cs (unit cs) 6 p) }
    ensures size { IfSome result (λ p. p.code < 2 ^ 18) }
{
    let slash = char_at(bytes, place);
    let mark = char_at(bytes, slash.stop);
    if slash.code == b'\\' as u32 && mark.code == b'u' as u32 {
        Some(read_digits(bytes, mark.stop))
    } else {
        None
    }
}

/// Returns the code point of a letter after a backslash.
fn escaped(letter: u32) -> u32
    ensures { result ≡ escaped_of letter }
{
    match letter {
        98 => 8,
        102 => 12,
        110 => 10,
        114 => 13,
        116 => 9,
        _ => letter,
    }
}

/// The least first unit of a surrogate pair.
const HIGH_SURROGATES: u32 = 0xD800;

/// The least second unit of a surrogate pair.
const LOW_SURROGATES: u32 = 0xDC00;

/// The least unit above those of pairs.
const PAST_SURROGATES: u32 = 0xE000;

/// Returns whether a unit is the first one of a surrogate pair.
fn is_high(unit: u32) -> bool
    ensures { result ≡ is_high_of unit }
{
    unit >= HIGH_SURROGATES && unit < LOW_SURROGATES
}

/// Returns whether a unit is the second one of a surrogate pair.
fn is_low(unit: u32) -> bool
    ensures { result ≡ is_low_of unit }
{
    unit >= LOW_SURROGATES && unit < PAST_SURROGATES
}

/// Returns the code point of a unit, joined with the escaped unit after it if the two are a pair.
fn join(bytes: &[u8], high: CodePoint) -> CodePoint
    requires { high.code < 2 ^ 18 }
    ensures { (cs : List ℕ) → is_unicode cs ≡ true → ReadsCodePoint bytes.now cs (unit cs) 6 high
        → ReadsCodePoint bytes.now cs (first_code_point cs) (first_width cs) result }
{
    if !is_high(high.code) {
        return high;
    }
    match read_unit(bytes, high.stop) {
        Some(low) => {
            if is_low(low.code) {
                CodePoint {
                    code: 0x1_0000
                        + (high.code - HIGH_SURROGATES) * 0x400
                        + (low.code - LOW_SURROGATES),
                    stop: low.stop,
                }
            } else {
                high
            }
        }
        None => high,
    }
}

/// Returns the code point of an escape, also of a letter, and of a pair.
#[cold]
#[inline(never)]
fn read_any_escape(bytes: &[u8], place: usize) -> CodePoint
    ensures { (cs : List ℕ) → left bytes.now place ≡ cs → is_escaped cs ≡ true
        → ReadsCodePoint bytes.now cs (first_code_point cs) (first_width cs) result }
{
    match read_unit(bytes, place) {
        Some(unit) => join(bytes, unit),
        None => {
            let slash = char_at(bytes, place);
            let letter = char_at(bytes, slash.stop);
            CodePoint {
                code: escaped(letter.code),
                stop: letter.stop,
            }
        }
    }
}

/// Returns the code point of an escape. One with `u` that is in no pair is read at once.
#[cold]
#[inline(never)]
fn read_escape(bytes: &[u8], place: usize) -> CodePoint
    ensures { (cs : List ℕ) → left bytes.now place ≡ cs → is_escaped cs ≡ true
        → ReadsCodePoint bytes.now cs (first_code_point cs) (first_width cs) result }
{
    if are_six_ascii(bytes, place) {
        if let Some(unit) = read_ascii_unit(bytes, place) {
            if !is_high(unit.code) {
                return unit;
            }
        }
    }
    read_any_escape(bytes, place)
}

/// Returns the code point at a place. Its first character has been read.
#[inline(always)]
#[tactic(auto, using(crate::proofs::Texts::escaped_point))]
fn code_point_of(bytes: &[u8], place: usize, first: CodePoint) -> CodePoint
    requires { left bytes.now place ≡ after_read bytes.now 0 (Some first) }
    ensures { let cs = left bytes.now place in
        ReadsCodePoint bytes.now cs (first_code_point cs) (first_width cs) result }
{
    if first.code == b'\\' as u32 {
        read_escape(bytes, place)
    } else {
        first
    }
}

/// The code points of a string's body, from a place on.
#[derive(Clone, Copy)]
pub(crate) struct CodePoints<'a> {
    pub(crate) bytes: &'a [u8],
    pub(crate) place: usize,
}

impl<'a> CodePoints<'a> {
    /// Returns the code points of a string. `spelling` includes its quotes.
    #[tactic(auto, using(crate::proofs::Quoted::code_points_between))]
    pub(crate) fn of(spelling: &'a [u8]) -> CodePoints<'a>
        requires { 0 < length spelling.now }
        ensures { code_points_left result ≡ text spelling.now }
    {
        CodePoints {
            bytes: &spelling[..spelling.len() - 1],
            place: 1,
        }
    }

    /// Returns the next byte. None at the end.
    #[inline(always)]
    pub(crate) fn next_byte(self) -> Option<u8>
        ensures { MatchOption result (length self.entry.bytes.now ≤ self.entry.place)
            (λ b. (self.entry.place < length self.entry.bytes.now)
            × (b ≡ get_or self.entry.bytes.now self.entry.place 0)) }
    {
        if self.place < self.bytes.len() {
            Some(self.bytes[self.place])
        } else {
            None
        }
    }
}

impl<'a> Iterator for CodePoints<'a> {
    ghost use Rattle.std.specs.Iterator.{YieldsFirst, item_count};

    type Item = u32;

    ghost next_gives = { YieldsFirst code_points_left };

    ghost remaining = { item_count code_points_left };

    #[inline(always)]
    fn next(&mut self) -> Option<u32> {
        match first_char(self.bytes, self.place) {
            Some(first) => {
                let point = code_point_of(self.bytes, self.place, first);
                self.place = point.stop;
                Some(point.code)
            }
            None => None,
        }
    }
}

/// The characters of a `str`, from a place on.
#[derive(Clone, Copy)]
pub(crate) struct Characters<'a> {
    bytes: &'a [u8],
    place: usize,
}

impl<'a> Characters<'a> {
    /// Returns the characters of a `str`, from its start on.
    pub(crate) fn of(text: &'a str) -> Characters<'a>
        ensures { characters_left result ≡ chars text.now }
    {
        Characters {
            bytes: text.as_bytes(),
            place: 0,
        }
    }
}

impl<'a> Iterator for Characters<'a> {
    ghost use Rattle.std.specs.Iterator.{YieldsFirst, item_count};

    type Item = u32;

    ghost next_gives = { YieldsFirst characters_left };

    ghost remaining = { item_count characters_left };

    #[inline(always)]
    fn next(&mut self) -> Option<u32> {
        match first_char(self.bytes, self.place) {
            Some(first) => {
                self.place = first.stop;
                Some(first.code)
            }
            None => None,
        }
    }
}
