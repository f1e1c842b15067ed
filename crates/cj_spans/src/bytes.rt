//! The classes of bytes in the grammar of JSON.
ghost use Rattle.std.specs.Prelude.{◌≡◌, ◌<◌, length, IsTrue};
ghost use Rattle.cj_spans.specs.Meaning.Json.{byte as byte_of};
ghost use Rattle.cj_spans.specs.Meaning.Spelling.{is_white_space as is_white_space_of, is_hex as is_hex_of};
ghost use Rattle.cj_spans.specs.Meaning.Spelling.{is_plain as is_plain_of, is_escape as is_escape_of};
ghost use Rattle.cj_spans.specs.inner.Machine.{is_digit as is_digit_of};

/// Returns whether the byte is one of the four that may surround values, names and signs.
pub fn is_white_space(byte: u8) -> bool
    ensures { result ≡ is_white_space_of byte }
{
    byte == b' ' || byte == b'\t' || byte == b'\n' || byte == b'\r'
}

/// Returns whether the byte is `0` to `9`.
pub fn is_digit(byte: u8) -> bool
    ensures { result ≡ is_digit_of byte }
{
    byte >= b'0' && byte <= b'9'
}

/// Returns whether the byte is a hexadecimal digit, in either case.
pub fn is_hex(byte: u8) -> bool
    ensures { result ≡ is_hex_of byte }
{
    is_digit(byte) || (byte >= b'A' && byte <= b'F') || (byte >= b'a' && byte <= b'f')
}

/// Returns whether the byte, not `u`, may follow a backslash.
pub fn is_escape(byte: u8) -> bool
    ensures { result ≡ is_escape_of byte }
{
    byte == b'"'
        || byte == b'\\'
        || byte == b'/'
        || byte == b'b'
        || byte == b'f'
        || byte == b'n'
        || byte == b'r'
        || byte == b't'
}

/// Returns whether the byte is plain in a string: no control character, no quote and no backslash.
/// It may be a part of a longer character.
pub fn is_plain(byte: u8) -> bool
    ensures { result ≡ is_plain_of byte }
{
    byte >= b' ' && byte != b'"' && byte != b'\\'
}

/// Returns whether this byte is at the place.
#[inline(always)]
pub fn stands_at(line: &[u8], place: usize, byte: u8) -> bool
    ensures { IsTrue result → (place < length line.now) × (byte_of line.now place ≡ byte) }
{
    place < line.len() && line[place] == byte
}
