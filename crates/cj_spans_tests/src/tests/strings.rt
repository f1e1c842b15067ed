//! Each byte below 128 at a place of a string: after a backslash, where a hexadecimal digit must
//! be, and between the quotes. RFC 8259, section 7, gives the expected results, not the program.
use cj_budget::{Bounded, Stack};
use cj_spans::{ScanFault, Token, scan};
use std::alloc::{AllocError, Global};
use std::process::Abort;
use std::test::Fail;

/// The hexadecimal digits, of either case.
const HEX_DIGITS: &[u8] = b"0123456789ABCDEFabcdef";

/// What may follow a backslash.
const AFTER_BACKSLASH: &[u8] = b"\"\\/bfnrtu";

/// White space.
const WHITE_SPACE: &[u8] = b" \t\n\r";

/// Returns the result of a scan of `front`, the byte and `back`.
fn answer(
    rt: &impl Abort,
    alloc: Global,
    front: &[u8],
    byte: u8,
    back: &[u8],
) -> Result<Result<(), ScanFault>, AllocError> {
    let mut line = Vec::new(alloc);
    line.extend_from_slice(front)?;
    line.push(byte)?;
    line.extend_from_slice(back)?;
    assert!(rt; line.len() <= 100);
    let mut tokens: Bounded<Token> = Bounded::new(alloc, 64);
    let mut stack = Stack::new(alloc, 4);
    Ok(scan(&line, &mut tokens, &mut stack))
}

/// Checks the result of a scan with a byte in its line.
fn is_answer(rt: &impl Abort, got: Result<(), ScanFault>, want: Result<(), ScanFault>, byte: u8) {
    assert_eq!(rt; got, want, "{byte}");
}

/// Checks that each of these bytes is accepted between `front` and `back`, and that any other is
/// rejected at its place.
fn takes_only(
    rt: &impl Abort,
    alloc: Global,
    front: &[u8],
    taken: &[u8],
    back: &[u8],
) -> Result<(), AllocError> {
    for byte in 0..128u8 {
        let got = answer(rt, alloc, front, byte, back)?;
        let want = if taken.contains(&byte) {
            Ok(())
        } else {
            Err(ScanFault::Syntax(front.len() as u64))
        };
        is_answer(rt, got, want, byte);
    }
    Ok(())
}

/// Checks all bytes in a string between `front` and `back`, but not the quote and the backslash. A
/// control character is rejected at its place, and any other byte is accepted.
fn takes_plain_bytes(
    rt: &impl Abort,
    alloc: Global,
    front: &[u8],
    back: &[u8],
) -> Result<(), AllocError> {
    for byte in 0..128u8 {
        if byte == b'"' || byte == b'\\' {
            continue;
        }
        let got = answer(rt, alloc, front, byte, back)?;
        let want = if byte < 32 {
            Err(ScanFault::Syntax(front.len() as u64))
        } else {
            Ok(())
        };
        is_answer(rt, got, want, byte);
    }
    Ok(())
}

#[test]
fn letters_of_escapes(rt: HostRuntime) -> Result<(), Fail> {
    takes_only(&rt, rt.alloc(), b"\"\\", AFTER_BACKSLASH, b"0000\"")?;
    takes_only(&rt, rt.alloc(), b"{\"\\", AFTER_BACKSLASH, b"0000\":0}")?;
    Ok(())
}

#[test]
fn hexadecimal_digits(rt: HostRuntime) -> Result<(), Fail> {
    takes_only(&rt, rt.alloc(), b"\"\\u", HEX_DIGITS, b"000\"")?;
    takes_only(&rt, rt.alloc(), b"\"\\u0", HEX_DIGITS, b"00\"")?;
    takes_only(&rt, rt.alloc(), b"\"\\u00", HEX_DIGITS, b"0\"")?;
    takes_only(&rt, rt.alloc(), b"\"\\u000", HEX_DIGITS, b"\"")?;
    Ok(())
}

#[test]
fn white_space_after_a_text(rt: HostRuntime) -> Result<(), Fail> {
    takes_only(&rt, rt.alloc(), b"[]", WHITE_SPACE, b" ")?;
    Ok(())
}

#[test]
fn bytes_of_short_strings(rt: HostRuntime) -> Result<(), Fail> {
    takes_plain_bytes(&rt, rt.alloc(), b"\"", b"\"")?;
    takes_plain_bytes(&rt, rt.alloc(), b"{\"", b"\":0}")?;
    takes_plain_bytes(&rt, rt.alloc(), b"{\"a\":\"", b"\"}")?;
    Ok(())
}

#[test]
fn bytes_of_strings_past_16_bytes(rt: HostRuntime) -> Result<(), Fail> {
    let front = b"\"aaaaaaaaaaaaaaaaaaaaaaaaaaaaaaaaaaaaaaaaaaaaaaaa";
    let back = b"aaaaaaaaaaaaaaaaaaaaaaaaaaaaaaaaaaaaaaaaaaaaaa\"";
    for stop in [1usize, 2, 16, 17, 18, 32, 33, 41] {
        takes_plain_bytes(&rt, rt.alloc(), &front[..stop], back)?;
    }
    Ok(())
}

#[test]
fn bytes_of_names_past_16_bytes(rt: HostRuntime) -> Result<(), Fail> {
    let front = b"{\"aaaaaaaaaaaaaaaaaaaaaaaaaaaaaaaaaaaaaaaaaaaaaaaa";
    let back = b"aaaaaaaaaaaaaaaaaaaaaaaaaaaaaaaaaaaaaaaaaaa\":0}";
    for stop in [2usize, 3, 17, 18, 19, 33, 34, 42] {
        takes_plain_bytes(&rt, rt.alloc(), &front[..stop], back)?;
    }
    Ok(())
}
