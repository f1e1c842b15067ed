//! Letters beyond ASCII in a string, at each side of the borders of 16 and of 64 bytes, and bytes
//! that are no letters. RFC 3629, section 4, says which bytes are letters. A fault is at the first
//! byte of what is none.
use super::checks::check_same;
use cj_budget::{Bounded, Stack};
use cj_spans::{ScanFault, Token, scan};
use std::alloc::{AllocError, Global};
use std::process::Abort;
use std::test::Fail;

/// The front of a string.
const FRONT: &[u8] =
    b"\"aaaaaaaaaaaaaaaaaaaaaaaaaaaaaaaaaaaaaaaaaaaaaaaaaaaaaaaaaaaaaaaaaaaaaaaaaaaaaaaaaaaaaaaaaaaaaaaaaaaa";

/// The back of a string.
const BACK: &[u8] = b"aaaaaaaaaaaaaaaaaaaaaaaaaaaaaaaaaaaaaaaaaaaaaaaaaaaaaaaaaaaaaaaaaaaaaa\"";

/// The least and the greatest letters of two, three and four bytes, those on both sides of the
/// surrogates, and a usual one of each length.
const LETTERS: [&[u8]; 11] = [
    b"\xC2\x80",
    b"\xC3\x9F",
    b"\xDF\xBF",
    b"\xE0\xA0\x80",
    b"\xE2\x82\xAC",
    b"\xED\x9F\xBF",
    b"\xEE\x80\x80",
    b"\xEF\xBF\xBF",
    b"\xF0\x90\x80\x80",
    b"\xF0\x9F\x98\x80",
    b"\xF4\x8F\xBF\xBF",
];

/// Letters without a lead or without their last byte, overlong forms, the first and the last
/// surrogate, the first code point that is too great, and bytes that are in no letter.
const BROKEN: [&[u8]; 18] = [
    b"\x80",
    b"\xBF",
    b"\xC3",
    b"\xC3\xC3",
    b"\xC3\x7F",
    b"\xDFa",
    b"\xE2\x82",
    b"\xF0\x9F\x98",
    b"\xC0\x80",
    b"\xC1\xBF",
    b"\xE0\x9F\xBF",
    b"\xF0\x8F\xBF\xBF",
    b"\xED\xA0\x80",
    b"\xED\xBF\xBF",
    b"\xF4\x90\x80\x80",
    b"\xF5\x80\x80\x80",
    b"\xFE",
    b"\xFF",
];

/// Returns the result of a scan of `front`, `bytes` and `back`.
fn answer(
    rt: &impl Abort,
    alloc: Global,
    front: &[u8],
    bytes: &[u8],
    back: &[u8],
) -> Result<Result<(), ScanFault>, AllocError> {
    let mut line = Vec::new(alloc);
    line.extend_from_slice(front)?;
    line.extend_from_slice(bytes)?;
    line.extend_from_slice(back)?;
    assert!(rt; line.len() <= 250);
    let mut tokens: Bounded<Token> = Bounded::new(alloc, 128);
    let mut stack = Stack::new(alloc, 4);
    Ok(scan(&line, &mut tokens, &mut stack))
}

/// Checks a result of a scan.
fn is_answer(rt: &impl Abort, got: Result<(), ScanFault>, want: Result<(), ScanFault>) {
    check_same(rt, got, want);
}

/// Checks that bytes are accepted as letters behind `front`, or rejected at their place.
fn takes(
    rt: &impl Abort,
    alloc: Global,
    front: &[u8],
    bytes: &[u8],
    are_letters: bool,
) -> Result<(), AllocError> {
    let want = if are_letters {
        Ok(())
    } else {
        Err(ScanFault::NotUtf8(front.len() as u64))
    };
    for start in [0usize, 6, 7, 8, 9, 54, 55, 56, 57, 69, 70] {
        let got = answer(rt, alloc, front, bytes, &BACK[start..])?;
        is_answer(rt, got, want);
    }
    Ok(())
}

/// Checks the same behind fronts of many lengths.
fn takes_at_each_place(
    rt: &impl Abort,
    alloc: Global,
    bytes: &[u8],
    are_letters: bool,
) -> Result<(), AllocError> {
    for stop in [1usize, 13, 14, 15, 16, 17, 61, 62, 63, 64, 65, 80, 101] {
        takes(rt, alloc, &FRONT[..stop], bytes, are_letters)?;
    }
    Ok(())
}

/// Checks that a line may end behind a letter, though it is then no text, and that bytes that are
/// no letter are rejected there.
fn takes_last(
    rt: &impl Abort,
    alloc: Global,
    bytes: &[u8],
    is_letter: bool,
) -> Result<(), AllocError> {
    for stop in [1usize, 13, 14, 15, 16, 17, 61, 62, 63, 64, 65, 80, 101] {
        let front = &FRONT[..stop];
        let got = answer(rt, alloc, front, bytes, b"")?;
        let want = if is_letter {
            Err(ScanFault::Syntax(front.len() as u64 + bytes.len() as u64))
        } else {
            Err(ScanFault::NotUtf8(front.len() as u64))
        };
        is_answer(rt, got, want);
    }
    Ok(())
}

/// Checks strings of more and more of the letter, also before an overlong form.
fn takes_in_a_row(rt: &impl Abort, alloc: Global, letter: &[u8]) -> Result<(), AllocError> {
    let mut front = Vec::new(alloc);
    front.push(b'"')?;
    for _ in 0..9u8 {
        front.extend_from_slice(letter)?;
        takes(rt, alloc, &front, b"", true)?;
        takes(rt, alloc, &front, b"\xC1\xBF", false)?;
    }
    Ok(())
}

#[test]
fn letters_at_each_place(rt: HostRuntime) -> Result<(), Fail> {
    for letter in &LETTERS {
        takes_at_each_place(&rt, rt.alloc(), *letter, true)?;
        takes_last(&rt, rt.alloc(), *letter, true)?;
    }
    Ok(())
}

#[test]
fn broken_letters_at_each_place(rt: HostRuntime) -> Result<(), Fail> {
    for bytes in &BROKEN {
        takes_at_each_place(&rt, rt.alloc(), *bytes, false)?;
        takes_last(&rt, rt.alloc(), *bytes, false)?;
    }
    Ok(())
}

#[test]
fn letters_in_a_row(rt: HostRuntime) -> Result<(), Fail> {
    for letter in &LETTERS {
        takes_in_a_row(&rt, rt.alloc(), *letter)?;
    }
    Ok(())
}
