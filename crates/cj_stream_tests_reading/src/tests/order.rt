//! Which of several broken rules of one line is reported.
use super::calls::{check_at, ended_by_bytes};
use cj_budget::Limits;
use cj_spans::Reason;
use cj_stream_testkit::{FIRST, joined, refused};
use std::alloc::Global;
use std::process::Abort;
use std::test::Fail;

/// A line with several faults, its limits, and the byte and the reason of the fault that counts.
#[derive(Clone, Copy)]
struct Row<'a> {
    line: &'a [u8],
    limits: (u64, u64),
    place: u64,
    reason: Reason,
}

/// Runs over a header and the line of a row, by single bytes.
fn check_row(rt: &impl Abort, alloc: Global, row: &Row) -> Result<(), Fail> {
    let text = joined(alloc, &[FIRST, row.line, b"\n"])?;
    let limits = Limits::new(row.limits.0, row.limits.1)?;
    let ended = ended_by_bytes(alloc, &text, limits);
    let wanted = refused(2, row.place, row.reason);
    check_at(rt, ended, wanted, "first fault", row.place);
    Ok(())
}

fn check_rows(rt: &impl Abort, alloc: Global, rows: &[Row]) -> Result<(), Fail> {
    for row in rows {
        check_row(rt, alloc, row)?;
    }
    Ok(())
}

/// One byte more than the header has, none of them UTF-8.
const NO_TEXT: [u8; 141] = [0xff; 141];

/// The same number of spaces.
const SPACES: [u8; 141] = [b' '; 141];

#[test]
fn the_length_comes_first(rt: HostRuntime) -> Result<(), Fail> {
    let row = Row {
        line: &NO_TEXT,
        limits: (140, 64),
        place: 140,
        reason: Reason::LineTooLong,
    };
    let spaces = Row {
        line: &SPACES,
        ..row
    };
    let that_fits = Row {
        line: &NO_TEXT[..140],
        place: 0,
        reason: Reason::NotUtf8,
        ..row
    };
    check_rows(&rt, rt.alloc(), &[row, spaces, that_fits])
}

/// Bytes that are not UTF-8, in lines that are not what a feature has to be.
const BYTES: [Row; 2] = [
    Row {
        line: b"[]\xff",
        limits: (8_388_608, 64),
        place: 2,
        reason: Reason::NotUtf8,
    },
    Row {
        line: b" \xff",
        limits: (8_388_608, 64),
        place: 1,
        reason: Reason::NotUtf8,
    },
];

#[test]
fn bytes_come_before_the_text(rt: HostRuntime) -> Result<(), Fail> {
    check_rows(&rt, rt.alloc(), &BYTES)
}

/// The type, a number, is before both faults of the text.
const TEXTS: [Row; 3] = [
    Row {
        line: b"{\"type\":3,}",
        limits: (8_388_608, 3),
        place: 10,
        reason: Reason::Syntax,
    },
    Row {
        line: b"{\"type\":3,\"a\":[[[",
        limits: (8_388_608, 3),
        place: 16,
        reason: Reason::TooDeep,
    },
    Row {
        line: b"{\"type\":3,\"a\":[[]]}",
        limits: (8_388_608, 3),
        place: 0,
        reason: Reason::MissingMember,
    },
];

#[test]
fn the_text_comes_before_what_it_says(rt: HostRuntime) -> Result<(), Fail> {
    check_rows(&rt, rt.alloc(), &TEXTS)
}
