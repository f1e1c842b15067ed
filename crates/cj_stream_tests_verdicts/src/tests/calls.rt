//! What the tests share: comparisons.
use cj_budget::{Limits, Peaks};
use cj_stream::{End, Outcome};
use cj_stream_testkit::{NoteReports, joined};
use memchr::memchr;
use std::alloc::Global;
use std::fmt::Debug;
use std::process::Abort;
use std::test::Fail;

/// Compares two values, with a name.
pub fn check_named<T: PartialEq + Debug + Copy>(rt: &impl Abort, got: T, wanted: T, name: &str) {
    assert_eq!(rt; got, wanted, "{name}");
}

/// Compares two values, at a place of a row.
pub fn check_at<T: PartialEq + Debug + Copy>(
    rt: &impl Abort,
    got: T,
    wanted: T,
    row: &str,
    at: u64,
) {
    assert_eq!(rt; got, wanted, "{row}, at {at}");
}

/// Compares bytes, at a place of a row.
pub fn check_bytes(rt: &impl Abort, got: &[u8], wanted: &[u8], row: &str, at: u64) {
    check_at(rt, got, wanted, row, at);
}

/// Compares texts.
pub fn check_text(rt: &impl Abort, got: &str, wanted: &str, row: &str, at: u64) {
    check_at(rt, got, wanted, row, at);
}

/// Compares bytes with the joined parts.
pub fn check_joined(
    rt: &impl Abort,
    alloc: Global,
    got: &[u8],
    wanted: &[&[u8]],
    row: &str,
    at: u64,
) -> Result<(), Fail> {
    check_bytes(rt, got, &joined(alloc, wanted)?, row, at);
    Ok(())
}

/// Compares what was noted.
pub fn check_notes(rt: &impl Abort, reports: &NoteReports, wanted: &[u8], row: &str, at: u64) {
    assert!(rt; !reports.lost);
    check_bytes(rt, reports.notes.as_bytes(), wanted, row, at);
}

/// Checks that the peaks of a text are within the bound that its first line and the limits give.
pub fn check_bound(rt: &impl Abort, text: &[u8], limits: Limits, peaks: Peaks) {
    let (line, depth) = (limits.line(), limits.depth());
    let first = memchr(b'\n', text).unwrap_or(text.len());
    let header = (first as u64).min(line);
    assert!(rt; peaks.bytes <= header + line);
    assert!(rt; peaks.tokens <= (header + line + depth) / 2 + 1);
    assert!(rt; peaks.depth <= depth);
}
