//! What the tests share: comparisons, and a run.
use cj_budget::Limits;
use cj_stream::{End, Outcome};
use cj_stream_testkit::{NoteReports, SlowReader, copied, joined};
use std::alloc::Global;
use std::fmt::Debug;
use std::process::Abort;
use std::test::Fail;

/// Compares two values.
pub fn check_same<T: PartialEq + Debug + Copy>(rt: &impl Abort, got: T, wanted: T) {
    assert_eq!(rt; got, wanted);
}

/// Compares two values, at a place of a row.
pub fn check_at<T: PartialEq + Debug + Copy>(
    rt: &impl Abort,
    got: T,
    wanted: T,
    row: &str,
    at: u64,
) {
    assert_eq!(rt; got, wanted, "{row}, at {at}");
}

/// Compares bytes, at a place of a row.
pub fn check_bytes(rt: &impl Abort, got: &[u8], wanted: &[u8], row: &str, at: u64) {
    check_at(rt, got, wanted, row, at);
}

/// Compares bytes with the joined parts.
pub fn check_joined(
    rt: &impl Abort,
    alloc: Global,
    got: &[u8],
    wanted: &[&[u8]],
    row: &str,
    at: u64,
) -> Result<(), Fail> {
    check_bytes(rt, got, &joined(alloc, wanted)?, row, at);
    Ok(())
}

/// Compares what was noted.
pub fn check_notes(rt: &impl Abort, reports: &NoteReports, wanted: &str, row: &str, at: u64) {
    assert!(rt; !reports.lost);
    check_bytes(rt, reports.notes.as_bytes(), wanted.as_bytes(), row, at);
}

/// Runs over a reader that gives one byte per read, and returns how it ends.
pub fn ended_by_bytes(alloc: Global, text: &[u8], limits: Limits) -> End {
    let (outcome, _) = copied(alloc, &mut SlowReader::new(text, 1), limits);
    outcome.ended
}
