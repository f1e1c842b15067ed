//! What the tests share: comparisons. The asserts have functions of their own, since each one makes
//! the proof of its function slower.
use cityseq_testkit::Written;
use std::fmt::Debug;
use std::process::Abort;

/// Compares two values.
pub fn check_same<T: PartialEq + Debug + Copy>(rt: &impl Abort, got: T, wanted: T) {
    assert_eq!(rt; got, wanted);
}

/// Compares two values, at a place of a row.
pub fn check_at<T: PartialEq + Debug + Copy>(
    rt: &impl Abort,
    got: T,
    wanted: T,
    row: &str,
    at: u64,
) {
    assert_eq!(rt; got, wanted, "{row}, at {at}");
}

/// Compares bytes, at a place of a row.
pub fn check_bytes(rt: &impl Abort, got: &[u8], wanted: &[u8], row: &str, at: u64) {
    check_at(rt, got, wanted, row, at);
}

/// Compares the program's output and status.
pub fn check_written(rt: &impl Abort, written: &Written, status: u8, out: &[u8], err: &[u8]) {
    check_at(rt, written.status, status, "status", 0);
    check_bytes(rt, &written.out, out, "standard output", 0);
    check_bytes(rt, &written.err, err, "standard error", 0);
}
