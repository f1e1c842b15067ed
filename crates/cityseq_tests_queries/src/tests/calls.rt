//! What the tests share: comparisons. The asserts have functions of their own, since each one makes
//! the proof of its function slower.
use cityseq_testkit::{Written, commanded};
use cj_stream_testkit::{HEADER, SlowReader, joined};
use std::alloc::Global;
use std::process::Abort;
use std::test::Fail;

/// Compares bytes.
fn check_bytes(rt: &impl Abort, got: &[u8], wanted: &[u8], row: &str) {
    assert_eq!(rt; got, wanted, "{row}");
}

/// Compares the program's output and status.
fn check_written(rt: &impl Abort, written: &Written, status: u8, out: &[u8], err: &[u8]) {
    assert_eq!(rt; written.status, status, "status");
    check_bytes(rt, &written.out, out, "standard output");
    check_bytes(rt, &written.err, err, "standard error");
}

/// Runs these words over a header and a feature, and compares the output and the status.
pub fn check_choice(
    rt: &impl Abort,
    alloc: Global,
    arguments: &[&str],
    feature: &[u8],
    status: u8,
    out: &[u8],
    err: &[u8],
) -> Result<(), Fail> {
    let input = joined(alloc, &[HEADER, b"\n", feature, b"\n"])?;
    let written = commanded(alloc, arguments, &mut SlowReader::new(&input, 100))?;
    check_written(rt, &written, status, out, err);
    Ok(())
}

/// Does the same, and looks whether the feature is kept: the header and the feature are written, or
/// the header alone.
pub fn check_kept(
    rt: &impl Abort,
    alloc: Global,
    arguments: &[&str],
    feature: &[u8],
    is_kept: bool,
) -> Result<(), Fail> {
    let header = joined(alloc, &[HEADER, b"\n"])?;
    let both = joined(alloc, &[HEADER, b"\n", feature, b"\n"])?;
    let out = if is_kept { &both } else { &header };
    check_choice(rt, alloc, arguments, feature, 0, out, b"")
}
