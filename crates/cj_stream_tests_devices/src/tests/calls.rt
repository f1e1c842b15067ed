//! What the tests share: comparisons, and calls of an engine.
use cj_budget::{Limits, Peaks};
use cj_stream::{End, Engine, LineSink, Options, Outcome, Query, ReportSink};
use cj_stream_testkit::{NoteReports, joined};
use std::alloc::Global;
use std::fmt::Debug;
use std::process::Abort;
use std::test::Fail;

/// Compares two values.
pub fn check_same<T: PartialEq + Debug + Copy>(rt: &impl Abort, got: T, wanted: T) {
    assert_eq!(rt; got, wanted);
}

/// Compares two values, at a place of a row.
pub fn check_at<T: PartialEq + Debug + Copy>(
    rt: &impl Abort,
    got: T,
    wanted: T,
    row: &str,
    at: u64,
) {
    assert_eq!(rt; got, wanted, "{row}, at {at}");
}

/// Compares bytes, at a place of a row.
pub fn check_bytes(rt: &impl Abort, got: &[u8], wanted: &[u8], row: &str, at: u64) {
    check_at(rt, got, wanted, row, at);
}

/// Compares bytes with the joined parts.
pub fn check_joined(
    rt: &impl Abort,
    alloc: Global,
    got: &[u8],
    wanted: &[&[u8]],
    row: &str,
    at: u64,
) -> Result<(), Fail> {
    check_bytes(rt, got, &joined(alloc, wanted)?, row, at);
    Ok(())
}

/// Compares what was noted.
pub fn check_notes(rt: &impl Abort, reports: &NoteReports, wanted: &str, row: &str, at: u64) {
    assert!(rt; !reports.lost);
    check_bytes(rt, reports.notes.as_bytes(), wanted.as_bytes(), row, at);
}

/// Returns an engine within these limits. The proof of a test that opens one itself would get all
/// that the contract says.
pub fn opened<'q>(
    alloc: Global,
    line: u64,
    depth: u64,
    query: &'q Query,
    options: Options,
) -> Result<Engine<'q>, Fail> {
    let limits = Limits::new(line, depth)?;
    Ok(Engine::open(alloc, limits, query, options)?)
}

/// Gives a piece to an engine, and compares the result. What the engine reports goes to a sink of
/// reports.
pub fn check_feed<S: LineSink, N: ReportSink>(
    rt: &impl Abort,
    engine: &mut Engine,
    piece: &[u8],
    sink: &mut S,
    reports: &mut N,
    wanted: Result<(), End>,
) {
    assert!(rt; engine.taken() <= 1_000_000_000);
    assert!(rt; piece.len() <= 1_000_000_000);
    check_same(rt, engine.feed(piece, sink, reports), wanted);
}

/// Ends the stream of an engine, and compares the result.
pub fn check_finish<S: LineSink, N: ReportSink>(
    rt: &impl Abort,
    engine: &mut Engine,
    sink: &mut S,
    reports: &mut N,
    wanted: End,
) {
    check_same(rt, engine.finish(sink, reports), wanted);
}

/// Compares what an engine counts.
pub fn check_counts(rt: &impl Abort, engine: &Engine, taken: u64, lines: u64, kept: u64) {
    check_at(rt, engine.taken(), taken, "taken", taken);
    check_at(rt, engine.lines(), lines, "lines", taken);
    check_at(rt, engine.kept(), kept, "kept", taken);
}

/// Compares what an engine holds, and what it held at most.
pub fn check_held(rt: &impl Abort, engine: &Engine, held: Peaks, peaks: Peaks) {
    check_same(rt, engine.held(), held);
    check_same(rt, engine.peaks(), peaks);
}
