//! Engines that are called step by step. A row is a list of calls, each with its expected result
//! and the engine's expected counts. One function opens all of these engines, since the proof of a
//! function that owns one is slow.
use super::calls::{
    check_at, check_counts, check_feed, check_finish, check_held, check_notes, opened,
};
use cj_budget::Peaks;
use cj_stream::{End, Engine, LineSink, Options, Query, WriteSink};
use cj_stream_testkit::{NoteReports, held};
use std::alloc::Global;
use std::process::Abort;
use std::test::Fail;

/// A call of an engine, or what it is expected to report before the next call.
#[derive(Clone, Copy)]
pub enum Step<'a> {
    /// A piece is given, with this result.
    Feed(&'a [u8], Result<(), End>),
    /// The stream ends, with this result.
    Finish(End),
    /// After an end, a piece is given, and the stream ends again. Both return that end, and what is
    /// held stays.
    Again(&'a [u8], End),
    /// What is held, and what was held at most.
    Held(Peaks, Peaks),
    /// The bytes that are held, and that were held at most, before a line after the usual header
    /// is handled. The tokens are the header's.
    HeldWithHeader(u64, u64),
    /// The bytes that were held at most.
    PeakOfBytes(u64),
    /// The bytes that were taken, the lines that were handled, and the features that were kept.
    Counts(u64, u64, u64),
    /// The number of invalid lines, and all that was reported.
    Reported(u64, &'a str),
}

/// Gives a piece, and the end, to an engine that has ended.
fn check_again<S: LineSink>(
    rt: &impl Abort,
    engine: &mut Engine,
    piece: &[u8],
    sink: &mut S,
    reports: &mut NoteReports,
    end: End,
) {
    let held = engine.held();
    let peaks = engine.peaks();
    check_feed(rt, engine, piece, sink, reports, Err(end));
    check_finish(rt, engine, sink, reports, end);
    check_held(rt, engine, held, peaks);
}

/// Compares the number of invalid lines and the reports.
fn check_reported(
    rt: &impl Abort,
    engine: &Engine,
    reports: &NoteReports,
    refused: u64,
    notes: &str,
) {
    check_at(rt, engine.refused(), refused, "refused", engine.taken());
    check_notes(rt, reports, notes, "reports", engine.taken());
}

/// Takes a step.
fn check_step<S: LineSink>(
    rt: &impl Abort,
    engine: &mut Engine,
    step: Step,
    sink: &mut S,
    reports: &mut NoteReports,
) {
    match step {
        Step::Feed(piece, wanted) => check_feed(rt, engine, piece, sink, reports, wanted),
        Step::Finish(end) => check_finish(rt, engine, sink, reports, end),
        Step::Again(piece, end) => check_again(rt, engine, piece, sink, reports, end),
        Step::Held(held, peaks) => check_held(rt, engine, held, peaks),
        Step::HeldWithHeader(bytes, most) => {
            check_held(rt, engine, held(bytes, 21, 0), held(most, 21, 3))
        }
        Step::PeakOfBytes(most) => check_at(rt, engine.peaks().bytes, most, "peak", 0),
        Step::Counts(taken, lines, kept) => check_counts(rt, engine, taken, lines, kept),
        Step::Reported(refused, notes) => check_reported(rt, engine, reports, refused, notes),
    }
}

/// Takes one step after the other.
fn check_each<S: LineSink>(
    rt: &impl Abort,
    engine: &mut Engine,
    steps: &[Step],
    sink: &mut S,
    reports: &mut NoteReports,
) {
    for step in steps {
        check_step(rt, engine, *step, sink, reports);
    }
}

/// How an engine is opened, with a query that selects every feature.
#[derive(Clone, Copy)]
pub struct Opening {
    pub line: u64,
    pub depth: u64,
    pub options: Options,
}

impl Opening {
    /// Returns the default limits, without options.
    pub fn usual() -> Opening {
        Opening {
            line: 8_388_608,
            depth: 64,
            options: Options::new(),
        }
    }
}

/// Takes steps of an engine that is opened for them.
pub fn check_steps<S: LineSink>(
    rt: &impl Abort,
    alloc: Global,
    opening: &Opening,
    steps: &[Step],
    sink: &mut S,
) -> Result<(), Fail> {
    let query = Query::all(alloc);
    let mut reports = NoteReports::new(alloc);
    let mut engine = opened(alloc, opening.line, opening.depth, &query, opening.options)?;
    check_each(rt, &mut engine, steps, sink, &mut reports);
    Ok(())
}

/// Does the same with a sink that writes. Returns what is written.
pub fn written_by_steps(
    rt: &impl Abort,
    alloc: Global,
    opening: &Opening,
    steps: &[Step],
) -> Result<Vec<u8>, Fail> {
    let mut sink = WriteSink::new(Vec::new(alloc));
    check_steps(rt, alloc, opening, steps, &mut sink)?;
    Ok(sink.into_inner())
}
