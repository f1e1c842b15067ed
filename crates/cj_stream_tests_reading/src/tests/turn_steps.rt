//! Readers of a header and of lines that are called step by step. A row is a list of calls, each
//! with its expected result and the reader's expected counts. One function opens all of these
//! readers.
use super::calls::{check_at, check_same};
use super::states::{check_progress, feed_header, feed_lines, finish_header, turned, usual_header};
use cj_budget::Peaks;
use cj_stream::{
    HeaderEnd, HeaderReader, LineEnd, LineReader, LineSink, NoReports, Query, WriteSink,
};
use std::alloc::Global;
use std::process::Abort;
use std::test::Fail;

/// A call of the reader of a header, or what it is expected to report before the next call.
#[derive(Clone, Copy)]
pub enum HeaderStep<'a> {
    /// A piece is given. So many bytes of it are used, and the header is accepted with them or not.
    Feed(&'a [u8], usize, bool),
    /// A piece is given, and is the end.
    Refuse(&'a [u8], HeaderEnd),
    /// The stream ends.
    Finish(HeaderEnd),
    /// After an end, a piece is given, and the stream ends again. Both return that end, and what is
    /// held stays.
    Again(&'a [u8], HeaderEnd),
    /// What is held, and what was held at most.
    Held(Peaks, Peaks),
    /// The bytes that were taken, and the lines that were handled.
    Counts(u64, u64),
}

/// A call of the reader of lines, or what it is expected to report before the next call.
#[derive(Clone, Copy)]
pub enum LineStep<'a> {
    /// A piece is given, with this result.
    Feed(&'a [u8], Result<(), LineEnd>),
    /// The stream ends.
    Finish(LineEnd),
    /// After an end, a piece is given, and the stream ends again. Both return that end, and what is
    /// held stays.
    Again(&'a [u8], LineEnd),
    /// What is held, and what was held at most.
    Held(Peaks, Peaks),
    /// What was held at most.
    Peaks(Peaks),
    /// The bytes that were taken, the lines that were handled, and the features that were kept.
    Counts(u64, u64, u64),
}

// ---- the reader of a header

/// Gives a piece to the reader of a header, which ends with it or has ended, and compares the end.
fn check_header_end<S: LineSink>(
    rt: &impl Abort,
    header: &mut HeaderReader,
    piece: &[u8],
    sink: &mut S,
    end: HeaderEnd,
) {
    check_same(rt, feed_header(rt, header, piece, sink), Err(end));
}

/// Ends the stream of the reader of a header, and compares the result.
fn check_header_finish<S: LineSink>(
    rt: &impl Abort,
    header: &mut HeaderReader,
    sink: &mut S,
    end: HeaderEnd,
) {
    check_same(rt, finish_header(rt, header, sink), end);
}

/// Compares what a reader holds, and what it held at most.
fn check_held(rt: &impl Abort, got: (Peaks, Peaks), wanted: (Peaks, Peaks)) {
    check_same(rt, got, wanted);
}

/// Gives a piece, and the end, to the reader of a header that has ended.
fn check_header_again<S: LineSink>(
    rt: &impl Abort,
    header: &mut HeaderReader,
    piece: &[u8],
    sink: &mut S,
    end: HeaderEnd,
) {
    let held = (header.held(), header.peaks());
    check_header_end(rt, header, piece, sink, end);
    check_header_finish(rt, header, sink, end);
    check_held(rt, (header.held(), header.peaks()), held);
}

/// Compares what the reader of a header counts.
fn check_header_counts(rt: &impl Abort, header: &HeaderReader, taken: u64, lines: u64) {
    check_at(rt, header.taken(), taken, "taken of a header", taken);
    check_at(rt, header.lines(), lines, "lines of a header", taken);
    check_at(rt, header.kept(), 0, "kept of a header", taken);
    check_at(rt, header.refused(), 0, "refused of a header", taken);
}

/// Takes a step of the reader of a header.
fn check_header_step<S: LineSink>(
    rt: &impl Abort,
    header: &mut HeaderReader,
    step: HeaderStep,
    sink: &mut S,
) {
    match step {
        HeaderStep::Feed(piece, used, accepted) => {
            check_progress(rt, feed_header(rt, header, piece, sink), used, accepted)
        }
        HeaderStep::Refuse(piece, end) => check_header_end(rt, header, piece, sink, end),
        HeaderStep::Finish(end) => check_header_finish(rt, header, sink, end),
        HeaderStep::Again(piece, end) => check_header_again(rt, header, piece, sink, end),
        HeaderStep::Held(held, peaks) => {
            check_held(rt, (header.held(), header.peaks()), (held, peaks))
        }
        HeaderStep::Counts(taken, lines) => check_header_counts(rt, header, taken, lines),
    }
}

/// Takes one step after the other.
pub fn check_header_steps<S: LineSink>(
    rt: &impl Abort,
    header: &mut HeaderReader,
    steps: &[HeaderStep],
    sink: &mut S,
) {
    for step in steps {
        check_header_step(rt, header, *step, sink);
    }
}

// ---- the reader of lines

/// Gives a piece to the reader of lines, and compares the result.
fn check_line_feed<S: LineSink>(
    rt: &impl Abort,
    lines: &mut LineReader,
    piece: &[u8],
    sink: &mut S,
    wanted: Result<(), LineEnd>,
) {
    check_same(rt, feed_lines(rt, lines, piece, sink), wanted);
}

/// Ends the stream of the reader of lines, and compares the result.
fn check_line_finish<S: LineSink>(
    rt: &impl Abort,
    lines: &mut LineReader,
    sink: &mut S,
    end: LineEnd,
) {
    check_same(rt, lines.finish(sink, &mut NoReports), end);
}

/// Gives a piece, and the end, to the reader of lines that has ended.
fn check_line_again<S: LineSink>(
    rt: &impl Abort,
    lines: &mut LineReader,
    piece: &[u8],
    sink: &mut S,
    end: LineEnd,
) {
    let held = (lines.held(), lines.peaks());
    check_line_feed(rt, lines, piece, sink, Err(end));
    check_line_finish(rt, lines, sink, end);
    check_held(rt, (lines.held(), lines.peaks()), held);
}

/// Compares what the reader of lines counts.
fn check_line_counts(rt: &impl Abort, reader: &LineReader, taken: u64, lines: u64, kept: u64) {
    check_at(rt, reader.taken(), taken, "taken of lines", taken);
    check_at(rt, reader.lines(), lines, "lines", taken);
    check_at(rt, reader.kept(), kept, "kept of lines", taken);
    check_at(rt, reader.refused(), 0, "refused of lines", taken);
}

/// Takes a step of the reader of lines.
fn check_line_step<S: LineSink>(
    rt: &impl Abort,
    lines: &mut LineReader,
    step: LineStep,
    sink: &mut S,
) {
    match step {
        LineStep::Feed(piece, wanted) => check_line_feed(rt, lines, piece, sink, wanted),
        LineStep::Finish(end) => check_line_finish(rt, lines, sink, end),
        LineStep::Again(piece, end) => check_line_again(rt, lines, piece, sink, end),
        LineStep::Held(held, peaks) => {
            check_held(rt, (lines.held(), lines.peaks()), (held, peaks))
        }
        LineStep::Peaks(peaks) => check_held(rt, (peaks, lines.peaks()), (peaks, peaks)),
        LineStep::Counts(taken, count, kept) => check_line_counts(rt, lines, taken, count, kept),
    }
}

/// Takes one step after the other.
fn check_line_steps<S: LineSink>(
    rt: &impl Abort,
    lines: &mut LineReader,
    steps: &[LineStep],
    sink: &mut S,
) {
    for step in steps {
        check_line_step(rt, lines, *step, sink);
    }
}

// ---- both

/// Takes steps of a reader of lines, which the reader of an accepted header becomes.
fn check_turned<S: LineSink>(
    rt: &impl Abort,
    header: HeaderReader,
    steps: &[LineStep],
    sink: &mut S,
) {
    let mut lines = turned(rt, header);
    check_line_steps(rt, &mut lines, steps, sink);
}

/// Takes steps of a reader of a header that is opened for them. If there are steps of the reader of
/// lines, takes these too.
pub fn check_turns<S: LineSink>(
    rt: &impl Abort,
    alloc: Global,
    header_steps: &[HeaderStep],
    line_steps: &[LineStep],
    sink: &mut S,
) -> Result<(), Fail> {
    let query = Query::all(alloc);
    let mut header = usual_header(alloc, &query)?;
    check_header_steps(rt, &mut header, header_steps, sink);
    if !line_steps.is_empty() {
        check_turned(rt, header, line_steps, sink);
    }
    Ok(())
}

/// Does the same with a sink that writes. Returns what is written.
pub fn written_by_turns(
    rt: &impl Abort,
    alloc: Global,
    header_steps: &[HeaderStep],
    line_steps: &[LineStep],
) -> Result<Vec<u8>, Fail> {
    let mut sink = WriteSink::new(Vec::new(alloc));
    check_turns(rt, alloc, header_steps, line_steps, &mut sink)?;
    Ok(sink.into_inner())
}
