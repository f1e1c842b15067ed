//! Calls of the engine without their contracts. A test compares values when it runs. Its proof
//! would grow with each fact that a call adds.
use crate::devices::{SlowReader, SlowWriter};
use cj_budget::{Limits, NoMemory, Peaks};
use cj_spans::Reason;
use cj_stream::{
    End, Engine, LineSink, NoReports, Options, Outcome, Output, Query, ReportSink, WriteSink,
    headline, run,
};
use std::alloc::{AllocError, Global};
use std::io::Read;
use thiserror::Error;

/// The longest text that an engine is given in pieces, in bytes.
const LONGEST: usize = 100_000;

/// Why a text was not given to an engine.
#[derive(Clone, Copy, Debug, PartialEq, Eq, Error)]
pub enum Ungiven {
    /// It is too long, or it would be cut past its end.
    #[error("the text is too long, or is cut past its end")]
    Length,
    /// An allocation failed.
    #[error(transparent)]
    Memory(#[from] NoMemory),
}

/// Returns what was held at most.
pub const fn held(bytes: u64, tokens: u64, depth: u64) -> Peaks {
    Peaks {
        bytes,
        tokens,
        depth,
    }
}

/// Returns the end at an invalid line.
pub const fn refused(line: u64, place: u64, reason: Reason) -> End {
    End::Refused {
        line,
        place,
        reason,
    }
}

/// Returns how a run went.
pub const fn outcome(lines: u64, kept: u64, peaks: Peaks, ended: End) -> Outcome {
    Outcome {
        lines,
        kept,
        refused: 0,
        peaks,
        ended,
    }
}

/// Returns the parts joined to one text.
pub fn joined(alloc: Global, parts: &[&[u8]]) -> Result<Vec<u8>, AllocError> {
    parts.concat(alloc)
}

/// Returns how a complete run went.
pub const fn complete(lines: u64, kept: u64, refused: u64, peaks: Peaks) -> Outcome {
    Outcome {
        lines,
        kept,
        refused,
        peaks,
        ended: End::Complete,
    }
}

/// Returns the options to go on after an invalid line.
pub fn going() -> Options {
    Options::new().keep_going(true)
}

/// How a stream is read.
#[derive(Clone, Copy)]
pub struct Reading<'q> {
    pub limits: Limits,
    pub query: &'q Query,
    pub options: Options,
}

impl<'q> Reading<'q> {
    /// Returns the way to read without options.
    pub fn usual(limits: Limits, query: &'q Query) -> Reading<'q> {
        Reading {
            limits,
            query,
            options: Options::new(),
        }
    }
}

/// Runs. The proof of a test that calls `run` itself would get all that its contract says.
pub fn ran<R: Read, S: LineSink, N: ReportSink>(
    alloc: Global,
    reader: &mut R,
    sink: &mut S,
    reports: &mut N,
    reading: &Reading,
) -> Outcome {
    run(
        alloc,
        reader,
        sink,
        reports,
        reading.limits,
        reading.query,
        reading.options,
    )
}

/// Runs over what a reader gives. Returns the outcome, and what was written.
pub fn written_by<R: Read>(alloc: Global, reader: &mut R, reading: &Reading) -> (Outcome, Vec<u8>) {
    let mut sink = WriteSink::new(Vec::new(alloc));
    let outcome = ran(alloc, reader, &mut sink, &mut NoReports, reading);
    (outcome, sink.into_inner())
}

/// Does the same with a query that selects every feature.
pub fn copied(alloc: Global, reader: &mut SlowReader, limits: Limits) -> (Outcome, Vec<u8>) {
    let query = Query::all(alloc);
    written_by(alloc, reader, &Reading::usual(limits, &query))
}

/// Runs from a reader to a borrowed writer.
pub fn copied_to(
    alloc: Global,
    reader: &mut SlowReader,
    writer: &mut SlowWriter,
    limits: Limits,
) -> Outcome {
    let query = Query::all(alloc);
    let reading = Reading::usual(limits, &query);
    let mut out = Output::new(writer);
    ran(alloc, reader, &mut out, &mut NoReports, &reading)
}

/// Runs over a text to a sink, by reads of `step` bytes.
pub fn ran_to<S: LineSink>(alloc: Global, text: &[u8], step: usize, sink: &mut S) -> Outcome {
    let query = Query::all(alloc);
    let reading = Reading::usual(Limits::usual(), &query);
    let mut reader = SlowReader::new(text, step);
    ran(alloc, &mut reader, sink, &mut NoReports, &reading)
}

/// Gives a text to an engine, cut in two at this place.
pub fn given<N: ReportSink>(
    alloc: Global,
    text: &[u8],
    at: usize,
    sink: &mut WriteSink<Vec<u8>>,
    reports: &mut N,
    reading: &Reading,
) -> Result<Outcome, Ungiven> {
    if at > text.len() || text.len() > LONGEST {
        return Err(Ungiven::Length);
    }
    let pieces = [&text[..at], &text[at..]];
    let mut engine = Engine::open(alloc, reading.limits, reading.query, reading.options)?;
    let copied = headline(&mut engine, &pieces, sink, reports);
    Ok(Outcome::of(&engine, copied.ended))
}
