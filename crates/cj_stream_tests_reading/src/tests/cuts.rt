//! Streams that are read whole, by single bytes, and cut in two at every place. A run, an engine
//! and a reader of lines read them.
use super::calls::{check_at, check_bytes, check_notes};
use super::line_pieces::given_behind;
use cj_budget::Limits;
use cj_stream::{Options, Outcome, Query, WriteSink};
use cj_stream_testkit::{NoteReports, Reading, SlowReader, given, joined, ran};
use std::alloc::Global;
use std::process::Abort;
use std::test::Fail;

/// The usual limit on the bytes of a line.
pub const USUAL_LINE: u64 = 8_388_608;

/// A stream, and the expected result. The stream and its expected output are given in parts.
#[derive(Clone, Copy)]
pub struct Row<'a> {
    pub name: &'a str,
    pub text: &'a [&'a [u8]],
    pub line_limit: u64,
    pub goes_on: bool,
    pub written: &'a [&'a [u8]],
    pub reports: &'a str,
    pub outcome: Outcome,
}

/// A row with its joined texts and its query.
#[derive(Clone, Copy)]
struct Case<'a> {
    row: &'a Row<'a>,
    text: &'a [u8],
    written: &'a [u8],
    query: &'a Query,
}

/// How a stream is given.
#[derive(Clone, Copy)]
enum Way {
    /// A run reads so many bytes at a time.
    Run(usize),
    /// An engine gets it, cut in two at this place.
    Engine(usize),
    /// It comes after a header, and the reader of lines gets it, cut in two at this place.
    Lines(usize),
}

impl Way {
    /// Returns the number of the way, for the message of a failure.
    fn number(self) -> u64 {
        match self {
            Way::Run(number) | Way::Engine(number) | Way::Lines(number) => number as u64,
        }
    }
}

/// Returns how a row is read.
fn reading_of<'q>(row: &Row, limits: Limits, query: &'q Query) -> Reading<'q> {
    Reading {
        limits,
        query,
        options: Options::new().keep_going(row.goes_on),
    }
}

/// Runs over a stream by reads of `step` bytes.
fn told_by_run(
    alloc: Global,
    text: &[u8],
    step: usize,
    sink: &mut WriteSink<Vec<u8>>,
    reports: &mut NoteReports,
    reading: &Reading,
) -> Outcome {
    let mut reader = SlowReader::new(text, step);
    ran(alloc, &mut reader, sink, reports, reading)
}

/// Reads a stream in one way.
fn told(
    rt: &impl Abort,
    alloc: Global,
    text: &[u8],
    way: Way,
    sink: &mut WriteSink<Vec<u8>>,
    reports: &mut NoteReports,
    reading: &Reading,
) -> Result<Outcome, Fail> {
    match way {
        Way::Run(step) => Ok(told_by_run(alloc, text, step, sink, reports, reading)),
        Way::Engine(at) => Ok(given(alloc, text, at, sink, reports, reading)?),
        Way::Lines(at) => given_behind(rt, alloc, text, at, sink, reports, reading),
    }
}

/// Reads a stream in one way. Returns the outcome, and what was written.
fn written_by_way(
    rt: &impl Abort,
    alloc: Global,
    case: &Case,
    way: Way,
    reports: &mut NoteReports,
) -> Result<(Outcome, Vec<u8>), Fail> {
    let limits = Limits::new(case.row.line_limit, 64)?;
    let reading = reading_of(case.row, limits, case.query);
    let mut sink = WriteSink::new(Vec::new(alloc));
    let outcome = told(rt, alloc, case.text, way, &mut sink, reports, &reading)?;
    Ok((outcome, sink.into_inner()))
}

/// Compares what was written, what was reported and the outcome.
fn check_told(
    rt: &impl Abort,
    case: &Case,
    outcome: Outcome,
    written: &[u8],
    reports: &NoteReports,
    at: u64,
) {
    let row = case.row;
    check_notes(rt, reports, row.reports, row.name, at);
    check_at(rt, outcome, row.outcome, row.name, at);
    check_bytes(rt, written, case.written, row.name, at);
}

/// Reads a stream in one way, and compares how it went.
fn check_way(rt: &impl Abort, alloc: Global, case: &Case, way: Way) -> Result<(), Fail> {
    let mut reports = NoteReports::new(alloc);
    let (outcome, written) = written_by_way(rt, alloc, case, way, &mut reports)?;
    check_told(rt, case, outcome, &written, &reports, way.number());
    Ok(())
}

/// What a stream is, and so in which ways it is read.
#[derive(Clone, Copy)]
pub enum Kind {
    /// A whole stream: by runs, and by an engine that gets it cut in two at each place.
    Stream,
    /// What comes after the usual header: by a reader of lines that gets it cut in two at each
    /// place.
    Rest,
    /// A whole stream for a query: by a run.
    Query,
}

/// Reads a whole stream.
fn check_stream(rt: &impl Abort, alloc: Global, case: &Case) -> Result<(), Fail> {
    for step in &[8_192, 1] {
        check_way(rt, alloc, case, Way::Run(*step))?;
    }
    for at in 0..=case.text.len() {
        check_way(rt, alloc, case, Way::Engine(at))?;
    }
    Ok(())
}

/// Reads what comes after a header.
fn check_rest(rt: &impl Abort, alloc: Global, case: &Case) -> Result<(), Fail> {
    for at in 0..=case.text.len() {
        check_way(rt, alloc, case, Way::Lines(at))?;
    }
    Ok(())
}

fn check_case(rt: &impl Abort, alloc: Global, case: &Case, kind: Kind) -> Result<(), Fail> {
    match kind {
        Kind::Stream => check_stream(rt, alloc, case),
        Kind::Rest => check_rest(rt, alloc, case),
        Kind::Query => check_way(rt, alloc, case, Way::Run(50)),
    }
}

/// Checks a row with this query.
pub fn check_with(
    rt: &impl Abort,
    alloc: Global,
    row: &Row,
    query: &Query,
    kind: Kind,
) -> Result<(), Fail> {
    let text = joined(alloc, row.text)?;
    let written = joined(alloc, row.written)?;
    let case = Case {
        row,
        text: &text,
        written: &written,
        query,
    };
    check_case(rt, alloc, &case, kind)
}

/// Checks a whole stream.
pub fn check(rt: &impl Abort, alloc: Global, row: &Row) -> Result<(), Fail> {
    check_with(rt, alloc, row, &Query::all(alloc), Kind::Stream)
}
