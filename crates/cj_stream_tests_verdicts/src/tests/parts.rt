//! Streams that are read in parts. Runs over a header with some of the later lines give one joint
//! outcome, and reports.
use super::calls::{check_notes, check_text};
use super::rows::{bytes_of, cell, options_of, outcome_told};
use cj_budget::Limits;
use cj_stream::{IgnoreSink, Options, Outcome, Query};
use cj_stream_testkit::{NoteReports, Reading, SlowReader, joined, ran};
use std::alloc::Global;
use std::process::Abort;
use std::test::Fail;

/// A header, the reading's options, and the expected outcome, as a text.
#[derive(Clone, Copy)]
struct Stream<'a> {
    name: &'a str,
    header: &'a [u8],
    options: Options,
    told: &'a str,
}

/// Runs over a header and what comes after it, and compares the reports.
fn over(
    rt: &impl Abort,
    alloc: Global,
    stream: &Stream,
    behind: &[u8],
    notes: &str,
) -> Result<Outcome, Fail> {
    let text = joined(alloc, &[stream.header, b"\n", behind])?;
    let mut reader = SlowReader::new(&text, 100);
    let mut reports = NoteReports::new(alloc);
    let reading = Reading {
        limits: Limits::new(1_000, 64)?,
        query: &Query::all(alloc),
        options: stream.options,
    };
    let outcome = ran(alloc, &mut reader, &mut IgnoreSink, &mut reports, &reading);
    let wanted = bytes_of(rt, alloc, notes)?;
    check_notes(rt, &reports, &wanted, stream.name, behind.len() as u64);
    Ok(outcome)
}

/// Compares an outcome with the expected one.
fn check_told(
    rt: &impl Abort,
    alloc: Global,
    stream: &Stream,
    outcome: Outcome,
    at: u64,
) -> Result<(), Fail> {
    let told = outcome_told(alloc, outcome)?;
    check_text(rt, &told, stream.told, stream.name, at);
    Ok(())
}

/// Compares the outcome of both parts together, and their reports.
fn check_both(
    rt: &impl Abort,
    alloc: Global,
    stream: &Stream,
    parts: [&[u8]; 2],
    notes: [&str; 2],
) -> Result<(), Fail> {
    let first = over(rt, alloc, stream, parts[0], notes[0])?;
    let second = over(rt, alloc, stream, parts[1], notes[1])?;
    check_told(rt, alloc, stream, first.then(second), 1)
}

/// Compares the outcome of the whole stream, and its reports.
fn check_whole(
    rt: &impl Abort,
    alloc: Global,
    stream: &Stream,
    parts: [&[u8]; 2],
    notes: &str,
) -> Result<(), Fail> {
    let all = over(rt, alloc, stream, &joined(alloc, &parts)?, notes)?;
    check_told(rt, alloc, stream, all, 2)
}

/// Checks a header with what the cells say of both parts: the first, the second, the reports of
/// each, and the reports of the whole stream.
fn check(rt: &impl Abort, alloc: Global, stream: &Stream, cells: &str) -> Result<(), Fail> {
    let (first, cells) = cell(rt, cells);
    let (second, cells) = cell(rt, cells);
    let (of_first, cells) = cell(rt, cells);
    let (of_second, of_all) = cell(rt, cells);
    let front = bytes_of(rt, alloc, first)?;
    let rest = bytes_of(rt, alloc, second)?;
    check_both(rt, alloc, stream, [&front, &rest], [of_first, of_second])?;
    check_whole(rt, alloc, stream, [&front, &rest], of_all)
}

/// Checks a row. It has a name, the options, the header, the cells of `check`, and after ` = ` the
/// outcome.
fn check_row(rt: &impl Abort, alloc: Global, row: &str) -> Result<(), Fail> {
    let (name, row) = cell(rt, row);
    let (options, row) = cell(rt, row);
    let (header, row) = cell(rt, row);
    let (cells, told) = row.split_once(" = ").expect(rt, "an outcome");
    let header = bytes_of(rt, alloc, header)?;
    let stream = Stream {
        name,
        header: &header,
        options: options_of(options),
        told,
    };
    check(rt, alloc, &stream, cells)
}

/// The part with the greater peaks may come first. A part may be empty.
const ROWS: &str = r#"
two features|-|&H;|&S;&lf;|&F;||| = complete|3|2|0|350 65 8
the longer part first|-|&H;|&F;&lf;|&S;||| = complete|3|2|0|350 65 8
nothing|-|&H;||||| = complete|1|0|0|140 21 3
a refused line of the second part|-|&H;|&F;&lf;&lf;|&S;&lf;&B;&lf;&F;||| = line 5, byte 144: 25 vertex index out of range|4|2|0|350 65 8
a reported line of the second part|going|&H;|&F;&lf;&lf;|&S;&lf;&B;&lf;&F;||3 144 25&lf;|5 144 25&lf; = complete|6|3|1|350 65 8
a refused line of the first part|-|&H;|&B;&lf;|&S;||| = line 2, byte 144: 25 vertex index out of range|1|0|0|350 65 8
a refused header|going|{"type":"CityJSON","version":"1.1","transform":{"scale":[0.001,0.001,0.001],"translate":[1000.0,2000.0,0.0]},"CityObjects":{},"vertices":[]}|&F;&lf;|&S;||| = line 1, byte 29: 15 wrong version|0|0|0|140 21 3
"#;

#[test]
fn streams_in_two_parts(rt: HostRuntime) -> Result<(), Fail> {
    for row in ROWS.trim().lines() {
        check_row(&rt, rt.alloc(), row)?;
    }
    Ok(())
}
