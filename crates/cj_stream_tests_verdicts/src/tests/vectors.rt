//! The vectors of the folder `vectors/`, each run whole, by single bytes, and cut in two at every
//! place.
//!
//! There are two families. One is a feature that is cut short at each place. The other is a feature
//! with a byte that is not UTF-8 at each place. All other vectors are in `table`.
use super::calls::{check_at, check_bound, check_bytes, check_named};
use super::rows::{bytes_of, cell, end_told, options_of, peaks_told, query_of};
use cj_budget::Limits;
use cj_stream::{End, IgnoreSink, Outcome, Query, Report, ReportSink};
use cj_stream_testkit::{CutReader, FEATURE, HEADER, Reading, SlowReader, ran, written_by};
use std::alloc::{AllocError, Global};
use std::io::Read;
use std::process::Abort;
use std::test::Fail;

/// A stream, and its expected result.
#[derive(Drop)]
struct Vector<'a> {
    name: &'a str,
    text: &'a [u8],
    reading: Reading<'a>,
    written: &'a [u8],
    /// The expected outcome, as a text.
    told: &'a str,
}

/// Used in place of a cut if a stream comes by single bytes.
const SINGLE_BYTES: u64 = 1_000_000;

/// Returns an outcome as a text. It has the end, the number of lines before the invalid one or in
/// all, and the number of kept features. For a complete stream it has the peaks too.
fn told(alloc: Global, outcome: Outcome) -> Result<String, AllocError> {
    let (lines, kept) = (outcome.lines, outcome.kept);
    let ended = end_told(alloc, outcome.ended)?;
    let held = match outcome.ended {
        End::Complete => peaks_told(alloc, outcome.peaks)?,
        _ => format!(in alloc; "-")?,
    };
    format!(in alloc; "{ended}|{lines}|{kept}|{held}")
}

/// Runs over a vector that a reader gives, cut at this place.
fn run_over<R: Read>(
    rt: &impl Abort,
    alloc: Global,
    vector: &Vector,
    reader: &mut R,
    at: u64,
) -> Outcome {
    let (outcome, written) = written_by(alloc, reader, &vector.reading);
    check_bound(rt, vector.text, vector.reading.limits, outcome.peaks);
    check_bytes(rt, &written, vector.written, vector.name, at);
    outcome
}

/// Cuts a vector in two. It is whole if the cut is at an end. The result is the same as by single
/// bytes, except for the peaks of a stream that is not complete.
fn check_cut(rt: &impl Abort, alloc: Global, vector: &Vector, at: usize, first: Outcome) {
    assert!(rt; at <= vector.text.len());
    let mut reader = CutReader {
        front: &vector.text[..at],
        back: &vector.text[at..],
    };
    let got = run_over(rt, alloc, vector, &mut reader, at as u64);
    let peaks = match first.ended {
        End::Complete => first.peaks,
        _ => got.peaks,
    };
    let wanted = Outcome { peaks, ..first };
    check_at(rt, got, wanted, vector.name, at as u64);
}

/// Keeps the first report.
#[derive(Drop)]
struct FirstReport {
    report: Option<Report>,
}

impl ReportSink for FirstReport {
    ghost use Rattle.std.specs.Prelude.{⊤};

    ghost notes = { λ a r b. ⊤ };

    fn report(&mut self, report: Report) {
        self.report = self.report.or(Some(report));
    }
}

/// Returns how a stream ends if reading goes on, and its first report. `ended` is its end if
/// reading does not go on: that is the report, unless it is about the first line.
fn going_on(ended: End) -> (End, Option<Report>) {
    match ended {
        End::Refused {
            line,
            place,
            reason,
        } if line > 1 => (
            End::Complete,
            Some(Report {
                line,
                place,
                reason,
            }),
        ),
        ended => (ended, None),
    }
}

/// Checks a vector while reading goes on after invalid lines.
fn check_going(rt: &impl Abort, alloc: Global, vector: &Vector, ended: End) {
    let (wanted, report) = going_on(ended);
    let mut reader = SlowReader::new(vector.text, 7);
    let mut reports = FirstReport { report: None };
    let reading = Reading {
        options: vector.reading.options.keep_going(true),
        ..vector.reading
    };
    let outcome = ran(alloc, &mut reader, &mut IgnoreSink, &mut reports, &reading);
    check_bound(rt, vector.text, reading.limits, outcome.peaks);
    check_at(rt, outcome.ended, wanted, vector.name, SINGLE_BYTES);
    check_named(rt, reports.report, report, vector.name);
}

/// Checks a vector in every way.
fn check(rt: &impl Abort, alloc: Global, vector: &Vector) -> Result<(), Fail> {
    let mut reader = SlowReader::new(vector.text, 1);
    let first = run_over(rt, alloc, vector, &mut reader, SINGLE_BYTES);
    let told = told(alloc, first)?;
    check_named(rt, told.as_str(), vector.told, vector.name);
    check_going(rt, alloc, vector, first.ended);
    for at in 0..=vector.text.len() {
        check_cut(rt, alloc, vector, at, first);
    }
    Ok(())
}

// ---- the two families

/// Checks in every way a header and a line that is invalid at this place, for this reason.
fn check_second(
    rt: &impl Abort,
    alloc: Global,
    line: &[u8],
    place: usize,
    reason: &str,
) -> Result<(), Fail> {
    let text = [HEADER, b"\n", line, b"\n"].concat(alloc)?;
    let written = [HEADER, b"\n"].concat(alloc)?;
    let told = format!(in alloc; "line 2, byte {place}: {reason}|1|0|-")?;
    let query = Query::all(alloc);
    let vector = Vector {
        name: reason,
        text: &text,
        reading: Reading::usual(Limits::new(1_000, 64)?, &query),
        written: &written,
        told: &told,
    };
    check(rt, alloc, &vector)
}

/// The first bytes of a feature are no JSON text, at the end of the line.
#[test]
fn a_feature_cut_short_at_each_place(rt: HostRuntime) -> Result<(), Fail> {
    for count in 1..FEATURE.len() {
        check_second(&rt, rt.alloc(), &FEATURE[..count], count, "4 syntax")?;
    }
    Ok(())
}

/// The byte 80 in hexadecimal begins no character.
#[test]
fn a_feature_with_one_byte_that_is_no_text(rt: HostRuntime) -> Result<(), Fail> {
    for place in 0..FEATURE.len() {
        let mut line = FEATURE.to_vec(rt.alloc())?;
        assert!(rt; place < line.len());
        line[place] = 0x80;
        check_second(&rt, rt.alloc(), &line, place, "3 not UTF-8")?;
    }
    Ok(())
}

// ---- the rows of the table

/// Returns the limits in two cells.
fn limits_of(line: &str, depth: &str) -> Result<Limits, Fail> {
    Ok(Limits::new(line.parse()?, depth.parse()?)?)
}

/// Checks the vector of a row in every way.
fn check_row(rt: &impl Abort, alloc: Global, row: &str) -> Result<(), Fail> {
    let (name, row) = cell(rt, row);
    let (line, row) = cell(rt, row);
    let (depth, row) = cell(rt, row);
    let (asked, row) = cell(rt, row);
    let (stream, row) = cell(rt, row);
    let (written, told) = cell(rt, row);
    let query = query_of(rt, alloc, asked)?;
    let text = bytes_of(rt, alloc, stream)?;
    let kept = bytes_of(rt, alloc, if written == "all" { stream } else { written })?;
    let vector = Vector {
        name,
        text: &text,
        reading: Reading {
            limits: limits_of(line, depth)?,
            query: &query,
            options: options_of(asked),
        },
        written: &kept,
        told,
    };
    check(rt, alloc, &vector)
}

/// Checks the vector of each row in every way.
pub fn check_rows(rt: &impl Abort, alloc: Global, rows: &str) -> Result<(), Fail> {
    for row in rows.trim().lines() {
        check_row(rt, alloc, row)?;
    }
    Ok(())
}
