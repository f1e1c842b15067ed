//! What comes after a header, in pieces given to its reader of lines.
use super::cuts::{Kind, Row, USUAL_LINE, check_with};
use super::states::{check_progress, feed_header, header_opened};
use cj_budget::Peaks;
use cj_spans::Reason;
use cj_stream::{
    End, HeaderReader, LineReader, Outcome, Query, ReportSink, WriteSink, headline_of_lines,
};
use cj_stream_testkit::{FEATURE, HEADER, Reading, STREAM, THIRD_REFUSED, held, outcome, refused};
use std::alloc::Global;
use std::process::Abort;
use std::test::Fail;

/// Returns what a reader of lines counted of a stream that ended like this.
fn told(lines: &LineReader, peaks: Peaks, ended: End) -> Outcome {
    Outcome {
        lines: lines.lines(),
        kept: lines.kept(),
        refused: lines.refused(),
        peaks,
        ended,
    }
}

/// Gives what comes after an accepted header to its reader of lines, cut in two at this place.
fn given_lines<N: ReportSink>(
    rt: &impl Abort,
    header: HeaderReader,
    rest: &[u8],
    at: usize,
    sink: &mut WriteSink<Vec<u8>>,
    reports: &mut N,
) -> Outcome {
    assert!(rt; header.accepted() && header.taken() == 141);
    assert!(rt; at <= rest.len() && rest.len() <= 1_000);
    let mut lines = header.into_lines();
    assert!(rt; lines.taken() == 141);
    let pieces = [&rest[..at], &rest[at..]];
    let copied = headline_of_lines(&mut lines, &pieces, sink, reports);
    told(&lines, copied.peaks, End::from(copied.ended))
}

/// Gives a header and its LF to its reader. Then gives what comes after it to the reader of its
/// lines, cut in two at this place.
pub fn given_behind<N: ReportSink>(
    rt: &impl Abort,
    alloc: Global,
    rest: &[u8],
    at: usize,
    sink: &mut WriteSink<Vec<u8>>,
    reports: &mut N,
    reading: &Reading,
) -> Result<Outcome, Fail> {
    let mut header = header_opened(alloc, reading)?;
    check_progress(rt, feed_header(rt, &mut header, HEADER, sink), 140, false);
    check_progress(rt, feed_header(rt, &mut header, b"\n", sink), 1, true);
    Ok(given_lines(rt, header, rest, at, sink, reports))
}

/// Checks what comes after a header.
pub fn check_rest(rt: &impl Abort, alloc: Global, row: &Row) -> Result<(), Fail> {
    check_with(rt, alloc, row, &Query::all(alloc), Kind::Rest)
}

#[test]
fn a_feature_behind_a_header(rt: HostRuntime) -> Result<(), Fail> {
    let row = Row {
        name: "a feature behind a header",
        text: &[FEATURE, b"\n"],
        line_limit: USUAL_LINE,
        goes_on: false,
        written: &[STREAM],
        reports: "",
        outcome: outcome(2, 1, held(350, 65, 8), End::Complete),
    };
    check_rest(&rt, rt.alloc(), &row)
}

#[test]
fn a_refused_line_behind_a_header(rt: HostRuntime) -> Result<(), Fail> {
    let row = Row {
        name: "a refused line behind a header",
        text: &[&THIRD_REFUSED[141..]],
        line_limit: USUAL_LINE,
        goes_on: false,
        written: &[STREAM],
        reports: "",
        outcome: outcome(2, 1, held(350, 65, 8), refused(3, 144, Reason::VertexIndex)),
    };
    check_rest(&rt, rt.alloc(), &row)
}
