//! What is reported of invalid lines if reading goes on after them. It has a sink that notes each
//! report, the sink that counts, and cases without any report.
use super::calls::{check_at, check_bytes, check_notes};
use super::reads::ran_within;
use super::steps::{Opening, Step, check_steps, written_by_steps};
use cj_budget::Limits;
use cj_spans::Reason;
use cj_stream::{CountReports, End, IgnoreSink, Options, Outcome, Output, Query, WriteSink};
use cj_stream_testkit::{
    BEYOND, FEATURE, FIRST, NoteReports, Reading, SlowReader, SlowWriter, going, joined, outcome,
    ran, refused, written_by,
};
use std::alloc::Global;
use std::process::Abort;
use std::test::Fail;

// ---- counts

/// Returns how a stream is read that goes on after invalid lines.
fn going_within(limits: Limits, query: &Query) -> Reading<'_> {
    Reading {
        limits,
        query,
        options: going(),
    }
}

/// Runs over a text, going on. Returns the outcome, and how many reports were counted, from this
/// number on.
fn counted(alloc: Global, text: &[u8], from: u64) -> Result<(Outcome, u64), Fail> {
    let mut reports = CountReports { reports: from };
    let mut reader = SlowReader::new(text, 100);
    let query = Query::all(alloc);
    let reading = going_within(Limits::new(1_000, 64)?, &query);
    let outcome = ran(alloc, &mut reader, &mut IgnoreSink, &mut reports, &reading);
    Ok((outcome, reports.reports))
}

/// Counts the reports of a stream with two invalid lines.
fn check_counted(rt: &impl Abort, alloc: Global, from: u64, wanted: u64) -> Result<(), Fail> {
    let text = joined(alloc, &[FIRST, b"{}\n", FEATURE, b"\n3"])?;
    let (outcome, reports) = counted(alloc, &text, from)?;
    check_at(rt, outcome.ended, End::Complete, "counted", from);
    check_at(rt, outcome.refused, 2, "refused", from);
    check_at(rt, reports, wanted, "reports", from);
    Ok(())
}

/// From which number on two reports are counted, and up to which. The count stops at the greatest
/// number.
const COUNTS: [(u64, u64); 4] = [
    (0, 2),
    (18_446_744_073_709_551_613, u64::MAX),
    (18_446_744_073_709_551_614, u64::MAX),
    (u64::MAX, u64::MAX),
];

#[test]
fn a_sink_counts_reports(rt: HostRuntime) -> Result<(), Fail> {
    for (from, wanted) in &COUNTS {
        check_counted(&rt, rt.alloc(), *from, *wanted)?;
    }
    Ok(())
}

#[test]
fn options_are_set_by_name(rt: HostRuntime) {
    assert!(&rt; !Options::new().keeps_going());
    assert!(&rt; going().keeps_going());
    assert!(&rt; !going().keep_going(false).keeps_going());
}

// ---- a read fails, or there are no reads left

/// Compares a run up to the third line, which is not reported.
fn check_unreported(
    rt: &impl Abort,
    outcome: &Outcome,
    reports: &NoteReports,
    wanted: End,
    row: &str,
) {
    check_at(rt, outcome.ended, wanted, row, 0);
    check_at(rt, outcome.lines, 2, row, 1);
    check_at(rt, outcome.refused, 1, row, 2);
    check_notes(rt, reports, "2 0 10\n", row, 3);
}

/// Runs over a text that one read gives whole. The read after it fails.
fn check_read_fault(rt: &impl Abort, alloc: Global, text: &[u8], reading: &Reading) {
    let mut reader = SlowReader::new(text, 1_000);
    reader.fails_at = 2;
    let mut sink = WriteSink::new(Vec::new(alloc));
    let mut reports = NoteReports::new(alloc);
    let outcome = ran(alloc, &mut reader, &mut sink, &mut reports, reading);
    check_unreported(rt, &outcome, &reports, End::ReadFault, "read fault");
}

/// Runs over a text with one read, which is the last.
fn check_read_limit(rt: &impl Abort, alloc: Global, text: &[u8], reading: &Reading) {
    let mut reader = SlowReader::new(text, 1_000);
    let mut reports = NoteReports::new(alloc);
    let (outcome, _) = ran_within(rt, alloc, &mut reader, &mut reports, reading, 1);
    check_unreported(rt, &outcome, &reports, End::ReadLimit, "read limit");
}

/// Runs over a stream whose third line has begun. It is too long already, or would be invalid at
/// its end.
fn check_begun(rt: &impl Abort, alloc: Global, line: &[u8]) -> Result<(), Fail> {
    let text = joined(alloc, &[FIRST, b"{}\n", line])?;
    let query = Query::all(alloc);
    let reading = going_within(Limits::new(210, 64)?, &query);
    check_read_fault(rt, alloc, &text, &reading);
    check_read_limit(rt, alloc, &text, &reading);
    Ok(())
}

/// More than 210 bytes.
const LONG: [u8; 215] = [b'x'; 215];

#[test]
fn a_begun_line_is_not_reported(rt: HostRuntime) -> Result<(), Fail> {
    for line in &[b"".as_slice(), b"3", b"x", b"\xff", &LONG] {
        check_begun(&rt, rt.alloc(), line)?;
    }
    Ok(())
}

// ---- after an end

/// Returns an opening that goes on, within a line limit of 1,000.
fn opening() -> Opening {
    Opening {
        line: 1_000,
        depth: 64,
        options: going(),
    }
}

/// Gives a text whose second line is invalid, and its third at the end.
#[test]
fn nothing_is_reported_after_a_complete_stream(rt: HostRuntime) -> Result<(), Fail> {
    let text = joined(rt.alloc(), &[FIRST, b"{}\n3"])?;
    let steps = [
        Step::Feed(&text, Ok(())),
        Step::Reported(1, "2 0 10\n"),
        Step::Finish(End::Complete),
        Step::Again(b"{}\n3\n", End::Complete),
        Step::Again(b"\n", End::Complete),
        Step::Reported(2, "2 0 10\n3 0 12\n"),
        Step::Counts(145, 3, 0),
    ];
    let written = written_by_steps(&rt, rt.alloc(), &opening(), &steps)?;
    check_bytes(&rt, &written, FIRST, "after the end", 0);
    Ok(())
}

/// Gives a text to an engine that goes on. Its second line is invalid, and its third cannot be
/// written.
fn check_write_fault(
    rt: &impl Abort,
    alloc: Global,
    text: &[u8],
    writer: &mut SlowWriter,
) -> Result<(), Fail> {
    let end = End::WriteFault;
    let steps = [
        Step::Feed(text, Err(end)),
        Step::Again(b"{}\n3\n", end),
        Step::Again(b"\n", end),
        Step::Reported(1, "2 144 25\n"),
        Step::Counts(0, 3, 0),
    ];
    check_steps(rt, alloc, &opening(), &steps, &mut Output::new(writer))
}

/// What was reported before a failed write stays, and nothing is reported after it.
#[test]
fn a_write_fault_after_reports(rt: HostRuntime) -> Result<(), Fail> {
    let text = joined(rt.alloc(), &[FIRST, BEYOND, b"\n\n", FEATURE, b"\n{}\n"])?;
    let mut writer = SlowWriter::new(Vec::new(rt.alloc()), 1_000);
    writer.fails_at = 3;
    check_write_fault(&rt, rt.alloc(), &text, &mut writer)?;
    check_bytes(&rt, &writer.bytes, FIRST, "a write fault", 0);
    Ok(())
}

// ---- the first line

/// A text with an invalid first line, in parts, the line limit, and the byte and the reason of the
/// end.
#[derive(Clone, Copy)]
struct First<'a> {
    text: &'a [&'a [u8]],
    line_limit: u64,
    place: u64,
    reason: Reason,
}

/// Gives a text with an invalid first line to an engine that goes on.
fn check_first(rt: &impl Abort, alloc: Global, row: &First) -> Result<(), Fail> {
    let text = joined(alloc, row.text)?;
    let end = refused(1, row.place, row.reason);
    let steps = [
        Step::Feed(&text, Err(end)),
        Step::Again(b"{}\n3\n", end),
        Step::Again(b"\n", end),
        Step::Reported(0, ""),
        Step::Counts(0, 0, 0),
    ];
    let opening = Opening {
        line: row.line_limit,
        ..opening()
    };
    let written = written_by_steps(rt, alloc, &opening, &steps)?;
    check_bytes(rt, &written, b"", "a first line", row.place);
    Ok(())
}

const INVALID_FIRST_LINES: [First; 4] = [
    First {
        text: &[FIRST, b"{}\n"],
        line_limit: 139,
        place: 139,
        reason: Reason::LineTooLong,
    },
    First {
        text: &[b"3\n{}\n"],
        line_limit: 1_000,
        place: 0,
        reason: Reason::WrongKind,
    },
    First {
        text: &[b"\n{}\n"],
        line_limit: 1_000,
        place: 0,
        reason: Reason::Syntax,
    },
    First {
        text: &[b"3\xff\n{}\n"],
        line_limit: 1_000,
        place: 1,
        reason: Reason::NotUtf8,
    },
];

#[test]
fn a_refused_first_line_is_not_reported(rt: HostRuntime) -> Result<(), Fail> {
    for row in &INVALID_FIRST_LINES {
        check_first(&rt, rt.alloc(), row)?;
    }
    Ok(())
}

#[test]
fn a_stream_without_a_line_is_not_reported(rt: HostRuntime) -> Result<(), Fail> {
    let end = refused(1, 0, Reason::NoHeader);
    let steps = [
        Step::Finish(end),
        Step::Again(b"{}\n3\n", end),
        Step::Again(b"\n", end),
        Step::Reported(0, ""),
        Step::Counts(0, 0, 0),
    ];
    let written = written_by_steps(&rt, rt.alloc(), &opening(), &steps)?;
    check_bytes(&rt, &written, b"", "no line", 0);
    Ok(())
}

/// Without options, the engine ends at the first invalid line, and reports nothing.
#[test]
fn the_first_refused_line_is_the_usual_end(rt: HostRuntime) -> Result<(), Fail> {
    let text = joined(rt.alloc(), &[FIRST, b"{}\n3\n"])?;
    let end = refused(2, 0, Reason::MissingMember);
    let steps = [
        Step::Feed(&text, Err(end)),
        Step::Again(b"{}\n3\n", end),
        Step::Again(b"\n", end),
        Step::Reported(0, ""),
        Step::Counts(0, 1, 0),
    ];
    let written = written_by_steps(&rt, rt.alloc(), &Opening::usual(), &steps)?;
    check_bytes(&rt, &written, FIRST, "the usual end", 0);
    Ok(())
}

/// Runs over a text with two invalid lines, and ignores reports. Returns what is written.
fn written_unread(rt: &impl Abort, alloc: Global, text: &[u8]) -> Result<Vec<u8>, Fail> {
    let query = Query::all(alloc);
    let reading = going_within(Limits::new(1_000, 64)?, &query);
    let (outcome, written) = written_by(alloc, &mut SlowReader::new(text, 100), &reading);
    check_at(rt, outcome.ended, End::Complete, "no one reads", 0);
    check_at(rt, outcome.refused, 2, "refused", 0);
    Ok(written)
}

/// A sink that ignores reports changes nothing else.
#[test]
fn reports_that_no_one_reads(rt: HostRuntime) -> Result<(), Fail> {
    let text = joined(rt.alloc(), &[FIRST, b"{}\n3\n"])?;
    let written = written_unread(&rt, rt.alloc(), &text)?;
    check_bytes(&rt, &written, FIRST, "no one reads", 0);
    Ok(())
}
