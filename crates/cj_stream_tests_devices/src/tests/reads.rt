//! Runs with a limit on the number of reads: how often the reader is read, what is written, and how
//! they end.
use super::calls::{check_at, check_bytes};
use cj_budget::Limits;
use cj_spans::Reason;
use cj_stream::{End, NoReports, Outcome, Output, Query, ReportSink, WriteSink, run_within};
use cj_stream_testkit::{
    EndlessReader, FIRST, HEADER, Reading, STREAM, SlowReader, SlowWriter, THIRD_REFUSED, ran,
};
use std::alloc::Global;
use std::io::Read;
use std::process::Abort;
use std::test::Fail;

/// Runs within this number of reads. Returns the outcome, and what was written.
pub fn ran_within<R: Read, N: ReportSink>(
    rt: &impl Abort,
    alloc: Global,
    reader: &mut R,
    reports: &mut N,
    reading: &Reading,
    reads: u64,
) -> (Outcome, Vec<u8>) {
    assert!(rt; reads <= 1_000_000);
    let mut sink = WriteSink::new(Vec::new(alloc));
    let outcome = run_within(
        alloc,
        reader,
        &mut sink,
        reports,
        reading.limits,
        reading.query,
        reading.options,
        reads,
    );
    (outcome, sink.into_inner())
}

/// A text and a number of reads, and how a run over it is expected to go within them.
#[derive(Clone, Copy)]
struct Row<'a> {
    name: &'a str,
    text: &'a [u8],
    line_limit: u64,
    reads: u64,
    ended: End,
    lines: u64,
    kept: u64,
    made: u64,
    written: &'a [u8],
}

/// Runs over a reader by a row. Returns the outcome, and what was written.
fn ran_by<R: Read>(
    rt: &impl Abort,
    alloc: Global,
    reader: &mut R,
    row: &Row,
) -> Result<(Outcome, Vec<u8>), Fail> {
    let query = Query::all(alloc);
    let reading = Reading::usual(Limits::new(row.line_limit, 64)?, &query);
    Ok(ran_within(rt, alloc, reader, &mut NoReports, &reading, row.reads))
}

/// Compares the lines that were handled, the features that were kept, and the reads.
fn check_counts(rt: &impl Abort, got: (u64, u64, u64), wanted: (u64, u64, u64), row: &Row) {
    assert_eq!(rt; got, wanted, "{}, within {} reads", row.name, row.reads);
}

/// Compares a run with its row: its end, its counts, how often its reader was read, and what was
/// written.
fn check_went(rt: &impl Abort, outcome: &Outcome, written: &[u8], made: u64, row: &Row) {
    let counts = (outcome.lines, outcome.kept, made);
    check_at(rt, outcome.ended, row.ended, row.name, row.reads);
    check_counts(rt, counts, (row.lines, row.kept, row.made), row);
    check_bytes(rt, written, row.written, row.name, row.reads);
}

/// Runs over a reader that gives one byte per read, and fails at the read `fails_at`.
fn check_failing(rt: &impl Abort, alloc: Global, fails_at: u64, row: &Row) -> Result<(), Fail> {
    let mut reader = SlowReader::new(row.text, 1);
    reader.fails_at = fails_at;
    let (outcome, written) = ran_by(rt, alloc, &mut reader, row)?;
    check_went(rt, &outcome, &written, reader.reads, row);
    Ok(())
}

/// Runs over a reader that gives one byte per read.
fn check_row(rt: &impl Abort, alloc: Global, row: &Row) -> Result<(), Fail> {
    check_failing(rt, alloc, 0, row)
}

/// Checks too few reads for the stream of 352 bytes: its whole lines are written.
fn check_too_few(rt: &impl Abort, alloc: Global, text: &[u8], reads: u64) -> Result<(), Fail> {
    let (lines, kept, front) = match reads {
        0..=140 => (0, 0, 0),
        141..=351 => (1, 0, 141),
        _ => (2, 1, 352),
    };
    assert!(rt; front <= text.len());
    let row = Row {
        name: "too few reads",
        text,
        line_limit: 8_388_608,
        reads,
        ended: End::ReadLimit,
        lines,
        kept,
        made: reads,
        written: &text[..front],
    };
    check_row(rt, alloc, &row)
}

/// One read for each byte is too few, as none remains to find the end.
#[test]
fn each_number_of_reads_that_is_too_few(rt: HostRuntime) -> Result<(), Fail> {
    for reads in 0..=352u64 {
        check_too_few(&rt, rt.alloc(), STREAM, reads)?;
    }
    Ok(())
}

/// A first line that is no JSON text at byte 1, and one with more bytes than the limit of 2.
const INVALID: End = End::Refused {
    line: 1,
    place: 1,
    reason: Reason::Syntax,
};

const TOO_LONG: End = End::Refused {
    line: 1,
    place: 2,
    reason: Reason::LineTooLong,
};

const NO_HEADER: End = End::Refused {
    line: 1,
    place: 0,
    reason: Reason::NoHeader,
};

/// Rows of runs over a reader that gives one byte per read.
const ROWS: [Row; 11] = [
    // The read that finds the end of the input counts.
    Row {
        name: "one read more than there are bytes",
        text: STREAM,
        line_limit: 8_388_608,
        reads: 353,
        ended: End::Complete,
        lines: 2,
        kept: 1,
        made: 353,
        written: STREAM,
    },
    Row {
        name: "more reads than are needed",
        text: STREAM,
        line_limit: 8_388_608,
        reads: 1_000,
        ended: End::Complete,
        lines: 2,
        kept: 1,
        made: 353,
        written: STREAM,
    },
    // An end that the last read gives is reported, and not that it was the last read.
    Row {
        name: "a line that the last read refuses",
        text: b"{x\n",
        line_limit: 8_388_608,
        reads: 3,
        ended: INVALID,
        lines: 0,
        kept: 0,
        made: 3,
        written: b"",
    },
    Row {
        name: "one read less",
        text: b"{x\n",
        line_limit: 8_388_608,
        reads: 2,
        ended: End::ReadLimit,
        lines: 0,
        kept: 0,
        made: 2,
        written: b"",
    },
    // The byte past the line limit makes a line too long. If the last read gives it, that is the
    // end. The same is true if one more read fails, or none remains.
    Row {
        name: "a line that the last read makes too long",
        text: b"xxx",
        line_limit: 2,
        reads: 3,
        ended: TOO_LONG,
        lines: 0,
        kept: 0,
        made: 3,
        written: b"",
    },
    Row {
        name: "the same with one more read",
        text: b"xxx",
        line_limit: 2,
        reads: 4,
        ended: TOO_LONG,
        lines: 0,
        kept: 0,
        made: 3,
        written: b"",
    },
    Row {
        name: "the same with one read less",
        text: b"xxx",
        line_limit: 2,
        reads: 2,
        ended: End::ReadLimit,
        lines: 0,
        kept: 0,
        made: 2,
        written: b"",
    },
    // After a line that is the end, the reader is not read again, though it has more.
    Row {
        name: "no read after a refused line",
        text: b"{x\nmore of it\n",
        line_limit: 8_388_608,
        reads: 1_000,
        ended: INVALID,
        lines: 0,
        kept: 0,
        made: 3,
        written: b"",
    },
    Row {
        name: "no read after a line too long",
        text: b"xxxx\nmore of it\n",
        line_limit: 2,
        reads: 1_000,
        ended: TOO_LONG,
        lines: 0,
        kept: 0,
        made: 3,
        written: b"",
    },
    // It takes a read to find that there is nothing.
    Row {
        name: "an empty input by no read",
        text: b"",
        line_limit: 8_388_608,
        reads: 0,
        ended: End::ReadLimit,
        lines: 0,
        kept: 0,
        made: 0,
        written: b"",
    },
    Row {
        name: "an empty input by one read",
        text: b"",
        line_limit: 8_388_608,
        reads: 1,
        ended: NO_HEADER,
        lines: 0,
        kept: 0,
        made: 1,
        written: b"",
    },
];

#[test]
fn runs_within_a_number_of_reads(rt: HostRuntime) -> Result<(), Fail> {
    for row in &ROWS {
        check_row(&rt, rt.alloc(), row)?;
    }
    Ok(())
}

/// Runs over four lines, by single bytes, to a writer that fails at this write. Compares how often
/// the reader was read.
fn check_reads_to(rt: &impl Abort, alloc: Global, fails_at: u64, reads: u64) {
    let mut reader = SlowReader::new(THIRD_REFUSED, 1);
    let mut writer = SlowWriter::new(Vec::new(alloc), 1_000);
    writer.fails_at = fails_at;
    let query = Query::all(alloc);
    let reading = Reading::usual(Limits::usual(), &query);
    let mut sink = Output::new(&mut writer);
    let outcome = ran(alloc, &mut reader, &mut sink, &mut NoReports, &reading);
    check_at(rt, outcome.ended, End::WriteFault, "write", fails_at);
    check_at(rt, reader.reads, reads, "reads", fails_at);
}

/// The reader is not read after a failed write. The LF of the header is byte 141, and that of the
/// feature is byte 352.
#[test]
fn no_read_after_a_write_fault(rt: HostRuntime) {
    for (fails_at, reads) in &[(1, 141), (2, 141), (3, 352), (4, 352)] {
        check_reads_to(&rt, rt.alloc(), *fails_at, *reads);
    }
}

/// Rows of runs over a reader whose third read fails. A failure that the last read gives is
/// reported, and not that it was the last read.
const FAILING: [Row; 2] = [
    Row {
        name: "a last read that fails",
        text: HEADER,
        line_limit: 8_388_608,
        reads: 3,
        ended: End::ReadFault,
        lines: 0,
        kept: 0,
        made: 3,
        written: b"",
    },
    Row {
        name: "one read less",
        text: HEADER,
        line_limit: 8_388_608,
        reads: 2,
        ended: End::ReadLimit,
        lines: 0,
        kept: 0,
        made: 2,
        written: b"",
    },
];

#[test]
fn a_last_read_that_fails(rt: HostRuntime) -> Result<(), Fail> {
    for row in &FAILING {
        check_failing(&rt, rt.alloc(), 3, row)?;
    }
    Ok(())
}

#[test]
fn a_reader_without_end(rt: HostRuntime) -> Result<(), Fail> {
    let mut reader = EndlessReader {
        front: FIRST,
        reads: 0,
    };
    let row = Row {
        name: "a reader without end",
        text: b"",
        line_limit: 8_388_608,
        reads: 200,
        ended: End::ReadLimit,
        lines: 1,
        kept: 0,
        made: 200,
        written: FIRST,
    };
    let (outcome, written) = ran_by(&rt, rt.alloc(), &mut reader, &row)?;
    check_went(&rt, &outcome, &written, reader.reads, &row);
    Ok(())
}
