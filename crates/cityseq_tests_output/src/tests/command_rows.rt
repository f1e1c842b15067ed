//! Rows of the program: what it writes if a line is invalid, and if a device fails.
use super::calls::{check_at, check_bytes, check_written};
use cityseq_command::ask::{Ask, perform};
use cityseq_command::fault_lines::{status, write_fault_line};
use cityseq_testkit::{Written, commanded};
use cj_budget::Limits;
use cj_spans::Reason;
use cj_stream::{End, Options, Output, Query};
use cj_stream_testkit::{FEATURE, HEADER, SlowReader, SlowWriter, joined, refused};
use std::alloc::Global;
use std::io::Write;
use std::process::Abort;
use std::test::Fail;

#[test]
fn filter_copies_and_answers_zero(rt: HostRuntime) -> Result<(), Fail> {
    let text = joined(rt.alloc(), &[HEADER, b"\n", FEATURE, b"\n"])?;
    let written = commanded(rt.alloc(), &["filter"], &mut text.as_slice())?;
    check_written(&rt, &written, 0, &text, b"");
    Ok(())
}

#[test]
fn an_empty_input_has_no_header(rt: HostRuntime) -> Result<(), Fail> {
    let written = commanded(rt.alloc(), &["filter"], &mut b"".as_slice())?;
    let told = b"line 1, byte 0: 1 no header line\n";
    check_written(&rt, &written, 1, b"", told);
    Ok(())
}

/// Filters what a reader gives to a writer, and returns the status.
fn filter_to<W: Write, E: Write>(
    alloc: Global,
    limits: Limits,
    reader: &mut SlowReader,
    out: &mut W,
    err: &mut E,
) -> u8 {
    let ask = Ask::Filter(limits, Query::all(alloc), Options::new());
    perform(
        alloc,
        &ask,
        reader,
        &mut Output::new(out),
        &mut Output::new(err),
    )
}

/// Filters what a reader gives.
fn filtered(alloc: Global, limits: Limits, reader: &mut SlowReader) -> Written {
    let mut out = Vec::new(alloc);
    let mut err = Vec::new(alloc);
    let status = filter_to(alloc, limits, reader, &mut out, &mut err);
    Written { status, out, err }
}

/// Filters a header and a text. Only the header is written, since a line is invalid.
fn check_refused_line(
    rt: &impl Abort,
    alloc: Global,
    limits: Limits,
    text: &[u8],
    told: &[u8],
) -> Result<(), Fail> {
    let header = joined(alloc, &[HEADER, b"\n"])?;
    let text = joined(alloc, &[&header, text])?;
    let written = filtered(alloc, limits, &mut SlowReader::new(&text, 100));
    check_written(rt, &written, 1, &header, told);
    Ok(())
}

/// One digit more than the header has bytes.
const DIGITS: [u8; 141] = [b'1'; 141];

#[test]
fn a_long_line_and_bytes_that_are_no_text(rt: HostRuntime) -> Result<(), Fail> {
    let limits = Limits::new(140, 64)?;
    let text = joined(rt.alloc(), &[&DIGITS, b"\n{}\n"])?;
    let long = b"line 2, byte 140: 2 line too long\n";
    check_refused_line(&rt, rt.alloc(), limits, &text, long)?;
    let bytes = b"line 3, byte 1: 3 not UTF-8\n";
    check_refused_line(&rt, rt.alloc(), limits, b"\n1\xff\n{}\n", bytes)
}

#[test]
fn a_line_that_is_no_feature(rt: HostRuntime) -> Result<(), Fail> {
    let limits = Limits::usual();
    let told = b"line 3, byte 0: 10 member missing\n";
    check_refused_line(&rt, rt.alloc(), limits, b"\n{}\n", told)?;
    let told = b"line 2, byte 0: 12 wrong kind\n";
    check_refused_line(&rt, rt.alloc(), limits, b"[]\n{}\n", told)
}

#[test]
fn a_read_fault(rt: HostRuntime) -> Result<(), Fail> {
    let limits = Limits::usual();
    let text = joined(rt.alloc(), &[HEADER, b"\n", FEATURE, b"\n"])?;
    let header = joined(rt.alloc(), &[HEADER, b"\n"])?;
    let mut reader = SlowReader::new(&text, 200);
    reader.fails_at = 2;
    let written = filtered(rt.alloc(), limits, &mut reader);
    check_written(&rt, &written, 3, &header, b"read fault\n");
    Ok(())
}

/// Filters a text to a writer that fails, and compares what was written.
fn check_write_fault(
    rt: &impl Abort,
    alloc: Global,
    text: &[u8],
    mut out: SlowWriter,
    wanted: &[u8],
) -> Result<(), Fail> {
    let limits = Limits::usual();
    let mut err = Vec::new(alloc);
    let mut reader = SlowReader::new(text, 100);
    let status = filter_to(alloc, limits, &mut reader, &mut out, &mut err);
    let out = out.bytes;
    check_written(
        rt,
        &Written { status, out, err },
        4,
        wanted,
        b"write fault\n",
    );
    Ok(())
}

#[test]
fn a_write_fault(rt: HostRuntime) -> Result<(), Fail> {
    let out = SlowWriter::new(Vec::new(rt.alloc()), 0);
    check_write_fault(&rt, rt.alloc(), HEADER, out, b"")
}

/// Filters a text to a writer whose flush fails, and compares what was written.
fn check_failed_flush_of(
    rt: &impl Abort,
    alloc: Global,
    text: &[u8],
    wanted: &[u8],
) -> Result<(), Fail> {
    let mut out = SlowWriter::new(Vec::new(alloc), 1_000);
    out.flush_fails = true;
    check_write_fault(rt, alloc, text, out, wanted)
}

fn check_failed_flush(rt: &impl Abort, alloc: Global, text: &[u8]) -> Result<(), Fail> {
    check_failed_flush_of(rt, alloc, text, text)
}

#[test]
fn a_failed_flush_is_a_write_fault(rt: HostRuntime) -> Result<(), Fail> {
    check_failed_flush(&rt, rt.alloc(), HEADER)?;
    check_failed_flush(&rt, rt.alloc(), b"")
}

/// A read fails after the header, and then the flush fails: the flush is reported.
#[test]
fn a_failed_read_before_a_failed_flush(rt: HostRuntime) -> Result<(), Fail> {
    let text = joined(rt.alloc(), &[HEADER, b"\n", FEATURE, b"\n"])?;
    let header = joined(rt.alloc(), &[HEADER, b"\n"])?;
    let mut reader = SlowReader::new(&text, 200);
    reader.fails_at = 2;
    let mut out = SlowWriter::new(Vec::new(rt.alloc()), 1_000);
    out.flush_fails = true;
    let mut err = Vec::new(rt.alloc());
    let limits = Limits::usual();
    let status = filter_to(rt.alloc(), limits, &mut reader, &mut out, &mut err);
    let out = out.bytes;
    check_written(
        &rt,
        &Written { status, out, err },
        4,
        &header,
        b"write fault\n",
    );
    Ok(())
}

/// A line is invalid, and then the flush fails: the flush is reported.
#[test]
fn a_refused_line_before_a_failed_flush(rt: HostRuntime) -> Result<(), Fail> {
    let text = joined(rt.alloc(), &[HEADER, b"\n[]\n"])?;
    let header = joined(rt.alloc(), &[HEADER, b"\n"])?;
    check_failed_flush_of(&rt, rt.alloc(), &text, &header)
}

/// Filters nothing, with a standard error that fails at this write.
fn check_failing_error(rt: &impl Abort, alloc: Global, fails_at: u64) -> Result<(), Fail> {
    let limits = Limits::usual();
    let mut out = Vec::new(alloc);
    let mut err = SlowWriter::new(Vec::new(alloc), 100);
    err.fails_at = fails_at;
    let mut reader = SlowReader::new(b"", 100);
    let status = filter_to(alloc, limits, &mut reader, &mut out, &mut err);
    check_at(rt, status, 1, "status", fails_at);
    check_bytes(rt, &out, b"", "standard output", fails_at);
    Ok(())
}

#[test]
fn a_standard_error_that_fails_is_ignored(rt: HostRuntime) -> Result<(), Fail> {
    for fails_at in 1..=9 {
        check_failing_error(&rt, rt.alloc(), fails_at)?;
    }
    Ok(())
}

fn check_end(rt: &impl Abort, alloc: Global, end: End, code: u8, line: &[u8]) {
    let mut err = Vec::new(alloc);
    assert_eq!(rt; write_fault_line(&mut Output::new(&mut err), end), Ok(()));
    check_at(rt, status(end), code, "status", 0);
    check_bytes(rt, &err, line, "line", code.into());
}

#[test]
fn each_end_has_its_line_and_status(rt: HostRuntime) -> Result<(), Fail> {
    check_end(&rt, rt.alloc(), End::Complete, 0, b"");
    let end = refused(
        18_446_744_073_709_551_615,
        18_446_744_073_709_551_614,
        Reason::NotUtf8,
    );
    let line = b"line 18446744073709551615, byte 18446744073709551614: 3 not UTF-8\n";
    check_end(&rt, rt.alloc(), end, 1, line);
    check_end(&rt, rt.alloc(), End::ReadFault, 3, b"read fault\n");
    check_end(&rt, rt.alloc(), End::ReadLimit, 3, b"read limit\n");
    check_end(&rt, rt.alloc(), End::WriteFault, 4, b"write fault\n");
    check_end(&rt, rt.alloc(), End::Memory, 5, b"out of memory\n");
    Ok(())
}
