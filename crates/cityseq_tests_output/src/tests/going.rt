//! Rows of the program with `--keep-going`.
use super::calls::{check_at, check_bytes, check_written};
use cityseq_command::ask::{Ask, perform};
use cityseq_testkit::{Written, commanded};
use cj_budget::Limits;
use cj_stream::{Options, Output, Query};
use cj_stream_testkit::{BEYOND, FEATURE, HEADER, SlowReader, SlowWriter, joined};
use std::alloc::{AllocError, Global};
use std::process::Abort;
use std::test::Fail;

/// The report of a feature with an index past its vertices, on line 3.
const BAD_TOLD: &[u8] = b"line 3, byte 144: 25 vertex index out of range\n";

/// A header with a version that is not read.
const OLD_HEADER: &[u8] =
    b"{\"type\":\"CityJSON\",\"version\":\"1.1\",\"transform\":{\"scale\":[0.001,0.001,0.001],\"translate\":[1000.0,2000.0,0.0]},\"CityObjects\":{},\"vertices\":[]}";

/// Runs these words over an input, and compares the output and the status.
fn check_going(
    rt: &impl Abort,
    alloc: Global,
    arguments: &[&str],
    input: &[u8],
    status: u8,
    out: &[u8],
    err: &[u8],
) -> Result<(), Fail> {
    let written = commanded(alloc, arguments, &mut SlowReader::new(input, 100))?;
    check_written(rt, &written, status, out, err);
    Ok(())
}

/// Returns a header, two valid features, and an invalid line between them.
fn with_bad_line(alloc: Global, bad: &[u8]) -> Result<Vec<u8>, AllocError> {
    joined(
        alloc,
        &[HEADER, b"\n", FEATURE, b"\n", bad, b"\n", FEATURE, b"\n"],
    )
}

/// Returns the same without the invalid line.
fn without_bad_line(alloc: Global) -> Result<Vec<u8>, AllocError> {
    joined(alloc, &[HEADER, b"\n", FEATURE, b"\n", FEATURE, b"\n"])
}

#[test]
fn a_bad_line_is_reported_and_left_out(rt: HostRuntime) -> Result<(), Fail> {
    let input = with_bad_line(rt.alloc(), BEYOND)?;
    let good = without_bad_line(rt.alloc())?;
    let words = ["filter", "--keep-going"];
    check_going(&rt, rt.alloc(), &words, &input, 1, &good, BAD_TOLD)?;
    let words = ["check", "--keep-going"];
    let told = b"invalid lines=4 features=2 refused=1\n";
    check_going(&rt, rt.alloc(), &words, &input, 1, told, BAD_TOLD)
}

#[test]
fn without_the_option_it_is_the_end(rt: HostRuntime) -> Result<(), Fail> {
    let input = with_bad_line(rt.alloc(), BEYOND)?;
    let front = joined(rt.alloc(), &[HEADER, b"\n", FEATURE, b"\n"])?;
    check_going(&rt, rt.alloc(), &["filter"], &input, 1, &front, BAD_TOLD)?;
    check_going(&rt, rt.alloc(), &["check"], &input, 1, b"", BAD_TOLD)
}

/// The rest of a line that is one byte too long is not a line.
#[test]
fn a_long_line_is_reported_and_left_out(rt: HostRuntime) -> Result<(), Fail> {
    let long = joined(rt.alloc(), &[FEATURE, b" "])?;
    let input = with_bad_line(rt.alloc(), &long)?;
    let good = without_bad_line(rt.alloc())?;
    let told = b"line 3, byte 210: 2 line too long\n";
    let words = ["filter", "--keep-going", "--line-limit=210"];
    check_going(&rt, rt.alloc(), &words, &input, 1, &good, told)?;
    let words = ["check", "--line-limit=210", "--keep-going"];
    let counts = b"invalid lines=4 features=2 refused=1\n";
    check_going(&rt, rt.alloc(), &words, &input, 1, counts, told)
}

/// An invalid first line is the end, and is reported as without the option.
#[test]
fn a_bad_header_is_the_end(rt: HostRuntime) -> Result<(), Fail> {
    let input = joined(rt.alloc(), &[OLD_HEADER, b"\n", FEATURE])?;
    let told = b"line 1, byte 29: 15 wrong version\n";
    let words = ["filter", "--keep-going"];
    check_going(&rt, rt.alloc(), &words, &input, 1, b"", told)?;
    let words = ["check", "--keep-going"];
    check_going(&rt, rt.alloc(), &words, &input, 1, b"", told)?;
    let told = b"line 1, byte 0: 1 no header line\n";
    check_going(&rt, rt.alloc(), &words, b"", 1, b"", told)
}

#[test]
fn a_valid_stream_is_no_other(rt: HostRuntime) -> Result<(), Fail> {
    let input = without_bad_line(rt.alloc())?;
    let words = ["filter", "--keep-going"];
    check_going(&rt, rt.alloc(), &words, &input, 0, &input, b"")?;
    let words = ["check", "--keep-going"];
    let told = b"valid lines=3 features=2\n";
    check_going(&rt, rt.alloc(), &words, &input, 0, told, b"")
}

/// Returns a header and later lines. The second is no object, the fourth has no members, and the
/// fifth is blank.
fn with_several(alloc: Global) -> Result<Vec<u8>, AllocError> {
    joined(alloc, &[HEADER, b"\n[]\n", FEATURE, b"\n{}\n \n", FEATURE])
}

/// The reports of these.
const SEVERAL_TOLD: &[u8] = b"line 2, byte 0: 12 wrong kind\nline 4, byte 0: 10 member missing\n";

#[test]
fn several_lines_are_reported_in_order(rt: HostRuntime) -> Result<(), Fail> {
    let input = with_several(rt.alloc())?;
    let good = joined(rt.alloc(), &[HEADER, b"\n", FEATURE, b"\n", FEATURE])?;
    let words = ["filter", "--keep-going"];
    check_going(&rt, rt.alloc(), &words, &input, 1, &good, SEVERAL_TOLD)?;
    let words = ["check", "--keep-going"];
    let told = b"invalid lines=6 features=2 refused=2\n";
    check_going(&rt, rt.alloc(), &words, &input, 1, told, SEVERAL_TOLD)
}

#[test]
fn a_query_is_asked_of_the_good_lines(rt: HostRuntime) -> Result<(), Fail> {
    let input = with_several(rt.alloc())?;
    let header = joined(rt.alloc(), &[HEADER, b"\n"])?;
    let words = ["filter", "--id", "other", "--keep-going"];
    check_going(&rt, rt.alloc(), &words, &input, 1, &header, SEVERAL_TOLD)
}

// ---- devices that fail

/// Copies what a reader gives, and goes on after invalid lines.
fn going_to(
    alloc: Global,
    reader: &mut SlowReader,
    out: &mut SlowWriter,
    err: &mut SlowWriter,
) -> u8 {
    let options = Options::new().keep_going(true);
    let ask = Ask::Filter(Limits::usual(), Query::all(alloc), options);
    perform(
        alloc,
        &ask,
        reader,
        &mut Output::new(out),
        &mut Output::new(err),
    )
}

/// Does the same with a text, to these devices.
fn going_over(alloc: Global, text: &[u8], mut out: SlowWriter, mut err: SlowWriter) -> Written {
    let status = going_to(alloc, &mut SlowReader::new(text, 100), &mut out, &mut err);
    let out = out.bytes;
    let err = err.bytes;
    Written { status, out, err }
}

/// Returns a device that takes everything, and fails at this write, from 1.
fn failing(alloc: Global, fails_at: u64) -> SlowWriter {
    let mut writer = SlowWriter::new(Vec::new(alloc), 1_000);
    writer.fails_at = fails_at;
    writer
}

/// Copies a text with two invalid lines, while standard error fails at this write. Compares what it
/// took. Everything else is as without the failure.
fn check_failing_error(
    rt: &impl Abort,
    alloc: Global,
    fails_at: u64,
    told: &[u8],
) -> Result<(), Fail> {
    let input = with_several(alloc)?;
    let good = joined(alloc, &[HEADER, b"\n", FEATURE, b"\n", FEATURE])?;
    let written = going_over(alloc, &input, failing(alloc, 0), failing(alloc, fails_at));
    check_at(rt, written.status, 1, "status", fails_at);
    check_bytes(rt, &written.out, &good, "standard output", fails_at);
    check_bytes(rt, &written.err, told, "standard error", fails_at);
    Ok(())
}

/// A line has nine parts, and each is written by a call. What comes after the one that fails is not
/// written.
#[test]
fn a_standard_error_that_fails_at_a_report(rt: HostRuntime) -> Result<(), Fail> {
    let first = b"line 2, byte 0: 12 wrong kind\n";
    check_failing_error(&rt, rt.alloc(), 1, b"")?;
    check_failing_error(&rt, rt.alloc(), 2, b"line ")?;
    check_failing_error(&rt, rt.alloc(), 9, b"line 2, byte 0: 12 wrong kind")?;
    check_failing_error(&rt, rt.alloc(), 10, first)?;
    let second = b"line 2, byte 0: 12 wrong kind\nline 4, byte ";
    check_failing_error(&rt, rt.alloc(), 13, second)?;
    check_failing_error(&rt, rt.alloc(), 19, SEVERAL_TOLD)
}

/// After a report that was not written whole, the end is not written either. Its status is
/// returned.
#[test]
fn a_standard_error_that_fails_before_the_end(rt: HostRuntime) -> Result<(), Fail> {
    let input = with_several(rt.alloc())?;
    let out = failing(rt.alloc(), 1);
    let written = going_over(rt.alloc(), &input, out, failing(rt.alloc(), 0));
    check_written(&rt, &written, 4, b"", b"write fault\n");
    let out = failing(rt.alloc(), 4);
    let written = going_over(rt.alloc(), &input, out, failing(rt.alloc(), 5));
    let front = joined(rt.alloc(), &[HEADER, b"\n", FEATURE])?;
    check_written(&rt, &written, 4, &front, b"line 2, byte 0");
    Ok(())
}

#[test]
fn a_failed_flush_after_a_report(rt: HostRuntime) -> Result<(), Fail> {
    let input = with_bad_line(rt.alloc(), BEYOND)?;
    let good = without_bad_line(rt.alloc())?;
    let told = joined(rt.alloc(), &[BAD_TOLD, b"write fault\n"])?;
    let mut out = failing(rt.alloc(), 0);
    out.flush_fails = true;
    let written = going_over(rt.alloc(), &input, out, failing(rt.alloc(), 0));
    check_written(&rt, &written, 4, &good, &told);
    Ok(())
}

/// The fifth write is that of the feature after the invalid line.
#[test]
fn a_write_fault_after_a_report(rt: HostRuntime) -> Result<(), Fail> {
    let input = with_bad_line(rt.alloc(), BEYOND)?;
    let front = joined(rt.alloc(), &[HEADER, b"\n", FEATURE, b"\n"])?;
    let told = joined(rt.alloc(), &[BAD_TOLD, b"write fault\n"])?;
    let out = failing(rt.alloc(), 5);
    let written = going_over(rt.alloc(), &input, out, failing(rt.alloc(), 0));
    check_written(&rt, &written, 4, &front, &told);
    Ok(())
}

#[test]
fn a_read_fault_after_a_report(rt: HostRuntime) -> Result<(), Fail> {
    let input = with_bad_line(rt.alloc(), BEYOND)?;
    let front = joined(rt.alloc(), &[HEADER, b"\n", FEATURE, b"\n"])?;
    let told = joined(rt.alloc(), &[BAD_TOLD, b"read fault\n"])?;
    let mut reader = SlowReader::new(&input, 600);
    reader.fails_at = 2;
    let mut out = failing(rt.alloc(), 0);
    let mut err = failing(rt.alloc(), 0);
    let status = going_to(rt.alloc(), &mut reader, &mut out, &mut err);
    check_at(&rt, status, 3, "status", 0);
    check_bytes(&rt, &out.bytes, &front, "standard output", 0);
    check_bytes(&rt, &err.bytes, &told, "standard error", 0);
    Ok(())
}

/// Checks input from a reader that fails at its second read, after an invalid line or none. Nothing
/// is written about the number of lines before.
fn check_failing_reader(
    rt: &impl Abort,
    alloc: Global,
    arguments: &[&str],
    input: &[u8],
    told: &[u8],
) -> Result<(), Fail> {
    let mut reader = SlowReader::new(input, 600);
    reader.fails_at = 2;
    let written = commanded(alloc, arguments, &mut reader)?;
    check_written(rt, &written, 3, b"", told);
    Ok(())
}

#[test]
fn a_read_fault_leaves_nothing_to_count(rt: HostRuntime) -> Result<(), Fail> {
    let good = joined(rt.alloc(), &[HEADER, b"\n", FEATURE, b"\n"])?;
    let fault = b"read fault\n";
    check_failing_reader(&rt, rt.alloc(), &["check"], &good, fault)?;
    check_failing_reader(&rt, rt.alloc(), &["info"], &good, fault)?;
    check_failing_reader(&rt, rt.alloc(), &["check", "--keep-going"], &good, fault)?;
    let input = with_bad_line(rt.alloc(), BEYOND)?;
    let told = joined(rt.alloc(), &[BAD_TOLD, fault])?;
    let words = ["check", "--keep-going"];
    check_failing_reader(&rt, rt.alloc(), &words, &input, &told)
}

/// Checks a text with an invalid line, and writes the result to a device that fails at this write,
/// or at 0 in the flush.
fn check_failing_text(
    rt: &impl Abort,
    alloc: Global,
    fails_at: u64,
    wanted: &[u8],
) -> Result<(), Fail> {
    let input = with_bad_line(alloc, BEYOND)?;
    let told = joined(alloc, &[BAD_TOLD, b"write fault\n"])?;
    let mut out = failing(alloc, fails_at);
    out.flush_fails = fails_at == 0;
    let mut err = failing(alloc, 0);
    let ask = Ask::Check(Limits::usual(), Options::new().keep_going(true));
    let status = perform(
        alloc,
        &ask,
        &mut SlowReader::new(&input, 100),
        &mut Output::new(&mut out),
        &mut Output::new(&mut err),
    );
    check_at(rt, status, 4, "status", fails_at);
    check_bytes(rt, &out.bytes, wanted, "standard output", fails_at);
    check_bytes(rt, &err.bytes, &told, "standard error", fails_at);
    Ok(())
}

#[test]
fn a_text_that_cannot_be_written_after_a_report(rt: HostRuntime) -> Result<(), Fail> {
    check_failing_text(&rt, rt.alloc(), 1, b"")?;
    check_failing_text(&rt, rt.alloc(), 4, b"invalid lines=4 features=")?;
    let whole = b"invalid lines=4 features=2 refused=1\n";
    check_failing_text(&rt, rt.alloc(), 0, whole)
}
