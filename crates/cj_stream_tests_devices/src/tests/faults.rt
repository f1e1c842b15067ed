//! Devices that fail: a prefix of the output is written, and the end says why.
use super::calls::{check_at, check_bytes};
use super::steps::{Opening, Step, check_steps};
use cj_budget::Limits;
use cj_spans::Reason;
use cj_stream::{End, LineSink, NoReports, Outcome, Output, Query, WriteSink};
use cj_stream_testkit::{
    BEYOND, FIRST, HEADER, Reading, STREAM, SlowReader, SlowWriter, copied, copied_to, joined, ran,
    ran_to, refused,
};
use std::alloc::Global;
use std::io::ErrorKind;
use std::process::Abort;
use std::test::Fail;

/// Runs over a text that is its own reader, to a sink.
fn ran_from_slice<S: LineSink>(alloc: Global, text: &[u8], sink: &mut S) -> Outcome {
    let query = Query::all(alloc);
    let reading = Reading::usual(Limits::usual(), &query);
    let mut reader = text;
    ran(alloc, &mut reader, sink, &mut NoReports, &reading)
}

#[test]
fn a_writer_that_takes_five_bytes_and_fails(rt: HostRuntime) -> Result<(), Fail> {
    let mut writer = SlowWriter::new(Vec::new(rt.alloc()), 5);
    writer.fails_at = 2;
    let mut sink = WriteSink::new(writer);
    let outcome = ran_from_slice(rt.alloc(), STREAM, &mut sink);
    check_at(&rt, outcome.ended, End::WriteFault, "five bytes", 0);
    check_at(&rt, outcome.lines, 0, "lines", 0);
    check_bytes(&rt, &sink.into_inner().bytes, b"{\"typ", "five bytes", 0);
    Ok(())
}

/// Copies to a writer that takes one byte per write, up to the write that fails.
fn check_failing_write(
    rt: &impl Abort,
    alloc: Global,
    text: &[u8],
    fails_at: u64,
    fault: ErrorKind,
) {
    let mut writer = SlowWriter::new(Vec::new(alloc), 1);
    writer.fails_at = fails_at;
    writer.fault = fault;
    let mut reader = SlowReader::new(text, 100);
    let outcome = copied_to(alloc, &mut reader, &mut writer, Limits::usual());
    check_at(rt, outcome.ended, End::WriteFault, "write", fails_at);
    let written = writer.bytes.as_slice();
    assert!(rt; written.len() <= text.len());
    check_at(rt, writer.writes, fails_at, "writes", fails_at);
    check_at(
        rt,
        written.len() as u64 + 1,
        fails_at,
        "bytes and one",
        fails_at,
    );
    check_bytes(rt, written, &text[..written.len()], "write", fails_at);
}

#[test]
fn a_writer_that_fails_at_each_call(rt: HostRuntime) {
    for fails_at in 1..=352u64 {
        check_failing_write(&rt, rt.alloc(), STREAM, fails_at, ErrorKind::Other);
        check_failing_write(&rt, rt.alloc(), STREAM, fails_at, ErrorKind::Interrupted);
    }
}

/// Copies to a writer that takes `step` bytes per write. It is not called again after it took none.
fn check_step(rt: &impl Abort, alloc: Global, text: &[u8], step: usize, ended: End, wanted: &[u8]) {
    let mut writer = SlowWriter::new(Vec::new(alloc), step);
    let mut reader = SlowReader::new(text, 1_000);
    let outcome = copied_to(alloc, &mut reader, &mut writer, Limits::usual());
    check_at(rt, outcome.ended, ended, "by steps", step as u64);
    check_bytes(rt, &writer.bytes, wanted, "by steps", step as u64);
    let writes = (wanted.len() as u64).max(1);
    check_at(rt, writer.writes, writes, "writes", step as u64);
}

#[test]
fn a_writer_that_takes_one_byte_and_one_that_takes_none(rt: HostRuntime) {
    check_step(&rt, rt.alloc(), STREAM, 1, End::Complete, STREAM);
    check_step(&rt, rt.alloc(), STREAM, 0, End::WriteFault, b"");
}

/// Runs over a reader that gives one byte per read, up to the read that fails.
fn check_failing_read(
    rt: &impl Abort,
    alloc: Global,
    text: &[u8],
    fails_at: u64,
    fault: ErrorKind,
) {
    let mut reader = SlowReader::new(text, 1);
    reader.fails_at = fails_at;
    reader.fault = fault;
    let (outcome, written) = copied(alloc, &mut reader, Limits::usual());
    let (lines, front) = match fails_at {
        0..=141 => (0, 0),
        142..=352 => (1, 141),
        _ => (2, 352),
    };
    assert!(rt; front <= text.len());
    check_at(rt, outcome.ended, End::ReadFault, "read", fails_at);
    check_at(rt, outcome.lines, lines, "lines", fails_at);
    check_at(rt, reader.reads, fails_at, "reads", fails_at);
    check_bytes(rt, &written, &text[..front], "read", fails_at);
}

#[test]
fn a_reader_that_fails_at_each_call(rt: HostRuntime) {
    for fails_at in 1..=353u64 {
        check_failing_read(&rt, rt.alloc(), STREAM, fails_at, ErrorKind::Other);
        check_failing_read(&rt, rt.alloc(), STREAM, fails_at, ErrorKind::Interrupted);
    }
}

#[test]
fn a_reader_that_fails_in_the_second_line(rt: HostRuntime) {
    let mut reader = SlowReader::new(STREAM, 145);
    reader.fails_at = 2;
    let (outcome, written) = copied(rt.alloc(), &mut reader, Limits::usual());
    check_at(&rt, outcome.ended, End::ReadFault, "second line", 2);
    check_at(&rt, outcome.lines, 1, "lines", 2);
    check_at(&rt, outcome.kept, 0, "kept", 2);
    check_bytes(&rt, &written, FIRST, "second line", 2);
}

/// Runs over a stream to a sink whose writer may fail.
fn run_to<S: LineSink>(alloc: Global, text: &[u8], sink: &mut S) -> End {
    ran_to(alloc, text, 1_000, sink).ended
}

/// Copies a header to a writer that takes nothing.
fn check_fault_of(rt: &impl Abort, alloc: Global, writer: &mut SlowWriter) -> Result<(), Fail> {
    let steps = [
        Step::Feed(HEADER, Ok(())),
        Step::Feed(b"\n", Err(End::WriteFault)),
        Step::Again(b"\n", End::WriteFault),
        Step::Counts(140, 0, 0),
        Step::Reported(0, ""),
    ];
    check_steps(
        rt,
        alloc,
        &Opening::usual(),
        &steps,
        &mut Output::new(writer),
    )
}

/// The engine calls the sink once. Another run calls it again.
#[test]
fn a_write_fault_stays_the_end(rt: HostRuntime) -> Result<(), Fail> {
    let mut writer = SlowWriter::new(Vec::new(rt.alloc()), 0);
    check_fault_of(&rt, rt.alloc(), &mut writer)?;
    check_at(&rt, writer.writes, 1, "writes", 0);
    let ended = run_to(rt.alloc(), HEADER, &mut Output::new(&mut writer));
    check_at(&rt, ended, End::WriteFault, "another run", 0);
    check_at(&rt, writer.writes, 2, "writes", 1);
    Ok(())
}

/// Feeds a stream to an engine whose writer takes one byte per write before the one that fails, or
/// takes none. The header has 141 bytes with its LF. The end is returned again, nothing changes,
/// and the writer is not called again.
fn check_fault_told_again(
    rt: &impl Abort,
    alloc: Global,
    text: &[u8],
    writer: &mut SlowWriter,
    at: u64,
) -> Result<(), Fail> {
    let steps = [
        Step::Feed(text, Err(End::WriteFault)),
        Step::Again(text, End::WriteFault),
        Step::Counts(0, u64::from(at > 141), 0),
        Step::Reported(0, ""),
    ];
    check_steps(
        rt,
        alloc,
        &Opening::usual(),
        &steps,
        &mut Output::new(&mut *writer),
    )?;
    let written = writer.bytes.as_slice();
    assert!(rt; written.len() <= text.len());
    check_at(rt, writer.writes, at, "writes", at);
    check_at(rt, written.len() as u64 + 1, at, "bytes and one", at);
    check_bytes(rt, written, &text[..written.len()], "write", at);
    Ok(())
}

#[test]
fn an_engine_tells_each_write_fault_again(rt: HostRuntime) -> Result<(), Fail> {
    for at in 1..=352u64 {
        let mut writer = SlowWriter::new(Vec::new(rt.alloc()), 1);
        writer.fails_at = at;
        check_fault_told_again(&rt, rt.alloc(), STREAM, &mut writer, at)?;
        let mut writer = SlowWriter::new(Vec::new(rt.alloc()), 1);
        writer.stops_at = at;
        check_fault_told_again(&rt, rt.alloc(), STREAM, &mut writer, at)?;
    }
    Ok(())
}

/// Runs over a stream to a sink whose writer fails in it, and then once more. Only contracts can
/// see how often a sink's writer failed. The test sees that a failure does not stay.
fn check_one_failure<S: LineSink>(rt: &impl Abort, alloc: Global, text: &[u8], sink: &mut S) {
    check_at(rt, run_to(alloc, text, sink), End::WriteFault, "first", 0);
    check_at(rt, run_to(alloc, text, sink), End::Complete, "second", 0);
}

/// Checks sinks with a writer that fails at this write. `front` was written before, and then the
/// whole stream is.
fn check_sinks(
    rt: &impl Abort,
    alloc: Global,
    text: &[u8],
    fails_at: u64,
    front: &[u8],
) -> Result<(), Fail> {
    let wanted = joined(alloc, &[front, text])?;
    let mut writer = SlowWriter::new(Vec::new(alloc), 1_000);
    writer.fails_at = fails_at;
    check_one_failure(rt, alloc, text, &mut Output::new(&mut writer));
    check_bytes(rt, &writer.bytes, &wanted, "lent", fails_at);
    let mut writer = SlowWriter::new(Vec::new(alloc), 1_000);
    writer.fails_at = fails_at;
    let mut sink = WriteSink::new(writer);
    check_one_failure(rt, alloc, text, &mut sink);
    check_bytes(rt, &sink.into_inner().bytes, &wanted, "owned", fails_at);
    Ok(())
}

#[test]
fn a_sink_takes_lines_after_a_failure(rt: HostRuntime) -> Result<(), Fail> {
    let text = &STREAM[..351];
    check_sinks(&rt, rt.alloc(), text, 1, b"")?;
    check_sinks(&rt, rt.alloc(), text, 2, HEADER)?;
    check_sinks(&rt, rt.alloc(), text, 3, FIRST)
}

/// An invalid feature is not put to the sink: its writer fails at the next write.
#[test]
fn a_refused_line_is_not_put(rt: HostRuntime) -> Result<(), Fail> {
    let text = joined(rt.alloc(), &[FIRST, BEYOND, b"\n"])?;
    let mut writer = SlowWriter::new(Vec::new(rt.alloc()), 1_000);
    writer.fails_at = 3;
    let ended = run_to(rt.alloc(), &text, &mut Output::new(&mut writer));
    let wanted = refused(2, 144, Reason::VertexIndex);
    check_at(&rt, ended, wanted, "refused", 0);
    check_at(&rt, writer.writes, 2, "writes", 0);
    check_bytes(&rt, &writer.bytes, FIRST, "refused", 0);
    Ok(())
}
