//! Devices that are slow or that fail, with streams longer than each buffer.
use super::calls::{check_at, check_bytes};
use super::long_lines::{long_text, many_features};
use cj_budget::Limits;
use cj_stream::End;
use cj_stream_testkit::{SlowReader, SlowWriter, copied, copied_to};
use std::alloc::Global;
use std::process::Abort;
use std::test::Fail;

/// Copies a stream to a writer that takes at most `step` bytes per write, up to the write that
/// fails. A prefix of the stream is written.
fn check_front(
    rt: &impl Abort,
    alloc: Global,
    text: &[u8],
    step: usize,
    fails_at: u64,
) -> Result<u64, Fail> {
    let mut writer = SlowWriter::new(Vec::new(alloc), step);
    writer.fails_at = fails_at;
    let mut reader = SlowReader::new(text, 10_000);
    let limits = Limits::usual();
    let outcome = copied_to(alloc, &mut reader, &mut writer, limits);
    check_at(rt, outcome.ended, End::WriteFault, "write", fails_at);
    check_at(rt, writer.writes, fails_at, "writes", fails_at);
    let written = writer.bytes.as_slice();
    assert!(rt; written.len() <= text.len());
    check_bytes(rt, written, &text[..written.len()], "write", fails_at);
    Ok(written.len() as u64)
}

/// A writer that takes one byte per write has taken one byte less than it had calls.
fn check_bytewise(rt: &impl Abort, alloc: Global, text: &[u8], fails_at: u64) -> Result<(), Fail> {
    let written = check_front(rt, alloc, text, 1, fails_at)?;
    check_at(
        rt,
        written.saturating_add(1),
        fails_at,
        "bytes and one",
        fails_at,
    );
    Ok(())
}

/// A header and a thousand features have 211,141 bytes.
#[test]
fn a_writer_that_fails_far_in_many_lines(rt: HostRuntime) -> Result<(), Fail> {
    let text = many_features(rt.alloc(), 1_000)?;
    for fails_at in [1, 142, 8_192, 8_193, 65_536, 65_537, 200_000, 211_141u64] {
        check_bytewise(&rt, rt.alloc(), &text, fails_at)?;
    }
    let _ = check_front(&rt, rt.alloc(), &text, 100, 2_000)?;
    let _ = check_front(&rt, rt.alloc(), &text, 8_192, 900)?;
    Ok(())
}

#[test]
fn a_writer_that_fails_far_in_one_line(rt: HostRuntime) -> Result<(), Fail> {
    let text = long_text(rt.alloc(), 200_000)?;
    for fails_at in [8_192, 65_536, 65_537, 131_073, 200_141, 200_142u64] {
        check_bytewise(&rt, rt.alloc(), &text, fails_at)?;
    }
    let _ = check_front(&rt, rt.alloc(), &text, 8_192, 20)?;
    Ok(())
}

/// Copies a stream to a writer that takes at most `step` bytes per write, and does not fail.
fn check_whole(rt: &impl Abort, alloc: Global, text: &[u8], step: usize) -> Result<(), Fail> {
    let mut writer = SlowWriter::new(Vec::new(alloc), step);
    let mut reader = SlowReader::new(text, 10_000);
    let limits = Limits::usual();
    let outcome = copied_to(alloc, &mut reader, &mut writer, limits);
    check_at(rt, outcome.ended, End::Complete, "whole", step as u64);
    check_bytes(rt, &writer.bytes, text, "whole", step as u64);
    Ok(())
}

#[test]
fn a_writer_that_takes_a_few_bytes_of_a_long_text(rt: HostRuntime) -> Result<(), Fail> {
    let lines = many_features(rt.alloc(), 1_000)?;
    let line = long_text(rt.alloc(), 200_000)?;
    for step in [1, 7, 211, 8_191, 65_537] {
        check_whole(&rt, rt.alloc(), &lines, step)?;
        check_whole(&rt, rt.alloc(), &line, step)?;
    }
    Ok(())
}

/// Runs over a reader that gives 100 bytes per read, up to the read that fails. Whole lines are
/// written.
fn check_failing_read(
    rt: &impl Abort,
    alloc: Global,
    text: &[u8],
    fails_at: u64,
    lines: u64,
    written: usize,
) -> Result<(), Fail> {
    let mut reader = SlowReader::new(text, 100);
    reader.fails_at = fails_at;
    let (outcome, bytes) = copied(alloc, &mut reader, Limits::usual());
    check_at(rt, outcome.ended, End::ReadFault, "read", fails_at);
    check_at(rt, outcome.lines, lines, "lines", fails_at);
    assert!(rt; written <= text.len());
    check_bytes(rt, &bytes, &text[..written], "read", fails_at);
    Ok(())
}

/// After 1,000 reads of 100 bytes there are a header of 141 bytes and 473 features of 211. After
/// 2,111 reads of 100 bytes only the last 41 bytes are missing.
#[test]
fn a_reader_that_fails_far_in_many_lines(rt: HostRuntime) -> Result<(), Fail> {
    let text = many_features(rt.alloc(), 1_000)?;
    check_failing_read(&rt, rt.alloc(), &text, 1_001, 474, 99_944)?;
    check_failing_read(&rt, rt.alloc(), &text, 2_112, 1_000, 210_930)?;
    check_failing_read(&rt, rt.alloc(), &text, 2_113, 1_001, 211_141)
}

#[test]
fn a_reader_that_fails_far_in_one_line(rt: HostRuntime) -> Result<(), Fail> {
    let text = long_text(rt.alloc(), 200_000)?;
    check_failing_read(&rt, rt.alloc(), &text, 1_001, 1, 141)
}
