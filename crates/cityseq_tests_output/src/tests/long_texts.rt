//! Texts longer than each buffer, long words, and the default limits.
use super::calls::{check_at, check_bytes, check_written};
use cityseq_command::ask::{Ask, perform};
use cityseq_command::command::OUTPUT_BUFFER;
use cityseq_testkit::commanded;
use cj_budget::Limits;
use cj_stream::{Options, Output, Query};
use cj_stream_testkit::{FEATURE, HEADER, SlowReader, SlowWriter, joined};
use std::alloc::Global;
use std::io::BufWriter;
use std::process::Abort;
use std::test::Fail;

/// Returns a header and this number of features.
fn many_features(alloc: Global, features: usize) -> Result<Vec<u8>, Fail> {
    let mut text = joined(alloc, &[HEADER, b"\n"])?;
    for _i in 0..features {
        text.extend_from_slice(FEATURE)?;
        text.push(b'\n')?;
    }
    Ok(text)
}

/// Filters a text to a buffer over a writer, as the program does, and returns the status.
fn filter_through(
    alloc: Global,
    text: &[u8],
    writer: &mut SlowWriter,
    err: &mut Vec<u8>,
) -> Result<u8, Fail> {
    let ask = Ask::Filter(Limits::usual(), Query::all(alloc), Options::new());
    let mut reader = SlowReader::new(text, 10_000);
    let buffer = BufWriter::with_capacity(alloc, OUTPUT_BUFFER, writer)?;
    Ok(perform(
        alloc,
        &ask,
        &mut reader,
        &mut Output::new(buffer),
        &mut Output::new(err),
    ))
}

/// Filters a text to a writer that takes `step` bytes per write, and fails at this write, or at 0
/// in the flush.
fn check_fault(
    rt: &impl Abort,
    alloc: Global,
    text: &[u8],
    step: usize,
    fails_at: u64,
) -> Result<(), Fail> {
    let mut writer = SlowWriter::new(Vec::new(alloc), step);
    writer.fails_at = fails_at;
    writer.flush_fails = fails_at == 0;
    let mut err = Vec::new(alloc);
    let status = filter_through(alloc, text, &mut writer, &mut err)?;
    check_at(rt, status, 4, "status", fails_at);
    check_bytes(rt, &err, b"write fault\n", "standard error", fails_at);
    let written = writer.bytes.as_slice();
    assert!(rt; written.len() <= text.len());
    check_bytes(rt, written, &text[..written.len()], "front", fails_at);
    Ok(())
}

#[test]
fn a_writer_that_fails_behind_a_buffer(rt: HostRuntime) -> Result<(), Fail> {
    let text = many_features(rt.alloc(), 1_000)?;
    for fails_at in 0..=3 {
        check_fault(&rt, rt.alloc(), &text, 65_536, fails_at)?;
        check_fault(&rt, rt.alloc(), &text, 1_000, fails_at)?;
    }
    check_fault(&rt, rt.alloc(), &text, 1_000, 212)?;
    check_fault(&rt, rt.alloc(), &text, 1, 65_537)?;
    check_fault(&rt, rt.alloc(), HEADER, 1, 1)?;
    check_fault(&rt, rt.alloc(), HEADER, 1, 140)
}

/// Filters a text to a writer that takes `step` bytes per write.
fn check_whole(rt: &impl Abort, alloc: Global, text: &[u8], step: usize) -> Result<(), Fail> {
    let mut writer = SlowWriter::new(Vec::new(alloc), step);
    let mut err = Vec::new(alloc);
    let status = filter_through(alloc, text, &mut writer, &mut err)?;
    check_at(rt, status, 0, "status", step as u64);
    check_bytes(rt, &err, b"", "standard error", step as u64);
    check_bytes(rt, &writer.bytes, text, "whole", step as u64);
    Ok(())
}

#[test]
fn a_writer_that_takes_a_few_bytes_of_a_long_text(rt: HostRuntime) -> Result<(), Fail> {
    let text = many_features(rt.alloc(), 1_000)?;
    for step in [1, 1_000, 8_192, 65_536, 1_000_000] {
        check_whole(&rt, rt.alloc(), &text, step)?;
    }
    Ok(())
}

// ---- long words

/// Returns this number of texts with a comma after each, and a last one.
fn listed(alloc: Global, text: &str, times: usize, last: &str) -> Result<String, Fail> {
    let mut all = String::new(alloc);
    for _i in 0..times {
        all.push_str(text)?;
        all.push_str(",")?;
    }
    all.push_str(last)?;
    Ok(all)
}

/// Filters a header and a feature with an option, and checks whether the feature is kept.
fn check_kept(
    rt: &impl Abort,
    alloc: Global,
    option: &str,
    word: &str,
    keeps: bool,
) -> Result<(), Fail> {
    let header = joined(alloc, &[HEADER, b"\n"])?;
    let input = joined(alloc, &[&header, FEATURE, b"\n"])?;
    let mut reader = SlowReader::new(&input, 1_000);
    let written = commanded(alloc, &["filter", option, word], &mut reader)?;
    check_written(rt, &written, 0, if keeps { &input } else { &header }, b"");
    Ok(())
}

/// Checks an option with very many texts: the feature has the last one, or none.
fn check_last(
    rt: &impl Abort,
    alloc: Global,
    option: &str,
    other: &str,
    its: &str,
) -> Result<(), Fail> {
    check_kept(rt, alloc, option, &listed(alloc, other, 3_000, its)?, true)?;
    check_kept(
        rt,
        alloc,
        option,
        &listed(alloc, other, 3_000, other)?,
        false,
    )
}

#[test]
fn a_query_of_many_texts(rt: HostRuntime) -> Result<(), Fail> {
    check_last(&rt, rt.alloc(), "--id", "b2", "b1")?;
    check_last(&rt, rt.alloc(), "--type", "Road", "Building")?;
    check_last(&rt, rt.alloc(), "--lod", "2", "2.2")?;
    let unknown = listed(rt.alloc(), "Road", 3_000, "Shed")?;
    let mut reader = SlowReader::new(HEADER, 10);
    let arguments = ["filter", "--type", unknown.as_str()];
    let written = commanded(rt.alloc(), &arguments, &mut reader)?;
    check_written(&rt, &written, 2, b"", b"unknown object type\n");
    check_at(&rt, reader.reads, 0, "reads", 0);
    Ok(())
}

/// A number with this many digits after its point is no multiple of 10^-18 if the last is not 0.
#[test]
fn a_query_by_a_long_box(rt: HostRuntime) -> Result<(), Fail> {
    let zeros = listed(rt.alloc(), "", 0, "0,0,1001,2001.")?;
    let mut bounds = zeros;
    for _i in 0..10_000 {
        bounds.push_str("0")?;
    }
    check_kept(&rt, rt.alloc(), "--bbox", &bounds, true)?;
    bounds.push_str("1")?;
    let mut reader = SlowReader::new(HEADER, 10);
    let arguments = ["filter", "--bbox", bounds.as_str()];
    let written = commanded(rt.alloc(), &arguments, &mut reader)?;
    check_written(&rt, &written, 2, b"", b"box number out of range\n");
    Ok(())
}

// ---- the usual limits

/// Returns bytes that are all the same.
fn alike(alloc: Global, byte: u8, count: usize) -> Result<Vec<u8>, Fail> {
    let mut bytes = Vec::new(alloc);
    for _i in 0..count {
        bytes.push(byte)?;
    }
    Ok(bytes)
}

/// Checks that each command judges a header and a line under the default limits, and reports this.
fn check_refused(rt: &impl Abort, alloc: Global, line: &[u8], told: &[u8]) -> Result<(), Fail> {
    let header = joined(alloc, &[HEADER, b"\n"])?;
    let input = joined(alloc, &[&header, line])?;
    for (command, out) in [
        ("check", b"".as_slice()),
        ("filter", header.as_slice()),
        ("info", b"".as_slice()),
    ] {
        let mut reader = SlowReader::new(&input, 10_000);
        let written = commanded(alloc, &[command], &mut reader)?;
        check_written(rt, &written, 1, out, told);
    }
    Ok(())
}

/// 8,388,608 bytes and 64 open containers are the most.
#[test]
fn the_usual_limits(rt: HostRuntime) -> Result<(), Fail> {
    let told = b"line 2, byte 8388608: 2 line too long\n";
    check_refused(&rt, rt.alloc(), &alike(rt.alloc(), b' ', 8_388_609)?, told)?;
    let told = b"line 2, byte 64: 5 nested too deep\n";
    check_refused(&rt, rt.alloc(), &alike(rt.alloc(), b'[', 65)?, told)?;
    let told = b"line 2, byte 64: 4 syntax\n";
    check_refused(&rt, rt.alloc(), &alike(rt.alloc(), b'[', 64)?, told)
}

#[test]
fn a_blank_line_of_the_usual_limit(rt: HostRuntime) -> Result<(), Fail> {
    let blank = alike(rt.alloc(), b' ', 8_388_608)?;
    let input = joined(rt.alloc(), &[HEADER, b"\n", &blank])?;
    let mut reader = SlowReader::new(&input, 10_000);
    let written = commanded(rt.alloc(), &["check"], &mut reader)?;
    check_written(&rt, &written, 0, b"valid lines=2 features=0\n", b"");
    Ok(())
}
