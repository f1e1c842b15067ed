//! Rows of standard output that counts its flushes. No clause can count them.
use super::calls::{check_at, check_bytes};
use cityseq_testkit::commanded_to;
use cj_stream_testkit::{FEATURE, HEADER, joined};
use std::alloc::{AllocError, Global};
use std::io::{Error, ErrorKind, Result as IoResult, Write};
use std::process::Abort;
use std::test::Fail;

/// Takes everything, counts its flushes, and fails at the flush number `fails_at`, from 1.
#[derive(Drop)]
struct FlushedWriter {
    bytes: Vec<u8>,
    flushes: u64,
    fails_at: u64,
}

impl Write for FlushedWriter {
    fn write(&mut self, buf: &[u8]) -> IoResult<usize> {
        self.bytes.extend_from_slice(buf)?;
        Ok(buf.len())
    }

    fn flush(&mut self) -> IoResult<()> {
        self.flushes = self.flushes.saturating_add(1);
        if self.flushes == self.fails_at {
            return Err(Error::from(ErrorKind::Other));
        }
        Ok(())
    }
}

/// Returns a header, two features, and this line.
fn with_line(alloc: Global, line: &[u8]) -> Result<Vec<u8>, AllocError> {
    joined(
        alloc,
        &[HEADER, b"\n", FEATURE, b"\n", FEATURE, b"\n", line, b"\n"],
    )
}

/// Runs these words over an input, and counts the flushes.
fn check_flushes(
    rt: &impl Abort,
    alloc: Global,
    arguments: &[&str],
    input: &[u8],
    status: u8,
    flushes: u64,
) -> Result<(), Fail> {
    let mut out = FlushedWriter {
        bytes: Vec::new(alloc),
        flushes: 0,
        fails_at: 0,
    };
    let mut err = Vec::new(alloc);
    let mut reader = input;
    let got = commanded_to(alloc, arguments, &mut reader, &mut out, &mut err)?;
    check_at(rt, got, status, "status", 0);
    check_at(rt, out.flushes, flushes, "flushes", status.into());
    Ok(())
}

#[test]
fn a_run_flushes_once(rt: HostRuntime) -> Result<(), Fail> {
    let good = with_line(rt.alloc(), FEATURE)?;
    check_flushes(&rt, rt.alloc(), &["check"], &good, 0, 1)?;
    check_flushes(&rt, rt.alloc(), &["filter"], &good, 0, 1)?;
    check_flushes(&rt, rt.alloc(), &["info"], &good, 0, 1)?;
    let bad = with_line(rt.alloc(), b"[]")?;
    check_flushes(&rt, rt.alloc(), &["filter"], &bad, 1, 1)?;
    check_flushes(&rt, rt.alloc(), &["filter", "--keep-going"], &bad, 1, 1)?;
    check_flushes(&rt, rt.alloc(), &["filter"], b"", 1, 1)
}

#[test]
fn help_flushes_once_and_wrong_words_never(rt: HostRuntime) -> Result<(), Fail> {
    check_flushes(&rt, rt.alloc(), &["--version"], b"", 0, 1)?;
    check_flushes(&rt, rt.alloc(), &["chekc"], b"", 2, 0)?;
    check_flushes(&rt, rt.alloc(), &["filter", "--bbox", "1"], b"", 2, 0)
}

/// Runs these words over an input, to a standard output whose first flush alone fails.
fn check_failed_first(
    rt: &impl Abort,
    alloc: Global,
    arguments: &[&str],
    input: &[u8],
    wanted: &[u8],
) -> Result<(), Fail> {
    let mut out = FlushedWriter {
        bytes: Vec::new(alloc),
        flushes: 0,
        fails_at: 1,
    };
    let mut err = Vec::new(alloc);
    let mut reader = input;
    let status = commanded_to(alloc, arguments, &mut reader, &mut out, &mut err)?;
    check_at(rt, status, 4, "status", 0);
    check_bytes(rt, &out.bytes, wanted, "standard output", 0);
    check_bytes(rt, &err, b"write fault\n", "standard error", 0);
    Ok(())
}

#[test]
fn a_first_flush_that_fails_is_told(rt: HostRuntime) -> Result<(), Fail> {
    let good = with_line(rt.alloc(), FEATURE)?;
    check_failed_first(&rt, rt.alloc(), &["filter"], &good, &good)?;
    let told = b"valid lines=4 features=3\n";
    check_failed_first(&rt, rt.alloc(), &["check"], &good, told)?;
    check_failed_first(&rt, rt.alloc(), &["filter"], b"", b"")
}
