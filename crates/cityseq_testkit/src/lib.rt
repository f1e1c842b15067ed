//! What the tests of the program share: a run of a command over a reader, and what it wrote. Those
//! tests are in crates of their own, `cityseq_tests_output`, `cityseq_tests_options` and
//! `cityseq_tests_queries`, which are proved beside each other. Lines of streams and devices that
//! fail are in `cj_stream_testkit`.
//!
//! ```text
//! let written = commanded(alloc, &["filter", "--id", "b1"], &mut reader)?;
//! ```
#![tactic(auto)]

use cityseq_command::command::command;
use cj_stream::Output;
use std::alloc::{AllocError, Global};
use std::io::{Read, Write};

/// What the program wrote to standard output and to standard error, and its status.
#[derive(Drop)]
pub struct Written {
    pub status: u8,
    pub out: Vec<u8>,
    pub err: Vec<u8>,
}

/// Returns the program's name and these words.
fn words(alloc: Global, parts: &[&str]) -> Result<Vec<String>, AllocError> {
    let mut words = Vec::new(alloc);
    words.push(String::from_str(alloc, "cityseq")?)?;
    for part in parts {
        words.push(String::from_str(alloc, part)?)?;
    }
    Ok(words)
}

/// Runs the command that these words after the program's name ask for, and returns the status. It
/// has no contract, since a test compares values when it runs.
pub fn commanded_to<R: Read, W: Write, E: Write>(
    alloc: Global,
    arguments: &[&str],
    reader: &mut R,
    out: &mut W,
    err: &mut E,
) -> Result<u8, AllocError> {
    let arguments = words(alloc, arguments)?;
    Ok(command(
        alloc,
        &arguments,
        reader,
        &mut Output::new(out),
        &mut Output::new(err),
    ))
}

/// Does the same, and returns what was written too.
pub fn commanded<R: Read>(
    alloc: Global,
    arguments: &[&str],
    reader: &mut R,
) -> Result<Written, AllocError> {
    let mut out = Vec::new(alloc);
    let mut err = Vec::new(alloc);
    let status = commanded_to(alloc, arguments, reader, &mut out, &mut err)?;
    Ok(Written { status, out, err })
}
