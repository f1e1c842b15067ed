//! The program `cityseq`: it takes its words from the process, and does what they ask for, over
//! standard input, output and error. The crate `cityseq_command` has the commands.
#![tactic(auto)]

mod process;

use cityseq_command::command::{OUTPUT_BUFFER, command};
use cityseq_command::decline::write_no_memory;
use cityseq_command::fault_lines::{WRONG_WORDS, status, write_text};
use cityseq_command::read_ask;
use cj_stream::{End, Output};
use process::{Hindrance, Process};
use std::alloc::{AllocError, Global};
use std::env;
use std::io::{BufWriter, ErrorKind};
use std::process::ExitCode;

/// Why the words of the command line are not available.
enum WordsFault {
    /// An argument is not UTF-8, or there is none.
    NoWords,
    /// An allocation failed.
    Memory,
}

/// Returns the words of the command line. The first is the program's name.
fn take_words(rt: &HostRuntime) -> Result<Vec<String>, WordsFault> {
    let arguments = match env::args(rt) {
        Ok(arguments) => arguments,
        Err(fault) if fault.kind() == ErrorKind::OutOfMemory => return Err(WordsFault::Memory),
        Err(_) => return Err(WordsFault::NoWords),
    };
    arguments
        .collect(rt.alloc())
        .map_err(|_: AllocError| WordsFault::Memory)
}

/// Returns why the run that the words ask for does not begin, although they are right.
fn hindrance(rt: &HostRuntime, alloc: Global, words: &[String]) -> Option<Hindrance> {
    let process = Process::of(rt);
    if process.is_free() {
        return None;
    }
    match read_ask(alloc, words) {
        Ok(ask) => process.hindrance(&ask),
        Err(_) => None,
    }
}

/// Returns the exit status of a run that does not begin.
fn status_of(hindrance: &Hindrance) -> u8 {
    match hindrance {
        Hindrance::OneFile => WRONG_WORDS,
        Hindrance::SmallStack => status(End::Memory),
    }
}

/// Runs the command with the words and the devices of the process, and returns the exit status.
fn run_program(rt: &HostRuntime, alloc: Global) -> u8 {
    let mut err = Output::new(rt.stderr());
    let words = match take_words(rt) {
        Ok(words) => words,
        Err(WordsFault::NoWords) => return WRONG_WORDS,
        Err(WordsFault::Memory) => return write_no_memory(&mut err),
    };
    if let Some(hindrance) = hindrance(rt, alloc, &words) {
        let _ = write_text(&mut err, hindrance.text());
        return status_of(&hindrance);
    }
    let Ok(buffer) = BufWriter::with_capacity(alloc, OUTPUT_BUFFER, rt.stdout()) else {
        return write_no_memory(&mut err);
    };
    let mut out = Output::new(buffer);
    command(alloc, &words, &mut rt.stdin(), &mut out, &mut err)
}

fn main(rt: HostRuntime) -> ExitCode {
    ExitCode::from(run_program(&rt, rt.alloc()))
}
