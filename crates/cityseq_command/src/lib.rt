//! The commands of the program `cityseq`. It reads a CityJSONSeq stream from standard input, once
//! and in bounded memory. It checks whether the stream is valid (`check`), copies the header and
//! the selected features, byte for byte (`filter`), or writes a summary (`info`).
//!
//! A command line goes one way down, and each file calls those below it:
//!
//! - `command` does what the words ask for, or declines it.
//! - `asking` makes an `Ask` from the words, with its limits and its query.
//! - `words` lets `clap` read the words, and returns the limits and texts of the options.
//! - `ask` does what is asked, with the engine of `cj_stream`, over standard input and output.
//! - `summary` writes what `check` and `info` print about a stream.
//! - `decline` writes why nothing is done: help, wrong words, or an invalid query.
//! - `report_writer` has the sink that writes reports of invalid lines to standard error, as they
//!   come.
//! - `fault_lines` has the lines for standard error, and the exit statuses.
//! - `stack_limit` reads how large the stack of the process may get.
//!
//! `option_laws`, `word_laws`, `summary_laws` and `end_laws` are worked examples of the
//! definitions, as theorems. The rows that run are in the crates `cityseq_tests_output`,
//! `cityseq_tests_options` and `cityseq_tests_queries`.
#![tactic(auto)]

pub mod ask;
mod asking;
pub mod command;
pub mod decline;
mod end_laws;
pub mod fault_lines;
mod option_laws;
mod report_writer;
pub mod stack_limit;
mod summary;
mod summary_laws;
mod word_laws;
mod words;

pub use asking::{NoAsk, read_ask};
