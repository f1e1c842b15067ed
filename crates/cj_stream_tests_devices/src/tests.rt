//! Tests of what no clause says: engines that are called step by step, and devices that fail.
//!
//! - `steps`: lists of calls of an engine.
//! - `engine_rows`, `long_lines` and `large`: inputs with their expected results.
//! - `dropped`: lines that are too long, step by step.
//! - `reads`: runs with a limit on the number of reads.
//! - `faults` and `long_devices`: readers and writers that fail.
//! - `lent` and `tally`: what sinks get.
//! - `reports`: what is reported of invalid lines, and when.
//!
//! All tests share `calls`. A function with many asserts takes long to prove, and so does one that
//! owns an engine. So a row is data, or one call of a function that checks it.
mod calls;
mod dropped;
mod engine_rows;
mod faults;
mod large;
mod lent;
mod long_devices;
mod long_lines;
mod reads;
mod reports;
mod steps;
mod tally;
