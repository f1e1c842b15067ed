//! Tests of what no clause says: printed texts, exit statuses, and devices that fail. How a stream
//! is read is tested with the engine, in `cj_stream_tests_reading`.
//!
//! `command_rows`, `going`, `flushes` and `long_texts` have inputs with the expected output. They
//! share `calls`. A function with many asserts takes long to prove, and one with many calls does
//! not. So a row is one call of a function that checks it.
mod calls;
mod command_rows;
mod flushes;
mod going;
mod long_texts;
