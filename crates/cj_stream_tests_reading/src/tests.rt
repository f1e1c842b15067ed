//! Tests of what no clause says: worked examples.
//!
//! Inputs with their expected results: `rows`, `blank_lines` and `order`. `cuts` reads a stream
//! with every cut.
//!
//! States and calls:
//!
//! - `states`: rows through the two states of a stream.
//! - `turns`: what the states return, call by call. `turn_steps` takes lists of their calls.
//! - `line_pieces`: what comes after a header, in pieces.
//!
//! Lines that reading goes on after: `going` has streams with invalid lines, with every cut.
//!
//! All tests share `calls`. A function with many asserts takes long to prove, and so does one that
//! owns an engine. So a row is data, or one call of a function that checks it.
mod blank_lines;
mod calls;
mod cuts;
mod going;
mod line_pieces;
mod order;
mod rows;
mod states;
mod turn_steps;
mod turns;
