//! Tests of what no clause says: which words select which features.
//!
//! `queries` has ids, types, LoDs and boxes, and `choices` has `--tree` and `--exclude`. They share
//! `calls`. A row is one call of a function that checks it.
mod calls;
mod choices;
mod queries;
