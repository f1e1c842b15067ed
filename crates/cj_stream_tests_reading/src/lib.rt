//! Worked examples of `cj_stream`, by its public contract: how a stream is read, whole, in pieces
//! and by its two states. They have a crate of their own, since a crate with tests is proved twice.
//! It has only tests. The module `tests` lists them. `cj_stream_tests_devices` and
//! `cj_stream_tests_verdicts` have the others.
#![tactic(auto)]

#[cfg(test)]
mod tests;
