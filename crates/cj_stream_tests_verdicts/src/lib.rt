//! Worked examples of `cj_stream`, by its public contract: which lines are valid, and which
//! features are kept. It has only tests, and the module `tests` lists them.
//! `cj_stream_tests_reading` and `cj_stream_tests_devices` have the others.
#![tactic(auto)]

#[cfg(test)]
mod tests;
