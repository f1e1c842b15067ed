//! Worked examples of `cj_stream`, by its public contract: engines that are called step by step,
//! readers and writers that fail, sinks, and reports. It has only tests, and the module `tests`
//! lists them. `cj_stream_tests_reading` and `cj_stream_tests_verdicts` have the others.
#![tactic(auto)]

#[cfg(test)]
mod tests;
