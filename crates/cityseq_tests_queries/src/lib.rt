//! Rows of queries and choices of the program's commands, by the public contract of
//! `cityseq_command`: which features are kept. `cityseq_tests_options` has the other options. The
//! module `tests` lists them.
#![tactic(auto)]

#[cfg(test)]
mod tests;
