//! Rows of the program's commands, by the public contract of `cityseq_command`: what they write.
//! `cityseq_tests_options` and `cityseq_tests_queries` have the rows of their options. They have
//! crates of their own, since a crate with tests is proved twice. The module `tests` lists them.
#![tactic(auto)]

#[cfg(test)]
mod tests;
