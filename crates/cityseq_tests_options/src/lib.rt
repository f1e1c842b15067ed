//! Rows of the options of the program's commands, by the public contract of `cityseq_command`.
//! `cityseq_tests_queries` has the rows of queries, and `cityseq_tests_output` the other ones. The
//! module `tests` lists them.
#![tactic(auto)]

#[cfg(test)]
mod tests;
