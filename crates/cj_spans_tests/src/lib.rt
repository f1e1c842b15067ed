//! Worked examples of `cj_spans`, by its public contract. They have a crate of their own, since a
//! crate with tests is proved twice.
//!
//! - `tests`: rows that run, of scans, views, findings and reasons.
//! - `examples`: rows of the definitions. Each contract is a theorem about one of them.
#![tactic(auto)]

#[cfg(test)]
mod examples;
#[cfg(test)]
mod tests;
