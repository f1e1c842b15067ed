//! Worked examples of `cj_decimal`, by its public contract. They have a crate of their own, since a
//! crate with tests is proved twice. The module `tests` has them.
#![tactic(auto)]

#[cfg(test)]
mod tests;
