//! The texts of strings: their code points (`decode.rt`), their order (`compare.rt`), and numbers
//! that tell most of them apart (`numbers.rt`).

mod compare;
mod decode;
mod numbers;

pub use compare::compare_strings;
pub(crate) use compare::{
    compare_spelling_with, compare_spellings, is_spelled_so, spell_one_text, spells,
};
pub(crate) use decode::CodePoints;
pub use numbers::tail_of_string;
pub(crate) use numbers::{hash, tail, word};
