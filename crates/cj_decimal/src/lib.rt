//! JSON numbers as exact decimals, compared exactly: no float, no rounding, and no allocation.
//!
//! [`Decimal::read`] reads a spelling of any length. The result is a coefficient of at most 36
//! digits and a power of ten, in normal form. `==` compares values.
//!
//! - [`Decimal::whole`] returns the value of an index or a coordinate. To read one directly,
//!   several times as fast, use [`Decimal::read_whole`]. For its usual cases alone there are
//!   [`Decimal::read_few`] and [`Decimal::read_few_signed`], faster still.
//! - [`Decimal::fixed18`] returns the value of a scale, a shift or the edge of a box, in units of
//!   10^-18.
//! - [`Affine::compare`] compares `v * scale + shift` with such an edge, exactly:
//!
//! ```text
//! let map = Affine::new(scale, shift);        // 0.001 and 1000, say
//! let edge = Decimal::read(b"1001")?.fixed18();
//! map.compare(1000, edge)                     // Ordering::Equal
//! ```
//!
//! A number goes through the modules `spelling` (its parts, by `digits`), `trimming` (no zeros at
//! the end), `decimal`, and then `fixed` and `affine`. A whole number of few digits goes through
//! `digits` and `whole`. The definitions of a spelling and its value are in specs/Meaning. What is
//! proved about the definitions alone is in [`laws`].
#![tactic(auto)]

mod affine;
mod decimal;
mod digits;
mod fixed;
pub mod laws;
mod powers;
mod spelling;
mod trimming;
mod whole;
mod word;

pub use affine::Affine;
pub use decimal::{Decimal, DecimalFault};
pub use fixed::Fixed18;
pub use word::{digits_word, word_value};
