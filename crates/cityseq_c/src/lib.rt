//! What the library for C is made of: requests and answers as C has them, and how a header and a
//! part are judged as one stream. `cityseq_exports` has the calls.
//!
//! The modules:
//!
//! - `request`: a request as C has it, and its faults. `query` makes the query of its texts.
//!   `fault_place` finds which text or number is at fault.
//! - `judging`: judges a header and a part as one stream.
//! - `answer`: the result of a call for C, and that of two parts as one.
//! - `cutting`: where a part ends. `finder`: where lines begin.
//! - `memory`: the memory that a call takes.
//! - `room`: the sink that writes the output to bytes of the caller.
//! - `report_slice`: the sink of reports. `features`: the sink that writes records of features.
//! - `tally`: a tally as C has it, and that of two parts as one.
//! - `words`: the texts of reasons and the names of types.
//! - [`row_laws`]: the definitions on worked examples.
#![tactic(auto)]

mod answer;
mod cutting;
mod fault_place;
mod features;
mod finder;
mod judging;
mod memory;
mod query;
mod report_slice;
mod request;
mod room;
pub mod row_laws;
mod tally;
mod words;

pub use answer::Answer;
pub use cutting::part_end;
pub use features::{FeatureRecord, Listed};
pub use finder::Finder;
pub use judging::{are_cut, judge};
pub use memory::memory_of;
pub use report_slice::CReport;
pub use request::{Fault, NotJudged, Request};
pub use room::Room;
pub use tally::{Number, Range, Tally};
pub use words::{copy, reason_text, type_name};
