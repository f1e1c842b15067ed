//! What the tests of `cj_stream` share: lines of streams, queries, readers and writers that are
//! slow or that fail, and calls of the engine. The tests are in crates of their own, such as
//! `cj_stream_tests_reading`, which are proved beside each other. Tests of the program share some
//! of it too.
//!
//! ```text
//! let mut reader = SlowReader::new(STREAM, 1);
//! let (outcome, written) = copied(alloc, &mut reader, Limits::usual());
//! ```
#![tactic(auto)]

mod calls;
mod devices;
mod lines;
mod notes;
mod queries;

pub use calls::{
    Reading, Ungiven, complete, copied, copied_to, given, going, held, joined, outcome, ran,
    ran_to, refused, written_by,
};
pub use devices::{CutReader, EndlessReader, SlowReader, SlowWriter};
pub use lines::{
    BEYOND, FEATURE, FIRST, HEADER, SEVERAL, SMALL, STREAM, THIRD_REFUSED, attributed,
};
pub use notes::{NoteReports, note};
pub use queries::{ALL, Parts, by_box, by_ids, by_lods, by_types, query_of};
