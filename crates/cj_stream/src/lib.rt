//! The engine: it reads a CityJSONSeq stream once, in bounded memory, judges each line, and passes
//! the header and the features to a sink.
//!
//! A caller feeds pieces of a stream to an [`Engine`]. Its splitter cuts them into lines. Each
//! whole line is judged: first as a JSON text, then by the rules of `cj_feature`. The first line is
//! judged as a header, and each later line as a feature of that header.
//!
//! A [`LineSink`] receives the valid header and the valid features that a [`Query`] selects. By
//! default the first invalid line is the end. With [`Options::keep_going`], a [`ReportSink`]
//! receives each later invalid line, and reading goes on. [`run`] does all this with the bytes of a
//! reader.
//!
//! The engine holds five lists with limits and the six numbers of the header's transform. So its
//! memory stays within a bound that the limits give, for any input.
//!
//! ```text
//! let mut out = Output::new(writer);
//! let query = Query::all(alloc);
//! let limits = Limits::new(8_388_608, 64)?;
//! let outcome = run(alloc, &mut reader, &mut out, &mut NoReports, limits, &query, Options::new());
//! match outcome.ended {
//!     End::Complete => {}                           // all lines were read, and none is invalid
//!     End::Refused { line, place, reason } => {}    // an invalid line: number, byte, reason
//!     End::ReadFault | End::ReadLimit | End::WriteFault | End::Memory => {}
//! }
//! ```
//!
//! The modules, from the caller down:
//!
//! - `running`: a whole run, from a reader to a sink ([`run`]), also with a limit on the number of
//!   reads ([`run_within`]). The faults of the reader are in `source`.
//! - `parts`: the outcome of two runs over parts of a stream, as one ([`Outcome::then`]).
//! - `pieces`: a stream that comes in pieces ([`put_pieces`]), and the theorem about the whole
//!   ([`headline`]).
//! - `line_pieces`: both for what comes after a header ([`put_lines`], [`headline_of_lines`]).
//! - `sink`: the trait of a sink ([`LineSink`]), a sink that ignores and one that counts.
//! - `output`: the sink that writes ([`Output`]).
//! - `tally`: the sink that tallies ([`TallySink`]), and what one feature adds ([`count_lods`],
//!   [`widen_all`]).
//! - `query`: which features are selected ([`Query`]).
//! - `options`: how a stream is read and judged ([`Options`]).
//! - `report_sink`: the trait of a sink of reports ([`ReportSink`]), one that counts and one that
//!   ignores.
//! - `engine`: the stream so far ([`Engine`]), in one of two states. `header_reader`
//!   ([`HeaderReader`]) and `line_reader` ([`LineReader`]) are the same two as types.
//! - `ending`: how a stream ended ([`End`]).
//! - `line_splitter`: cuts lines and handles each.
//! - `line_buffer`: keeps the bytes of a line until it is whole.
//! - `validator`: judges a line and puts it to the sink. `judge` decides what a line is as a text.
//! - [`laws`]: what follows from what a sink took, and from the definitions.
//! - [`row_laws`]: the definitions on worked examples.
//!
//! The crate also exports what a caller needs of the crates below, so one `use` names everything.
#![tactic(auto)]

mod ending;
mod engine;
mod header_reader;
mod judge;
pub mod laws;
mod line_buffer;
mod line_pieces;
mod line_reader;
mod line_splitter;
mod options;
mod output;
mod parts;
mod pieces;
mod query;
mod report_sink;
pub mod row_laws;
mod running;
mod sink;
mod tally;
mod validator;

pub use cj_budget::{LimitFault, Limits, NoMemory, Peaks};
pub use cj_decimal::Decimal;
pub use cj_feature::{Feature, Header};
pub use cj_geometry::ObjectType;
pub use cj_spans::{Node, Reason};
pub use ending::{End, HeaderEnd, LineEnd};
pub use engine::Engine;
pub use header_reader::{HeaderReader, Progress};
pub use line_pieces::{LinesOutcome, headline_of_lines, put_lines};
pub use line_reader::LineReader;
pub use options::Options;
pub use output::{Output, WriteFault, WriteSink};
pub use pieces::{PiecesOutcome, headline, put_pieces};
pub use query::{Query, QueryFault, is_type_name};
pub use report_sink::{CountReports, NoReports, Report, ReportSink};
pub use running::{Outcome, run, run_within};
pub use sink::{CountSink, IgnoreSink, LineSink};
pub use tally::{
    LOD_CLASSES, TYPE_SLOTS, TallySink, classes_are_counted, count_lods, slot_of, widen_all,
};

/// The version of the engine, the program and the library for C.
pub const VERSION: &str = "0.2.0";
