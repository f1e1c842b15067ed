//! JSON lines as lists of tokens.
//!
//! [`scan`] reads a line once. If the line is a JSON text, `scan` leaves one [`Token`] for each
//! value and each member name, in the order in which they start. Otherwise it returns the byte of
//! the fault.
//!
//! `scan` uses only the two lists that it gets, a [`cj_budget::Bounded`] and a
//! [`cj_budget::Stack`]. So their limits bound its memory. It first reserves the memory of both
//! lists, and only this can fail. The rest is [`scan_reserved`], which allocates nothing.
//! [`Reason`] lists all reasons why a line is invalid.
//!
//! [`Doc`] and [`Node`] are views of a scanned line. They read like its tree, and refer to the line
//! and its tokens. A rule of the layers above looks at nodes, and adds each [`Finding`] to a
//! [`Least`], which keeps the one that is reported. A rule can mark tokens by number with
//! [`set_mark`], and read the marks later with [`Node::marked`].
//!
//! Contracts cite definitions, and [`laws`] has the facts that are proved about these. For example,
//! a line has one judgement and a string has one text.
//!
//! ```text
//! let mut tokens = Bounded::new(alloc, (line.len() + 64 + 1) / 2);
//! let mut stack = Stack::new(alloc, 64); // at most 64 open arrays and objects
//! match scan(line, &mut tokens, &mut stack) {
//!     Ok(()) => {
//!         let root = Doc::of(line, tokens.as_slice()).root();
//!         let kind = root.get("type");       // the first member with this name, in any spelling
//!         for (name, value) in root.members() {}
//!     }
//!     Err(ScanFault::Syntax(place)) => {}    // no JSON text begins with line[..=place]
//!     Err(fault) => return Err(fault),       // Memory: both lists are empty, the line is unread
//! }
//! ```
#![tactic(auto)]

mod arrays;
mod atom;
mod bytes;
mod fault;
mod finding;
mod lanes;
pub mod laws;
mod least;
mod lex;
mod mark;
mod members;
mod next;
mod node;
mod numbers;
mod reason;
mod scanner;
mod step;
mod text;
mod token;
mod utf8;

pub use fault::{LineFault, ScanFault};
pub use finding::Finding;
pub use least::Least;
pub use mark::set_mark;
pub use next::slow_next;
pub use node::{Doc, FourMembers, Items, Members, Node};
pub use reason::Reason;
pub use scanner::{scan, scan_reserved};
pub use text::{compare_strings, tail_of_string};
pub use token::{Kind, Token};
