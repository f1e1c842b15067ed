//! Limits, and lists that never grow past one.
//!
//! A [`Limits`] has the two numbers that a user sets: the most bytes of a line, and the most open
//! containers. A [`Bounded`] is a list that refuses its next element once it is full. It remembers
//! its greatest length, its peak. A [`Stack`] does the same for the open containers. In the layers
//! above, only these lists grow with a stream. So the limits bound what they hold.
//!
//! Contracts see no call of the allocator. They see how often a growth failed. Each list
//! counts that with a [`Refusals`], and reports a lack of memory only if its count has risen.
//!
//! Both lists can reserve memory for their limit at once, with `reserve_all`. From then on they
//! request no memory, and `push_reserved` and `extend_reserved` cannot fail.
//!
//! ```text
//! let limits = Limits::usual(); // or Limits::new(1_000_000, 16)?
//! let mut line = Bounded::new(alloc, limits.line() as usize);
//! line.extend_from_slice(b"{}")?; // Full past the limit, Memory if the allocation failed
//! line.clear(); // the peak stays 2
//! ```
#![tactic(auto)]

mod bounded;
mod growth;
mod limits;
mod stack;

pub use bounded::{Bounded, ExtendFault, Refused};
pub use growth::{NoMemory, Refusals};
pub use limits::{LimitFault, Limits, Peaks, USUAL_DEPTH, USUAL_LINE};
pub use stack::Stack;
