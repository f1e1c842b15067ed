//! Why a part of a query cannot be set.
use thiserror::Error;

/// Why a part of a query was not set.
#[derive(Clone, Copy, Debug, PartialEq, Eq, Error)]
pub enum QueryFault {
    /// An allocation failed.
    #[error("out of memory")]
    Memory,
    /// No type of city objects has this name.
    #[error("unknown object type")]
    UnknownTypeName,
    /// The text is not four numbers with commas between them.
    #[error("bad box")]
    BadBox,
    /// A number of the box is out of range, no multiple of 10^-18, or 10^18 or more in size.
    #[error("box number out of range")]
    BoxRange,
    /// The box ends before it begins, on some axis.
    #[error("empty box")]
    EmptyBox,
}
