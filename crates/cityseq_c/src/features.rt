//! The records of the kept features of a part.
//!
//! - `record_of`: the record of a feature, and how it is made.
//! - `cursor`: goes along the lines of a part, and finds where the line of a feature begins.
//! - `listed`: the sink that writes records to a slice of the caller.

mod cursor;
mod listed;
mod record_of;

pub use cursor::Cursor;
pub use listed::Listed;
pub use record_of::FeatureRecord;
