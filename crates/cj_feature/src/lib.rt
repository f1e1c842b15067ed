//! Headers and features of CityJSONSeq streams: what is wrong with a line, and what a valid line
//! shows. The rules are in CityJSON 2.0, sections 1, 2 and 8, and on the CityJSONSeq page of
//! cityjson.org.
//!
//! - [`check_header`] and [`check_feature`] judge a scanned line. The result is the least finding
//!   by byte and code, or a [`Header`] or [`Feature`].
//! - [`Header`] and [`Feature`] are views of the line and its tokens. No call allocates. None can
//!   fail, except with a finding.
//! - [`HeaderParts`] is what is read of a header once. It borrows nothing. With a copy of the line
//!   and its tokens it gives the header again.
//!
//! ```text
//! let header = check_header(Doc::of(first, first_tokens), false)?; // no box
//! let parts = header.parts();
//! // later, given the first line again, and for each other line:
//! let header = Header::of(Doc::of(first, first_tokens), parts);
//! let feature = check_feature(Doc::of(line, tokens.as_slice()), &header, false, false)?;
//! for object in feature.objects() {}      // id, type and node of each
//! for [x, y, z] in feature.vertices() {}  // whole numbers, as in the line
//! for x in feature.coordinates(0) {}      // the first number of each
//!
//! // if each city object must be reached from the main one, first mark those that are
//! mark_reached(line, &mut tokens);
//! let feature = check_feature(Doc::of(line, tokens.as_slice()), &header, true, false)?;
//! ```
#![tactic(auto)]

mod feature;
mod header;
mod laws;
mod member;

pub use feature::{
    CityObject, Coordinates, Feature, Geometries, Objects, Vertices, check_feature, mark_reached,
};
pub use header::{Header, HeaderParts, check_header};
pub use laws::{
    fixed_numbers_are_fixed, links_are_the_links, numbers_have_their_values,
    reached_is_the_least_set,
};
