//! Geometries of city objects (CityJSON 2.0, section 3): their rules and their level of detail.
//! Also the types of city objects (section 2).
//!
//! - [`check_geometry`] adds the findings of a geometry to a [`cj_spans::Least`], which keeps the
//!   least one.
//! - [`lod_of`] returns the level of detail of a geometry.
//! - [`Templates`] are those that a geometry may name. Both functions need them.
//! - [`rule`] has the functions that these rules are written with, also for the layers above.
//! - [`ObjectType`] is the type of a city object.
//!
//! ```text
//! let templates = Templates::list(list); // the header's array of templates, counted here
//! let mut found = Least::new();
//! check_geometry(node, Some(vertices), templates, &mut found);
//! match found.get() {
//!     Some(Finding { place, reason }) => {} // the least by byte, then by the reason's code
//!     None => {}                            // so lod_of(node, templates) is its LoD
//! }
//! ```
#![tactic(auto)]

mod boundaries;
mod form;
mod geometry;
mod grammar;
mod instance;
mod lod;
mod lods;
mod object_type;
pub mod rule;
mod semantics;
mod steps;
mod templates;

pub use geometry::check_geometry;
pub use grammar::one_grammar_of_numbers;
pub use lod::lod_of;
pub use lods::Lods;
pub use object_type::{ObjectType, is_of_extension, types_are_counted};
pub use steps::Steps;
pub use templates::Templates;
