//! Searches over many city objects. The plain searches of each child, parent or name among all take
//! time by the square of their number.
//!
//! - `many_links.rt` checks links, children and parents alike (`link.rt`). It asks whether the city
//!   object that an item names lists the current one. `questions.rt` answers many such questions in
//!   one walk.
//! - `reached.rt` marks the city objects that are reached, until no marked one lists one without a
//!   mark. Before that, `near.rt` marks most of them, each only once. With many city objects,
//!   `unmarked.rt` looks up the names of those that are left.
//!
//! All but `near.rt` order texts by short hashes: those that are noted (`noted.rt`), and those that
//! are looked up (`hashed.rt`). docs/ARCHITECTURE.md compares the searches, and has the sizes of
//! their tables.
mod hashed;
mod link;
pub mod many_links;
mod near;
mod noted;
mod questions;
pub mod reached;
mod unmarked;
