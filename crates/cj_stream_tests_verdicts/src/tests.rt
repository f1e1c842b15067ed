//! Tests of verdicts and queries, over whole streams.
//!
//! - `table`: the vectors of the folder `vectors/`. `vectors` runs each with every cut.
//! - `streams`: many lines, compared with the slow program in `plain`.
//! - `queries` and `ids`: which features of a stream a query selects.
//! - `choosing`: features with city objects that are not reached, and features that are left out.
//! - `pairs`: two options with two parts of a query.
//! - `parts`: streams that are read in parts.
//!
//! `rows` reads the rows of their tables.
mod calls;
mod choosing;
mod ids;
mod pairs;
mod parts;
mod plain;
mod queries;
mod rows;
mod streams;
mod table;
mod vectors;
