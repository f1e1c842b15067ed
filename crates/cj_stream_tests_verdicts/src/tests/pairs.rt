//! Every two options, and all three, with every two parts of a query.
//!
//! Which features satisfy two parts follows from the rows for one part each, in `choosing`.
use super::calls::{check_at, check_notes};
use super::choosing::{Came, Went, came_of, check_went};
use super::rows::{bytes_of, cell, has_word, options_of, push_side, query_of};
use cj_stream::Query;
use cj_stream_testkit::FIRST;
use std::alloc::Global;
use std::process::Abort;
use std::test::Fail;

/// The usual feature, one that does not reach a city object, a road, a line that is no feature, one
/// that does not reach two, and a small one.
const STREAM: &str = "&H;&lf;&F;&lf;&A;&lf;&R;&lf;{}&lf;&V;&lf;&S;&lf;";

/// All pairs of options, and all three. A row has the options, the features that are valid and come
/// before the end, the reports, the lines, and the end.
///
/// The second feature has a city object at byte 78 that is not reached. The line after the third is
/// no feature. The fourth feature has a city object at byte 194 that is not reached.
const CASES: &str = "
going tree|F R S|3 78 31&lf;5 0 10&lf;6 194 31&lf;|7|complete
going exclude|F A R V S|5 0 10&lf;|7|complete
tree exclude|F||2|line 3, byte 78: 31 not reached from the main object
going tree exclude|F R S|3 78 31&lf;5 0 10&lf;6 194 31&lf;|7|complete
";

/// Some options, and the result of the features with them.
#[derive(Clone, Copy)]
struct Case<'a> {
    options: &'a str,
    valid: &'a str,
    reports: &'a str,
    lines: &'a str,
    ended: &'a str,
}

/// Returns the case of a row.
fn case_of<'a>(rt: &impl Abort, row: &'a str) -> Case<'a> {
    let (options, row) = cell(rt, row);
    let (valid, row) = cell(rt, row);
    let (reports, row) = cell(rt, row);
    let (lines, ended) = cell(rt, row);
    Case {
        options,
        valid,
        reports,
        lines,
        ended,
    }
}

/// A stream, a query of two parts, and the features that it selects.
#[derive(Clone, Copy)]
struct Pair<'a> {
    name: &'a str,
    text: &'a [u8],
    query: &'a Query,
    chosen: &'a str,
}

/// Compares what is reported, and how many lines there are.
fn check_reported(
    rt: &impl Abort,
    alloc: Global,
    came: &Came,
    case: &Case,
    row: &str,
) -> Result<(), Fail> {
    check_notes(
        rt,
        &came.reports,
        &bytes_of(rt, alloc, case.reports)?,
        row,
        3,
    );
    check_at(rt, came.outcome.lines, case.lines.parse()?, row, 4);
    Ok(())
}

/// Compares what is kept: the valid features that the query selects, or the others.
fn check_kept(
    rt: &impl Abort,
    alloc: Global,
    came: &Came,
    case: &Case,
    pair: &Pair,
) -> Result<(), Fail> {
    let mut written = FIRST.to_vec(alloc)?;
    let excludes = has_word(case.options, "exclude");
    let kept = push_side(rt, &mut written, case.valid, pair.chosen, excludes)?;
    let wanted = Went {
        kept,
        ended: case.ended,
        written: &written,
    };
    check_went(rt, alloc, came, &wanted, pair.name)
}

/// Checks a stream and a query with some options.
fn check_case(rt: &impl Abort, alloc: Global, pair: &Pair, case: &Case) -> Result<(), Fail> {
    let options = options_of(case.options);
    let came = came_of(alloc, pair.text, 100, pair.query, options)?;
    check_kept(rt, alloc, &came, case, pair)?;
    check_reported(rt, alloc, &came, case, pair.name)
}

/// Checks the query of a row with all pairs of options. The cells are the name, the query, and the
/// features that it selects.
fn check_pair(rt: &impl Abort, alloc: Global, row: &str) -> Result<(), Fail> {
    let (name, row) = cell(rt, row);
    let (asked, chosen) = cell(rt, row);
    let text = bytes_of(rt, alloc, STREAM)?;
    let query = query_of(rt, alloc, asked)?;
    let pair = Pair {
        name,
        text: &text,
        query: &query,
        chosen,
    };
    for case in CASES.trim().lines() {
        check_case(rt, alloc, &pair, &case_of(rt, case))?;
    }
    Ok(())
}

const PAIRS: &str = "
an id and a type|id=b1 id=r1 type=Road|R V
an id and an LoD|id=b1 id=b lod=2.2|F V
an id and a box|id=r1 id=b bbox=1001,2001,1005,2005|R
a type and an LoD|type=Road lod=1|R V
a type and a box|type=Building bbox=1001,2001,1005,2005|F V
an LoD and a box|lod=1 lod=2.2 bbox=1001.000000000000000001,2000,1005,2005|R
";

#[test]
fn two_parts_with_each_pair_of_options(rt: HostRuntime) -> Result<(), Fail> {
    for row in PAIRS.trim().lines() {
        check_pair(&rt, rt.alloc(), row)?;
    }
    Ok(())
}
