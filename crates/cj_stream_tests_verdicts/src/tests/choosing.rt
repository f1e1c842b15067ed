//! What is invalid if each city object must be reached, and what is kept if selected features are
//! left out.
//!
//! The rows with a whole outcome are run whole, by single bytes, and cut in two at every place.
use super::calls::{check_at, check_bytes, check_named, check_notes, check_text};
use super::rows::{
    bytes_of, cell, end_told, has_word, options_of, outcome_told, push_side, query_of,
};
use cj_budget::Limits;
use cj_stream::{Options, Outcome, Query, WriteSink};
use cj_stream_testkit::{FIRST, NoteReports, Reading, SlowReader, given, joined, ran};
use std::alloc::Global;
use std::process::Abort;
use std::test::Fail;

/// A stream, how it is read, and the expected result.
#[derive(Clone, Copy)]
struct Row<'a> {
    name: &'a str,
    text: &'a [u8],
    query: &'a Query,
    options: Options,
    written: &'a [u8],
    reports: &'a [u8],
    /// The expected outcome, as a text.
    told: &'a str,
}

/// The result of a stream: the outcome, what was written, and what was reported.
#[derive(Drop)]
pub struct Came {
    pub outcome: Outcome,
    pub written: Vec<u8>,
    pub reports: NoteReports,
}

/// Runs over a reader that gives `step` bytes per read.
pub fn came_of(
    alloc: Global,
    text: &[u8],
    step: usize,
    query: &Query,
    options: Options,
) -> Result<Came, Fail> {
    let mut reader = SlowReader::new(text, step);
    let mut sink = WriteSink::new(Vec::new(alloc));
    let mut reports = NoteReports::new(alloc);
    let reading = Reading {
        limits: Limits::new(1_000, 64)?,
        query,
        options,
    };
    let outcome = ran(alloc, &mut reader, &mut sink, &mut reports, &reading);
    let written = sink.into_inner();
    Ok(Came {
        outcome,
        written,
        reports,
    })
}

/// Gives the stream of a row to an engine, cut in two at this place.
fn came_of_cut(alloc: Global, row: &Row, at: usize) -> Result<Came, Fail> {
    let mut sink = WriteSink::new(Vec::new(alloc));
    let mut reports = NoteReports::new(alloc);
    let reading = Reading {
        limits: Limits::new(1_000, 64)?,
        query: row.query,
        options: row.options,
    };
    let outcome = given(alloc, row.text, at, &mut sink, &mut reports, &reading)?;
    let written = sink.into_inner();
    Ok(Came {
        outcome,
        written,
        reports,
    })
}

/// Compares the result of a stream with the row.
fn check_came(rt: &impl Abort, alloc: Global, row: &Row, came: &Came, at: u64) -> Result<(), Fail> {
    let told = outcome_told(alloc, came.outcome)?;
    check_notes(rt, &came.reports, row.reports, row.name, at);
    check_text(rt, &told, row.told, row.name, at);
    check_bytes(rt, &came.written, row.written, row.name, at);
    Ok(())
}

/// Checks a stream that comes by reads of `step` bytes.
fn check_run(rt: &impl Abort, alloc: Global, row: &Row, step: usize) -> Result<(), Fail> {
    let came = came_of(alloc, row.text, step, row.query, row.options)?;
    check_came(rt, alloc, row, &came, step as u64)
}

/// Checks a stream that is cut in two at this place.
fn check_cut(rt: &impl Abort, alloc: Global, row: &Row, at: usize) -> Result<(), Fail> {
    let came = came_of_cut(alloc, row, at)?;
    check_came(rt, alloc, row, &came, at as u64)
}

/// Checks a stream in every way.
fn check(rt: &impl Abort, alloc: Global, row: &Row) -> Result<(), Fail> {
    check_run(rt, alloc, row, 8_192)?;
    check_run(rt, alloc, row, 1)?;
    for at in 0..=row.text.len() {
        check_cut(rt, alloc, row, at)?;
    }
    Ok(())
}

/// Checks the stream of a row in every way. Its cells are the name, the query with the options, the
/// stream, what is written, what is reported, and the outcome.
fn check_row(rt: &impl Abort, alloc: Global, row: &str) -> Result<(), Fail> {
    let (name, row) = cell(rt, row);
    let (asked, row) = cell(rt, row);
    let (stream, row) = cell(rt, row);
    let (written, row) = cell(rt, row);
    let (reports, told) = cell(rt, row);
    let text = bytes_of(rt, alloc, stream)?;
    let query = query_of(rt, alloc, asked)?;
    let written = bytes_of(rt, alloc, written)?;
    let reports = bytes_of(rt, alloc, reports)?;
    let row = Row {
        name,
        text: &text,
        query: &query,
        options: options_of(asked),
        written: &written,
        reports: &reports,
        told,
    };
    check(rt, alloc, &row)
}

/// Checks the stream of each row in every way.
fn check_rows(rt: &impl Abort, alloc: Global, rows: &str) -> Result<(), Fail> {
    for row in rows.trim().lines() {
        check_row(rt, alloc, row)?;
    }
    Ok(())
}

// ---- options

/// Compares what options return.
fn check_options(rt: &impl Abort, options: Options, wanted: &str, row: &str) {
    check_named(rt, options.keeps_going(), has_word(wanted, "going"), row);
    check_named(rt, options.asks_for_trees(), has_word(wanted, "tree"), row);
    check_named(rt, options.excludes(), has_word(wanted, "exclude"), row);
}

/// A method that sets an option leaves the others as they are, and can reset it. A row has what is
/// called, and which options are set then.
#[test]
fn each_option_is_set_by_its_name(rt: HostRuntime) -> Result<(), Fail> {
    let rows = "
-|-
going|going
tree|tree
exclude|exclude
going tree exclude|going tree exclude
going tree exclude no-going|tree exclude
going tree exclude no-tree|going exclude
going tree exclude no-exclude|going tree
";
    for row in rows.trim().lines() {
        let (words, wanted) = cell(&rt, row);
        check_options(&rt, options_of(words), wanted, words);
    }
    Ok(())
}

// ---- trees

/// A feature that is left out is judged like one that is kept. Nothing of one line is remembered in
/// the next: each is judged by its own marks.
const APART: &str = "
one apart|-|&H;&lf;&A;&lf;&S;&lf;|&H;&lf;&A;&lf;&S;&lf;||complete|3|2|0|253 38 3
one apart, trees reset|tree no-tree|&H;&lf;&A;&lf;&S;&lf;|&H;&lf;&A;&lf;&S;&lf;||complete|3|2|0|253 38 3
one apart, going on|going|&H;&lf;&A;&lf;&S;&lf;|&H;&lf;&A;&lf;&S;&lf;||complete|3|2|0|253 38 3
one apart is the end|tree|&H;&lf;&A;&lf;&S;&lf;|&H;&lf;||line 2, byte 78: 31 not reached from the main object|1|0|0|253 38 3
one apart is reported|tree going|&H;&lf;&A;&lf;&S;&lf;|&H;&lf;&S;&lf;|2 78 31&lf;|complete|3|1|1|253 38 3
one apart is reported where all is left out|tree going exclude|&H;&lf;&A;&lf;&S;&lf;|&H;&lf;|2 78 31&lf;|complete|3|0|1|253 38 3
one apart is left out|going exclude|&H;&lf;&A;&lf;&S;&lf;|&H;&lf;||complete|3|0|0|253 38 3
a chain between two apart|tree going|&H;&lf;&A;&lf;&C;&lf;&A;&lf;&S;|&H;&lf;&C;&lf;&S;|2 78 31&lf;4 78 31&lf;|complete|5|2|2|351 54 4
";

#[test]
fn one_apart(rt: HostRuntime) -> Result<(), Fail> {
    check_rows(&rt, rt.alloc(), APART)
}

/// The text before the city objects of a feature with the id `b`, and the text after them. The
/// first city object begins at byte 50.
const FRONT: &[u8] = b"{\"type\":\"CityJSONFeature\",\"id\":\"b\",\"CityObjects\":{";

const BACK: &[u8] = b"},\"vertices\":[]}";

/// How far a run goes, and what is written.
#[derive(Clone, Copy)]
pub struct Went<'a> {
    pub kept: u64,
    pub ended: &'a str,
    pub written: &'a [u8],
}

/// Compares how far a run went, and what was written.
pub fn check_went(
    rt: &impl Abort,
    alloc: Global,
    came: &Came,
    wanted: &Went,
    row: &str,
) -> Result<(), Fail> {
    let ended = end_told(alloc, came.outcome.ended)?;
    check_text(rt, &ended, wanted.ended, row, 0);
    check_at(rt, came.outcome.kept, wanted.kept, row, 1);
    check_bytes(rt, &came.written, wanted.written, row, 2);
    Ok(())
}

/// Checks how a stream of one feature ends with these options, and whether the feature is kept.
fn check_one(
    rt: &impl Abort,
    alloc: Global,
    text: &[u8],
    options: &str,
    wanted: &Went,
    row: &str,
) -> Result<(), Fail> {
    let query = Query::all(alloc);
    let came = came_of(alloc, text, 100, &query, options_of(options))?;
    check_went(rt, alloc, &came, wanted, row)
}

/// Returns that a feature is kept, or that it is not, in this way.
fn one_of<'a>(text: &'a [u8], ended: &'a str, keeps: bool) -> Went<'a> {
    Went {
        kept: keeps.into(),
        ended,
        written: if keeps { text } else { FIRST },
    }
}

/// Checks a feature with these city objects. It is kept as usual. If each city object must be
/// reached, it ends like this, also if all features are left out.
fn check_reached(rt: &impl Abort, alloc: Global, objects: &str, ended: &str) -> Result<(), Fail> {
    let text = joined(alloc, &[FIRST, FRONT, objects.as_bytes(), BACK, b"\n"])?;
    let usual = one_of(&text, "complete", true);
    check_one(rt, alloc, &text, "-", &usual, objects)?;
    let tree = one_of(&text, ended, ended == "complete");
    check_one(rt, alloc, &text, "tree", &tree, objects)?;
    let others = one_of(&text, ended, false);
    check_one(rt, alloc, &text, "tree exclude", &others, objects)
}

/// Rows of what is reached. A group reaches what it lists. It is not reached because it lists a
/// city object that is. `parents` reach nothing.
const REACHED: &str = r#"
"b":{"type":"Building"},"c":{"type":"Building"}|line 2, byte 78: 31 not reached from the main object
"c":{"type":"Building"},"b":{"type":"Building"}|line 2, byte 54: 31 not reached from the main object
"b":{"type":"Building"},"c":{"type":"Building","children":["d"],"parents":["d"]},"d":{"type":"Building","children":["c"],"parents":["c"]}|line 2, byte 78: 31 not reached from the main object
"b":{"type":"Building"},"g":{"type":"CityObjectGroup","children":["b"]}|line 2, byte 78: 31 not reached from the main object
"b":{"type":"Building"},"c":{"type":"Building","parents":["g"]}|line 2, byte 78: 31 not reached from the main object
"b":{"type":"Building","children":["p"]},"p":{"type":"BuildingPart","parents":["b"]},"c":{"type":"Building"}|line 2, byte 139: 31 not reached from the main object
"b":{"type":"Building"},"c":{"type":"Building"},"d":{"type":"Building"}|line 2, byte 78: 31 not reached from the main object
"b":{"type":"Building"},"p":{"type":"BuildingPart","parents":["c"]},"c":{"type":"Building","children":["p"]}|line 2, byte 78: 31 not reached from the main object
"b":{"type":"BuildingPart","parents":["c"]},"c":{"type":"Building","children":["b"]}|line 2, byte 98: 31 not reached from the main object
"b":{"type":"Building"}|complete
"b":{"type":"Building","children":["b"],"parents":["b"]}|complete
"q":{"type":"BuildingPart","parents":["p"]},"p":{"type":"BuildingPart","parents":["b"],"children":["q"]},"b":{"type":"Building","children":["p"]}|complete
"b":{"type":"BuildingPart","parents":["c"],"children":["c"]},"c":{"type":"Building","children":["b"],"parents":["b"]}|complete
"b":{"type":"Building","children":["c"],"parents":["c"]},"c":{"type":"Building","children":["b"],"parents":["b"]}|complete
"b":{"type":"CityObjectGroup","children":["g"]},"c":{"type":"Building"},"g":{"type":"CityObjectGroup","children":["c","x"]}|complete
"b":{"type":"Building","children":["\u0070"]},"\u0070":{"type":"BuildingPart","parents":["\u0062"]}|complete
"#;

#[test]
fn features_with_all_reached_or_not(rt: HostRuntime) -> Result<(), Fail> {
    for row in REACHED.trim().lines() {
        let (objects, ended) = cell(&rt, row);
        check_reached(&rt, rt.alloc(), objects, ended)?;
    }
    Ok(())
}

/// Checks that a feature with these city objects is invalid in this way, if each must be reached.
fn check_fault(rt: &impl Abort, alloc: Global, objects: &str, ended: &str) -> Result<(), Fail> {
    let text = joined(alloc, &[FIRST, FRONT, objects.as_bytes(), BACK])?;
    let wanted = one_of(&text, ended, false);
    check_one(rt, alloc, &text, "tree", &wanted, objects)
}

/// Of several faults the first one in the line is reported. At one place, another fault comes
/// before a city object that is not reached.
#[test]
fn not_reached_beside_other_faults(rt: HostRuntime) -> Result<(), Fail> {
    let rows = r#"
"b":{"type":"Shed"},"c":{"type":"Building"}|line 2, byte 62: 19 unknown object type
"b":{"type":"Building"},"c":{"type":"Shed"}|line 2, byte 78: 31 not reached from the main object
"b":{"type":"Building"},"c":3|line 2, byte 78: 12 wrong kind
"#;
    for row in rows.trim().lines() {
        let (objects, ended) = cell(&rt, row);
        check_fault(&rt, rt.alloc(), objects, ended)?;
    }
    Ok(())
}

// ---- types of extensions

/// City objects, a query where types of extensions are known, and whether the feature is kept.
const EXTENSIONS: &str = r#"
"b":{"type":"+Shed"}|extensions type=+Shed|kept
"b":{"type":"+Shed"}|extensions types=Road,+Shed|kept
"b":{"type":"\u002bShed"}|extensions type=+Shed|kept
"b":{"type":"+\u0053hed"}|extensions type=+Hut type=+Shed|kept
"b":{"type":"Building"},"c":{"type":"+Shed"}|extensions type=Tunnel type=+Shed|kept
"b":{"type":"+Shed"},"c":{"type":"Road"}|extensions type=Road type=+Hut|kept
"b":{"type":"+Shed"},"c":{"type":"Road"}|extensions type=Road|kept
"b":{"type":"+Shed"}|extensions type=+She|left out
"b":{"type":"+Shed"}|extensions type=+shed|left out
"b":{"type":"+Shed"}|extensions type=+Hut|left out
"b":{"type":"+Shed"}|extensions type=Building|left out
"b":{"type":"+Shed"}|extensions type|left out
"b":{"type":"+Shed"}|extensions type=+Shed types=Building|left out
"b":{"type":"Building"}|extensions type=+Building|left out
"#;

/// Checks whether a feature with these city objects is kept.
fn check_extension(rt: &impl Abort, alloc: Global, row: &str) -> Result<(), Fail> {
    let (objects, row) = cell(rt, row);
    let (asked, answer) = cell(rt, row);
    let text = joined(alloc, &[FIRST, FRONT, objects.as_bytes(), BACK, b"\n"])?;
    let query = query_of(rt, alloc, asked)?;
    let came = came_of(alloc, &text, 100, &query, options_of(asked))?;
    let wanted = one_of(&text, "complete", answer == "kept");
    check_went(rt, alloc, &came, &wanted, asked)
}

#[test]
fn by_types_of_extensions(rt: HostRuntime) -> Result<(), Fail> {
    for row in EXTENSIONS.trim().lines() {
        check_extension(&rt, rt.alloc(), row)?;
    }
    Ok(())
}

// ---- exclusion

/// The usual feature, a road away from it, the small one without vertices, and one of several city
/// objects.
const FEATURES: &str = "F R S V";

/// All features, a query, and the letters of the features that it selects.
#[derive(Clone, Copy)]
struct Sides<'a> {
    name: &'a str,
    text: &'a [u8],
    query: &'a Query,
    chosen: &'a str,
}

/// Runs over all features. Either those that the query selects are kept, or the others.
fn check_side(
    rt: &impl Abort,
    alloc: Global,
    sides: &Sides,
    others: bool,
) -> Result<Outcome, Fail> {
    let mut written = FIRST.to_vec(alloc)?;
    let kept = push_side(rt, &mut written, FEATURES, sides.chosen, others)?;
    let options = Options::new().exclude(others);
    let came = came_of(alloc, sides.text, 100, sides.query, options)?;
    let wanted = Went {
        kept,
        ended: "complete",
        written: &written,
    };
    check_went(rt, alloc, &came, &wanted, sides.name)?;
    Ok(came.outcome)
}

/// Compares the outcomes of both sides. They differ only in the features that are kept, and these
/// are all together.
fn check_together(rt: &impl Abort, inside: Outcome, outside: Outcome, row: &str) {
    let kept = inside.kept.saturating_add(outside.kept);
    let same = Outcome {
        kept: inside.kept,
        ..outside
    };
    check_at(rt, inside.lines, 5, row, 3);
    check_at(rt, kept, 4, row, 4);
    check_at(rt, same, inside, row, 5);
}

/// Checks both sides of a row. Its cells are the name, the query, and the features that it selects.
fn check_sides(rt: &impl Abort, alloc: Global, row: &str) -> Result<(), Fail> {
    let (name, row) = cell(rt, row);
    let (asked, chosen) = cell(rt, row);
    let text = bytes_of(rt, alloc, "&H;&lf;&F;&lf;&R;&lf;&S;&lf;&V;&lf;")?;
    let query = query_of(rt, alloc, asked)?;
    let sides = Sides {
        name,
        text: &text,
        query: &query,
        chosen,
    };
    let inside = check_side(rt, alloc, &sides, false)?;
    let outside = check_side(rt, alloc, &sides, true)?;
    check_together(rt, inside, outside, name);
    Ok(())
}

/// A feature without vertices is in no box, so it is kept if those of a box are left out. One that
/// satisfies only one of two parts is kept, as is one that satisfies none.
const SIDES: &str = "
an id of two features|id=b1|F V
two ids|id=r1 id=b|R S
an id of none|id=w1|
no id|id|
buildings|type=Building|F S V
roads|type=Road|R V
two types|type=Road type=Building|F R S V
a type of none|type=Tunnel|
an LoD of two features|lod=2.2|F V
another LoD|lod=1|R V
two LoDs|lod=1 lod=2.2|F R V
an LoD of none|lod=2|
a box at the usual feature|bbox=1000,2000,1001,2001|F V
a box that touches the road|bbox=1001,2001,1005,2005|F R V
a box just beside the usual feature|bbox=1001.000000000000000001,2000,1005,2005|R
a box of none|bbox=0,0,1,1|
a box of all|bbox=-1e17,-1e17,1e17,1e17|F R V
an id and an LoD|id=b1 lod=1|V
a type and a box|type=Building bbox=1005,2005,1005,2005|
nothing asked|-|F R S V
";

#[test]
fn left_out_or_kept(rt: HostRuntime) -> Result<(), Fail> {
    for row in SIDES.trim().lines() {
        check_sides(&rt, rt.alloc(), row)?;
    }
    Ok(())
}

/// With a query that selects every feature, only the header is kept. A header without features is
/// kept as it is, also without its LF. An invalid line is kept in neither way: it is not a feature
/// that the query does not select.
const LEFT_OUT: &str = "
all left out|exclude|&H;&lf;&S;&lf;&F;|&H;&lf;||complete|3|0|0|350 65 8
a header alone|exclude|&H;|&H;||complete|1|0|0|140 21 3
others among refused lines|going exclude id=b1|&H;&lf;&F;&lf;{}&lf;&R;&lf;3&lf;&lf;&S;|&H;&lf;&R;&lf;&S;|3 0 10&lf;5 0 12&lf;|complete|7|2|2|350 65 8
one among refused lines|going id=b1|&H;&lf;&F;&lf;{}&lf;&R;&lf;3&lf;&lf;&S;|&H;&lf;&F;&lf;|3 0 10&lf;5 0 12&lf;|complete|7|1|2|350 65 8
a refused line is the end|exclude id=b1|&H;&lf;&F;&lf;{}&lf;&R;&lf;3&lf;&lf;&S;|&H;&lf;||line 3, byte 0: 10 member missing|2|0|0|350 65 8
";

#[test]
fn left_out_in_whole_streams(rt: HostRuntime) -> Result<(), Fail> {
    check_rows(&rt, rt.alloc(), LEFT_OUT)
}
