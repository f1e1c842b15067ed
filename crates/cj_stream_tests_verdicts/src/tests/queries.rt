//! Rows of queries: which features of a stream are kept.
use super::calls::{check_at, check_joined, check_named, check_text};
use super::rows::{ask, bytes_of, cell, end_told, query_of};
use cj_budget::Limits;
use cj_stream::{End, Outcome, Query, QueryFault};
use cj_stream_testkit::{
    FEATURE, HEADER, Parts, Reading, SEVERAL, STREAM, SlowReader, joined,
    query_of as query_of_parts, written_by,
};
use std::alloc::Global;
use std::process::Abort;
use std::test::Fail;

/// Runs over a text. Returns the outcome, and what was written.
fn kept_of(alloc: Global, text: &[u8], limits: Limits, query: &Query) -> (Outcome, Vec<u8>) {
    let mut reader = SlowReader::new(text, 8_192);
    written_by(alloc, &mut reader, &Reading::usual(limits, query))
}

/// A header and a feature.
#[derive(Clone, Copy)]
struct Pair<'a> {
    header: &'a [u8],
    feature: &'a [u8],
}

const USUAL: Pair = Pair {
    header: HEADER,
    feature: FEATURE,
};

const MIXED: Pair = Pair {
    header: HEADER,
    feature: SEVERAL,
};

/// Runs over a header and a feature, and checks whether the feature is kept.
fn check_keeps(
    rt: &impl Abort,
    alloc: Global,
    pair: Pair,
    query: &Query,
    keeps: bool,
    row: &str,
) -> Result<(), Fail> {
    let lines = [pair.header, b"\n", pair.feature, b"\n"];
    let text = joined(alloc, &lines)?;
    let (outcome, written) = kept_of(alloc, &text, Limits::usual(), query);
    check_at(rt, outcome.ended, End::Complete, row, 0);
    check_at(rt, outcome.lines, 2, row, 1);
    check_at(rt, outcome.kept, keeps.into(), row, 2);
    let kept = if keeps { 4 } else { 2 };
    check_joined(rt, alloc, &written, &lines[..kept], row, 3)
}

/// Runs over a header and a feature. One of them is invalid.
fn check_refused(
    rt: &impl Abort,
    alloc: Global,
    pair: Pair,
    query: &Query,
    ended: &str,
    row: &str,
) -> Result<(), Fail> {
    let text = joined(alloc, &[pair.header, b"\n", pair.feature, b"\n"])?;
    let (outcome, _) = kept_of(alloc, &text, Limits::usual(), query);
    check_text(rt, &end_told(alloc, outcome.ended)?, ended, row, 0);
    Ok(())
}

/// Checks a row: its name, the query, and `kept`, `left out`, or how the stream ends.
fn check_row(rt: &impl Abort, alloc: Global, pair: Pair, row: &str) -> Result<(), Fail> {
    let (name, row) = cell(rt, row);
    let (asked, answer) = cell(rt, row);
    let query = query_of(rt, alloc, asked)?;
    match answer {
        "kept" => check_keeps(rt, alloc, pair, &query, true, name),
        "left out" => check_keeps(rt, alloc, pair, &query, false, name),
        _ => check_refused(rt, alloc, pair, &query, answer, name),
    }
}

/// Checks the rows of a header and a feature.
fn check_rows(rt: &impl Abort, alloc: Global, pair: Pair, rows: &str) -> Result<(), Fail> {
    for row in rows.lines() {
        check_row(rt, alloc, pair, row)?;
    }
    Ok(())
}

/// Checks a table. Its first line has the header and the feature, and the others are rows.
fn check_table(rt: &impl Abort, alloc: Global, table: &str) -> Result<(), Fail> {
    let (first, rows) = table.trim().split_once('\n').expect(rt, "a line, and rows");
    let (header, feature) = cell(rt, first);
    let header = bytes_of(rt, alloc, header)?;
    let feature = bytes_of(rt, alloc, feature)?;
    let pair = Pair {
        header: &header,
        feature: &feature,
    };
    check_rows(rt, alloc, pair, rows)
}

#[test]
fn by_id_type_and_lod(rt: HostRuntime) -> Result<(), Fail> {
    let usual = "
&H;|&F;
its id|id=b1|kept
another id|id=b2|left out
one of two ids|id=b2 id=b1|kept
no id|id|left out
a front of its id|id=b|left out
its LoD|lod=2.2|kept
a front of its LoD|lod=2|left out
an equal number|lod=2.20|left out
no LoD|lod|left out
its type|type=Building|kept
one of two types|type=Bridge type=Building|kept
another type|type=BuildingPart|left out
no type|type|left out
";
    check_table(&rt, rt.alloc(), usual)
}

#[test]
fn by_id_type_and_lod_of_one_among_several(rt: HostRuntime) -> Result<(), Fail> {
    let several = "
&H;|&V;
its id|id=b1|kept
the name of another city object|id=r1|left out
one of three ids|id=r1 id=w1 id=b1|kept
the first type|type=Building|kept
the second type|type=Road|kept
the last type|type=WaterBody|kept
one of two types|type=Tunnel type=WaterBody|kept
two other types|type=Tunnel type=Bridge|left out
the first LoD|lod=1|kept
the LoD between|lod=1.2|kept
the last LoD|lod=2.2|kept
one of two LoDs|lod=3 lod=2.2|kept
a front of the last LoD|lod=2|left out
two other LoDs|lod=1.1 lod=3|left out
";
    check_table(&rt, rt.alloc(), several)
}

#[test]
fn by_lists(rt: HostRuntime) -> Result<(), Fail> {
    let usual = "
&H;|&F;
its id among two|ids=b2,b1|kept
its id alone|ids=b1|kept
ids in place of its id|id=b1 ids=b2,b3|left out
its id after ids|ids=b2 id=b1|kept
an empty id alone|ids=|left out
ids between semicolons|ids;=b2;b1|kept
a comma in an id|ids;=b2,b1|left out
its type among two|types=Bridge,Building|kept
types in place of its type|type=Building types=Bridge|left out
its LoD among two|lods=1,2.2|kept
its LoD and an empty one|lods=2.2,|kept
an empty LoD and another|lods=,2|left out
LoDs in place of its LoD|lod=2.2 lods=1|left out
";
    check_table(&rt, rt.alloc(), usual)
}

const BOXES_OF_SEVERAL: &str = "
&H;|&V;
from its greatest x|bbox=1001,2000,1005,2005|kept
from its greatest y|bbox=1000,2001,1005,2005|kept
from both|bbox=1001,2001,1005,2005|kept
just after its greatest x|bbox=1001.000000000000000001,2000,1005,2005|left out
just after its greatest y|bbox=1000,2001.000000000000000001,1005,2005|left out
up to its least x and y|bbox=0,0,1000,2000|kept
up to just before its least x|bbox=0,0,999.999999999999999999,2000|left out
up to just before its least y|bbox=0,0,1000,1999.999999999999999999|left out
a point inside|bbox=1000.25,2000.25,1000.25,2000.25|kept
";

const BOXES_OF_THE_USUAL: &str = "
&H;|&F;
from its greatest x and y|bbox=1001,2001,1005,2005|kept
just after its greatest x|bbox=1001.000000000000000001,2001,1005,2005|left out
just after its greatest y|bbox=1001,2001.000000000000000001,1005,2005|left out
up to its least x and y|bbox=0,0,1000,2000|kept
up to just before its least x|bbox=0,0,999.999999999999999999,2000|left out
up to just before its least y|bbox=0,0,1000,1999.999999999999999999|left out
a point inside|bbox=1000.5,2000.5,1000.5,2000.5|kept
a point at its least x|bbox=1000,2000.5,1000,2000.5|kept
a point at its least y|bbox=1000.5,2000,1000.5,2000|kept
around it|bbox=-5,0,5000,5000|kept
inside, with exponents|bbox=1.0005e3,2000.5,1.0006e3,2000.6|kept
";

#[test]
fn by_box(rt: HostRuntime) -> Result<(), Fail> {
    check_table(&rt, rt.alloc(), BOXES_OF_SEVERAL)?;
    check_table(&rt, rt.alloc(), BOXES_OF_THE_USUAL)
}

/// The first scale is negative, so x runs from 999 to 1000.
const TURNED: &str = r#"
{"type":"CityJSON","version":"2.0","transform":{"scale":[-0.001,0.001,0.001],"translate":[1000.0,2000.0,0.0]},"CityObjects":{},"vertices":[]}|&F;
at its least x|bbox=999,2000,999,2000|kept
after its greatest x|bbox=1000.5,2000,1001,2001|left out
up to just before its least x|bbox=998,2000,998.999999999999999999,2001|left out
"#;

/// The first scale is 0, so x is always 1000.
const FLAT: &str = r#"
{"type":"CityJSON","version":"2.0","transform":{"scale":[0,0.001,0.001],"translate":[1000.0,2000.0,0.0]},"CityObjects":{},"vertices":[]}|&F;
at its x|bbox=1000,2000,1000,2000|kept
just after its x|bbox=1000.000000000000000001,2000,1001,2001|left out
"#;

/// The greatest scale and the greatest coordinates: the numbers have 36 digits.
const FAR: &str = r#"
{"type":"CityJSON","version":"2.0","transform":{"scale":[999999999999999999,999999999999999999,1],"translate":[0,0,0]},"CityObjects":{},"vertices":[]}|{"type":"CityJSONFeature","id":"b","CityObjects":{"b":{"type":"Building"}},"vertices":[[999999999999999999,0,0]]}
far|bbox=0,0,999999999999999999,0|left out
"#;

const WIDE: &str = r#"
{"type":"CityJSON","version":"2.0","transform":{"scale":[999999999999999999,999999999999999999,1],"translate":[0,0,0]},"CityObjects":{},"vertices":[]}|{"type":"CityJSONFeature","id":"b","CityObjects":{"b":{"type":"Building"}},"vertices":[[-999999999999999999,0,0],[999999999999999999,0,0]]}
wide|bbox=0,0,999999999999999999,0|kept
"#;

/// A translation that is no multiple of 10^-18 is invalid only with a box.
const FINE: &str = r#"
{"type":"CityJSON","version":"2.0","transform":{"scale":[0.001,0.001,0.001],"translate":[1e-19,2000.0,0.0]},"CityObjects":{},"vertices":[]}|&F;
a box|bbox=0,0,1,1|line 1, byte 89: 30 transform not fixed
no box|-|kept
"#;

/// A feature without vertices is in no box.
const BARE: &str = r#"
&H;|{"type":"CityJSONFeature","id":"b","CityObjects":{"b":{"type":"Building"}},"vertices":[]}
no vertices|bbox=-1e17,-1e17,1e17,1e17|left out
no LoD|lod=2.2|left out
its id|id=b|kept
"#;

#[test]
fn by_box_under_other_headers(rt: HostRuntime) -> Result<(), Fail> {
    for table in [TURNED, FLAT, FAR, WIDE, FINE, BARE] {
        check_table(&rt, rt.alloc(), table)?;
    }
    Ok(())
}

/// Texts are compared with their escapes undone, and a comma in one is a letter like any other.
const ESCAPED: &str = r#"
&H;|{"type":"CityJSONFeature","id":"\u0061,\u20ac","CityObjects":{"a,€":{"type":"\u0042uilding","geometry":[{"type":"MultiPoint","lod":"\u0032.2","boundaries":[]}]}},"vertices":[]}
its id|id=a,€|kept
parts of its id|id=a id=€|left out
its spelling|id=\u0061,\u20ac|left out
its LoD|lod=2.2|kept
the LoD's spelling|lod=\u0032.2|left out
its type|type=Building|kept
"#;

#[test]
fn by_texts_with_escapes(rt: HostRuntime) -> Result<(), Fail> {
    check_table(&rt, rt.alloc(), ESCAPED)
}

/// A header with one template, of LoD 1. A plant is an instance of it.
const TEMPLATE: &str = r#"
{"type":"CityJSON","version":"2.0","transform":{"scale":[0.001,0.001,0.001],"translate":[1000.0,2000.0,0.0]},"CityObjects":{},"vertices":[],"geometry-templates":{"templates":[{"type":"MultiSurface","lod":"1","boundaries":[[[0,1,2]]]}],"vertices-templates":[[0.0,0.0,0.0],[1.0,0.0,0.0],[0.0,1.0,0.0]]}}|{"type":"CityJSONFeature","id":"b","CityObjects":{"b":{"type":"SolitaryVegetationObject","geometry":[{"type":"GeometryInstance","template":0,"boundaries":[0],"transformationMatrix":[1,0,0,0,0,1,0,0,0,0,1,0,0,0,0,1]}]}},"vertices":[[0,0,0]]}
its LoD|lod=1|kept
another|lod=2|left out
"#;

/// A plant is an instance of a second template, which the header lacks.
const SECOND: &str = r#"
{"type":"CityJSON","version":"2.0","transform":{"scale":[0.001,0.001,0.001],"translate":[1000.0,2000.0,0.0]},"CityObjects":{},"vertices":[],"geometry-templates":{"templates":[{"type":"MultiSurface","lod":"1","boundaries":[[[0,1,2]]]}],"vertices-templates":[[0.0,0.0,0.0],[1.0,0.0,0.0],[0.0,1.0,0.0]]}}|{"type":"CityJSONFeature","id":"b","CityObjects":{"b":{"type":"SolitaryVegetationObject","geometry":[{"type":"GeometryInstance","template":1,"boundaries":[0],"transformationMatrix":[1,0,0,0,0,1,0,0,0,0,1,0,0,0,0,1]}]}},"vertices":[[0,0,0]]}
the second|lod=1|line 2, byte 139: 28 template index out of range
"#;

/// A plant is an instance of the first template, and the header has none.
const LOST: &str = r#"
&H;|{"type":"CityJSONFeature","id":"b","CityObjects":{"b":{"type":"SolitaryVegetationObject","geometry":[{"type":"GeometryInstance","template":0,"boundaries":[0],"transformationMatrix":[1,0,0,0,0,1,0,0,0,0,1,0,0,0,0,1]}]}},"vertices":[[0,0,0]]}
the first of none|lod=1|line 2, byte 139: 28 template index out of range
"#;

/// A building with a geometry of LoD 3, and a plant that is an instance of the first template.
const TEMPLATE_AMONG_SEVERAL: &str = r#"
{"type":"CityJSON","version":"2.0","transform":{"scale":[0.001,0.001,0.001],"translate":[1000.0,2000.0,0.0]},"CityObjects":{},"vertices":[],"geometry-templates":{"templates":[{"type":"MultiSurface","lod":"1","boundaries":[[[0,1,2]]]}],"vertices-templates":[[0.0,0.0,0.0],[1.0,0.0,0.0],[0.0,1.0,0.0]]}}|{"type":"CityJSONFeature","id":"b","CityObjects":{"b":{"type":"Building","geometry":[{"type":"MultiPoint","lod":"3","boundaries":[0]}]},"t":{"type":"SolitaryVegetationObject","geometry":[{"type":"GeometryInstance","template":0,"boundaries":[0],"transformationMatrix":[1,0,0,0,0,1,0,0,0,0,1,0,0,0,0,1]}]}},"vertices":[[0,0,0]]}
the template's LoD|lod=1|kept
the LoD before it|lod=3|kept
another|lod=2|left out
the second type|type=SolitaryVegetationObject|kept
"#;

/// An instance has the LoD of its template, and no other.
#[test]
fn by_the_lod_of_a_template(rt: HostRuntime) -> Result<(), Fail> {
    for table in [TEMPLATE, SECOND, LOST, TEMPLATE_AMONG_SEVERAL] {
        check_table(&rt, rt.alloc(), table)?;
    }
    Ok(())
}

/// Returns a state of a part: not set, empty, a text that the usual feature has, or one that it
/// lacks.
fn texts<'a>(state: u32, has: &'a [&'a str], lacks: &'a [&'a str]) -> Option<&'a [&'a str]> {
    match state {
        0 => None,
        1 => Some(&[]),
        2 => Some(has),
        _ => Some(lacks),
    }
}

fn bounds(state: u32) -> Option<&'static str> {
    match state {
        0 => None,
        1 => Some("0,0,1,1"),
        2 => Some("1000,2000,1000,2000"),
        _ => Some("2000,2000,2001,2001"),
    }
}

/// Returns whether the feature satisfies the part, or the part is not set.
fn is_kept(state: u32) -> bool {
    state == 0 || state == 2
}

/// Checks each part in each state, with each state of each other part.
fn check_each_part<'a>(
    rt: &impl Abort,
    alloc: Global,
    pair: Pair<'a>,
    types: &'a [&'a str],
) -> Result<(), Fail> {
    for states in 0..256_u32 {
        let (id, kind, lod, place) = (states % 4, states / 4 % 4, states / 16 % 4, states / 64 % 4);
        let parts = Parts {
            ids: texts(id, &["b1"], &["b2"]),
            types: texts(kind, types, &["Tunnel"]),
            lods: texts(lod, &["2.2"], &["2"]),
            bounds: bounds(place),
        };
        let keeps = is_kept(id) && is_kept(kind) && is_kept(lod) && is_kept(place);
        check_keeps(
            rt,
            alloc,
            pair,
            &query_of_parts(alloc, &parts)?,
            keeps,
            "parts",
        )?;
    }
    Ok(())
}

#[test]
fn each_part_has_to_hold(rt: HostRuntime) -> Result<(), Fail> {
    check_each_part(&rt, rt.alloc(), USUAL, &["Building"])?;
    check_each_part(&rt, rt.alloc(), MIXED, &["Road"])?;
    check_each_part(&rt, rt.alloc(), MIXED, &["Bridge", "WaterBody"])
}

/// Compares what a setter returned.
fn check_fault(
    rt: &impl Abort,
    got: Result<(), QueryFault>,
    wanted: Result<(), QueryFault>,
    row: &str,
) {
    check_named(rt, got, wanted, row);
}

/// Runs over the usual header and feature, and checks whether the feature is kept.
fn check_query(rt: &impl Abort, alloc: Global, query: &Query, keeps: bool, row: &str) {
    let (outcome, _) = kept_of(alloc, STREAM, Limits::usual(), query);
    check_at(rt, outcome.kept, keeps.into(), row, 0);
}

/// Does to a query what the words say, and checks whether the usual feature is kept then.
fn check_step(rt: &impl Abort, alloc: Global, query: &mut Query, words: &str, keeps: bool) {
    for word in words.split(' ') {
        check_fault(rt, ask(rt, query, word, false), Ok(()), word);
    }
    check_query(rt, alloc, query, keeps, words);
}

/// An unknown type is an error, and changes nothing.
#[test]
fn an_unknown_type(rt: HostRuntime) {
    let mut query = Query::all(rt.alloc());
    check_step(&rt, rt.alloc(), &mut query, "type=Building", true);
    let unknown = Err(QueryFault::UnknownTypeName);
    check_fault(&rt, query.add_type("+Shed", false), unknown, "+Shed");
    check_query(&rt, rt.alloc(), &query, true, "after +Shed");
    check_fault(&rt, query.add_type("Shed+", true), unknown, "Shed+");
    check_query(&rt, rt.alloc(), &query, true, "after Shed+");
    check_step(&rt, rt.alloc(), &mut query, "type", false);
}

/// A list with a type of an extension is an error unless such types are known.
#[test]
fn a_type_of_an_extension_in_a_list(rt: HostRuntime) {
    let mut query = Query::all(rt.alloc());
    let list = "+Shed,Building";
    let unknown = Err(QueryFault::UnknownTypeName);
    check_fault(&rt, query.set_types(list, ',', false), unknown, list);
    check_query(&rt, rt.alloc(), &query, false, "unknown");
    check_fault(&rt, query.set_types(list, ',', true), Ok(()), list);
    check_query(&rt, rt.alloc(), &query, true, "known");
}

/// An unknown type in a list is an error, and the types after it are not set.
#[test]
fn an_unknown_type_in_a_list(rt: HostRuntime) {
    let mut query = Query::all(rt.alloc());
    let unknown = Err(QueryFault::UnknownTypeName);
    check_fault(
        &rt,
        query.set_types("Bridge,Shed,Building", ',', true),
        unknown,
        "Shed",
    );
    check_query(&rt, rt.alloc(), &query, false, "after Shed");
    check_step(&rt, rt.alloc(), &mut query, "types=Bridge,Building", true);
}

/// Checks that an invalid box leaves the one before it.
fn check_box(rt: &impl Abort, alloc: Global, query: &mut Query, text: &str, fault: QueryFault) {
    check_fault(rt, query.bbox(text), Err(fault), text);
    assert!(rt; query.wants_box());
    check_query(rt, alloc, query, true, text);
}

#[test]
fn boxes_that_are_refused(rt: HostRuntime) {
    let mut query = Query::all(rt.alloc());
    check_fault(&rt, query.bbox("1000,2000,1001,2001"), Ok(()), "a box");
    for (text, fault) in [
        ("1,2,3", QueryFault::BadBox),
        ("1,2,3,4,5", QueryFault::BadBox),
        ("", QueryFault::BadBox),
        ("1, 2,3,4", QueryFault::BadBox),
        ("01,2,3,4", QueryFault::BadBox),
        ("1e18,0,2,x", QueryFault::BadBox),
        ("1e18,0,2e18,1", QueryFault::BoxRange),
        ("1e-19,0,1,1", QueryFault::BoxRange),
        ("3,0,1e99,1", QueryFault::BoxRange),
        ("3,0,1,1", QueryFault::EmptyBox),
        ("0,1.000000000000000001,1,1", QueryFault::EmptyBox),
    ] {
        check_box(&rt, rt.alloc(), &mut query, text, fault);
    }
}

/// A part that is started again begins empty. A text that is added to a part that is not set is its
/// first.
#[test]
fn parts_are_set_anew(rt: HostRuntime) {
    let mut query = Query::all(rt.alloc());
    for (words, keeps) in [
        ("id=b2", false),
        ("id=b1", true),
        ("id", false),
        ("id=b1 lod=2", false),
        ("lod lod=2.2", true),
        ("bbox=0,0,1,1", false),
        ("bbox=0,0,1e4,1e4", true),
    ] {
        check_step(&rt, rt.alloc(), &mut query, words, keeps);
    }
}
