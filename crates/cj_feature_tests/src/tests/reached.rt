//! City objects that are reached from the main one: the marks, and what is found by them.
ghost use Rattle.cj_spans.specs.Marks.{AreUnmarked};
ghost use Rattle.cj_spans.specs.Sound.{AreOf};

use super::{HEADER, Judged, Table, all_meet, finding_text, is_text, line_of, tokens_of};
use cj_budget::Bounded;
use cj_feature::{check_feature, check_header, mark_reached};
use cj_spans::{Doc, Finding, Token};
use std::alloc::{AllocError, Global};
use std::process::Abort;
use std::test::Fail;

/// Returns the finding of a line as a feature whose city objects must all be reached.
pub fn tree_finding(rt: &impl Abort, alloc: Global, line: &[u8]) -> Option<Finding> {
    let header_tokens = tokens_of(rt, alloc, HEADER.as_bytes());
    let mut tokens = tokens_of(rt, alloc, line);
    mark_reached(line, &mut tokens);
    match check_header(Doc::of(HEADER.as_bytes(), header_tokens.as_slice()), false) {
        Ok(header) => match check_feature(Doc::of(line, tokens.as_slice()), &header, true, false) {
            Ok(_) => None,
            Err(finding) => Some(finding),
        },
        Err(_) => panic!(rt; "no header"),
    }
}

/// Returns the places of the nodes that have marks, in order.
fn marked_places(alloc: Global, line: &[u8], tokens: &Bounded<Token>) -> Result<String, AllocError>
    requires { AreOf line.now tokens.now.elements }
{
    let root = Doc::of(line, tokens.as_slice()).root();
    let mut places = String::new(alloc);
    for number in 0..root.size() {
        let node = root.at(number);
        if node.marked() {
            let place = format!(in alloc; "{} ", node.start())?;
            places.push_str(place.as_str())?;
        }
    }
    Ok(places)
}

/// Returns how many nodes have marks.
fn count_marks(line: &[u8], tokens: &Bounded<Token>) -> usize
    requires { AreOf line.now tokens.now.elements }
{
    let root = Doc::of(line, tokens.as_slice()).root();
    (0..root.size())
        .filter(|number| root.at(*number).marked())
        .count()
}

/// The row has marks at these places, and nowhere else.
fn marks_row(rt: &impl Abort, alloc: Global, pattern: &str, row: &str) -> Result<(), AllocError> {
    let (line, want) = line_of(rt, alloc, pattern, row)?;
    let mut tokens = tokens_of(rt, alloc, line.as_bytes());
    mark_reached(line.as_bytes(), &mut tokens);
    let places = marked_places(alloc, line.as_bytes(), &tokens)?;
    is_text(rt, places.trim(), &want, "marks", row);
    Ok(())
}

fn marks_meet(rt: &impl Abort, alloc: Global, pattern: &str, rows: &str) -> Result<(), AllocError> {
    for row in rows.trim().lines() {
        marks_row(rt, alloc, pattern, row)?;
    }
    Ok(())
}

/// City objects of a feature.
const OBJECTS: &str = r#"{"type":"CityJSONFeature","id":"b","CityObjects":{_},"vertices":[]}"#;

const MARKS: &str = r#"
    the main one alone | "b":{} | 54
    one apart | "b":{},"c":{} | 54
    one that it lists | "b":{"children":["c"]},"c":{} | 54 77
    one that lists it as a parent | "b":{},"c":{"parents":["b"]} | 54
    one that it lists as a parent | "b":{"parents":["c"]},"c":{} | 54
    a chain from the end | "q":{},"p":{"children":["q"]},"b":{"children":["p"]} | 54 61 84
    a circle apart | "b":{},"c":{"children":["d"]},"d":{"children":["c"]} | 54
    two of one name | "b":{},"c":{},"b":{"children":["c"]} | 54 61 68
    two of one name that are listed | "b":{"children":["c"]},"c":{},"c":{"children":["d"]},"d":{} | 54 77 84 107
    three of one name that list it | "b":{"children":["b"]},"b":{"children":["b"]},"b":{"children":["b"]} | 54 77 100
    three of one name that list it behind one apart | "c":{},"b":{"children":["b"]},"b":{"children":["b"]},"b":{"children":["b"]} | 61 84 107
    three of one name that are not side by side | "b":{"children":["b"]},"c":{},"b":{},"d":{"children":["b"]},"b":{"children":["c"]} | 54 77 84 114
    by escapes | "\u0062":{"children":["\u0063"]},"c":{} | 59 87
    a child that is nested | "b":{"children":[["c"]]},"c":{} | 54
    children that are no array | "b":{"children":"c"},"c":{} | 54
    the first children of two | "b":{"children":["c"],"children":["d"]},"c":{},"d":{} | 54 94
    values that are no objects | "b":[],"b":{"children":["c"]},"c":3 | 54 61 84
    one that is not there | "b":{"children":["x","c"]},"c":{} | 54 81
    "#;

const NO_MARKS: &str = r#"
    no id | "CityObjects":{"b":{}} |
    no city objects | "id":"b" |
    an id that is no text | "id":3,"CityObjects":{"3":{}} |
    an id of none | "id":"c","CityObjects":{"b":{}} |
    city objects that are no object | "id":"b","CityObjects":["b"] |
    the first id of two | "id":"c","id":"b","CityObjects":{"b":{}} |
    the first city objects of two | "id":"b","CityObjects":{},"CityObjects":{"b":{}} |
    "#;

#[test]
fn marks(rt: HostRuntime) -> Result<(), Fail> {
    let nothing_is_reached = r#"{"type":"CityJSONFeature",_,"vertices":[]}"#;
    marks_meet(&rt, rt.alloc(), OBJECTS, MARKS)?;
    marks_meet(&rt, rt.alloc(), nothing_is_reached, NO_MARKS)?;
    Ok(())
}

/// The same features are judged with the rule on what is reached and without it.
const APART: &str = r#"
        one apart | "b":{"type":"Building"},"c":^{"type":"Building"} | 31 not reached from the main object
        a circle apart | "b":{"type":"Building"},"c":^{"type":"Building","children":["d"],"parents":["d"]},"d":{"type":"Building","children":["c"],"parents":["c"]} | 31 not reached from the main object
        a group apart | "b":{"type":"Building"},"g":^{"type":"CityObjectGroup","children":["b"]} | 31 not reached from the main object
        one that is in a group elsewhere | "b":{"type":"Building"},"c":^{"type":"Building","parents":["g"]} | 31 not reached from the main object
        a part before its parent, which is apart too | "b":{"type":"Building"},"p":^{"type":"BuildingPart","parents":["c"]},"c":{"type":"Building","children":["p"]} | 31 not reached from the main object
        the parent of a main one of the second level | "b":{"type":"BuildingPart","parents":["c"]},"c":^{"type":"Building","children":["b"]} | 31 not reached from the main object
        a part beside a main one of the second level | "b":{"type":"BuildingPart","parents":["c"],"children":["c"]},"p":^{"type":"BuildingPart","parents":["d"]},"c":{"type":"Building","children":["b"],"parents":["b"]},"d":{"type":"Building","children":["p"]} | 31 not reached from the main object
        "#;

/// Their rows without the rule.
const TOGETHER: &str = r#"
        one apart | "b":{"type":"Building"},"c":{"type":"Building"} | none
        a circle apart | "b":{"type":"Building"},"c":{"type":"Building","children":["d"],"parents":["d"]},"d":{"type":"Building","children":["c"],"parents":["c"]} | none
        a group apart | "b":{"type":"Building"},"g":{"type":"CityObjectGroup","children":["b"]} | none
        one that is in a group elsewhere | "b":{"type":"Building"},"c":{"type":"Building","parents":["g"]} | none
        a part before its parent, which is apart too | "b":{"type":"Building"},"p":{"type":"BuildingPart","parents":["c"]},"c":{"type":"Building","children":["p"]} | none
        the parent of a main one of the second level | "b":{"type":"BuildingPart","parents":["c"]},"c":{"type":"Building","children":["b"]} | none
        a part beside a main one of the second level | "b":{"type":"BuildingPart","parents":["c"],"children":["c"]},"p":{"type":"BuildingPart","parents":["d"]},"c":{"type":"Building","children":["b"],"parents":["b"]},"d":{"type":"Building","children":["p"]} | none
        "#;

/// City objects of a feature that has vertices.
const WITH_VERTICES: &str =
    r#"{"type":"CityJSONFeature","id":"b","CityObjects":{_},"vertices":[[0,0,0],[9,0,0],[9,9,0]]}"#;

/// Features whose city objects have geometries and attributes, with the rule.
const FILLED_APART: &str = r#"
        one apart without geometries | "b":{"type":"Building"},"c":^{"type":"Building","geometry":[]} | 31 not reached from the main object
        one apart with a geometry | "b":{"type":"Building"},"c":^{"type":"Building","geometry":[{"type":"MultiSurface","lod":"2","boundaries":[[[0,1,2]]]}]} | 31 not reached from the main object
        one apart without attributes | "b":{"type":"Building"},"c":^{"type":"Building","attributes":{}} | 31 not reached from the main object
        one apart with an attribute | "b":{"type":"Building"},"c":^{"type":"Building","attributes":{"height":9}} | 31 not reached from the main object
        a part apart with both | "b":{"type":"Building"},"p":^{"type":"BuildingPart","geometry":[],"attributes":{},"parents":["c"]},"c":{"type":"Building","children":["p"]} | 31 not reached from the main object
        "#;

/// Their rows without the rule.
const FILLED_TOGETHER: &str = r#"
        one apart without geometries | "b":{"type":"Building"},"c":{"type":"Building","geometry":[]} | none
        one apart with a geometry | "b":{"type":"Building"},"c":{"type":"Building","geometry":[{"type":"MultiSurface","lod":"2","boundaries":[[[0,1,2]]]}]} | none
        one apart without attributes | "b":{"type":"Building"},"c":{"type":"Building","attributes":{}} | none
        one apart with an attribute | "b":{"type":"Building"},"c":{"type":"Building","attributes":{"height":9}} | none
        a part apart with both | "b":{"type":"Building"},"p":{"type":"BuildingPart","geometry":[],"attributes":{},"parents":["c"]},"c":{"type":"Building","children":["p"]} | none
        "#;

/// Features whose findings are the same with the rule and without it.
const SAME: &str = r#"
        the main one alone | "b":{"type":"Building"} | none
        a chain from the end | "q":{"type":"BuildingPart","parents":["p"]},"p":{"type":"BuildingPart","parents":["b"],"children":["q"]},"b":{"type":"Building","children":["p"]} | none
        a main one of the second level that lists its parent | "b":{"type":"BuildingPart","parents":["c"],"children":["c"]},"c":{"type":"Building","children":["b"],"parents":["b"]} | none
        itself | "b":{"type":"Building","children":["b"],"parents":["b"]} | none
        a circle | "b":{"type":"Building","children":["c"],"parents":["c"]},"c":{"type":"Building","children":["b"],"parents":["b"]} | none
        a group of a group | "b":{"type":"CityObjectGroup","children":["g"]},"c":{"type":"Building"},"g":{"type":"CityObjectGroup","children":["c","x"]} | none
        by escapes | "b":{"type":"Building","children":["\u0070"]},"\u0070":{"type":"BuildingPart","parents":["\u0062"]} | none
        children of the second of two | "c":{"type":"Building","parents":["b"]},"b":{"type":"Building"},^"b":{"type":"Building","children":["c"]} | 11 duplicate name
        two of one name that are listed | "b":{"type":"Building","children":["c"]},"c":{"type":"Building","parents":["b"]},^"c":{"type":"Building","parents":["b"]} | 11 duplicate name
        one apart that is no object | "b":{"type":"Building"},"c":^3 | 12 wrong kind
        one apart behind a fault | "b":{"type":^"Shed"},"c":{"type":"Building"} | 19 unknown object type
        one apart without parents, which it needs | "b":{"type":"Building"},"c":^{"type":"BuildingPart"} | 10 member missing
        one apart of no parent in the feature | "b":{"type":"Building"},"c":^{"type":"BuildingPart","parents":["g"]} | 23 no parent in the feature
        "#;

const FEATURES: [Table; 3] = [
    Table {
        name: "city objects apart with geometries and attributes, without the rule",
        pattern: WITH_VERTICES,
        rows: FILLED_TOGETHER,
    },
    Table {
        name: "city objects apart, without the rule",
        pattern: OBJECTS,
        rows: TOGETHER,
    },
    Table {
        name: "the same without the rule",
        pattern: OBJECTS,
        rows: SAME,
    },
];

const TREES: [Table; 5] = [
    Table {
        name: "city objects apart with geometries and attributes",
        pattern: WITH_VERTICES,
        rows: FILLED_APART,
    },
    Table {
        name: "city objects apart",
        pattern: OBJECTS,
        rows: APART,
    },
    Table {
        name: "the same with the rule",
        pattern: OBJECTS,
        rows: SAME,
    },
    Table {
        name: "not reached before other faults",
        pattern: OBJECTS,
        rows: r#"
        of an unknown type | "b":{"type":"Building"},"c":^{"type":"Shed"} | 31 not reached from the main object
        that lists the main one as a parent | "b":{"type":"Building"},"c":^{"type":"Building","parents":["b"]} | 31 not reached from the main object
        before children that are no array | "c":^{"type":"Building"},"b":{"type":"Building","children":"c"} | 31 not reached from the main object
        before a child that is no text | "c":^{"type":"Building"},"b":{"type":"Building","children":[["c"]]} | 31 not reached from the main object
        "#,
    },
    Table {
        name: "the rule where it does not apply",
        pattern: r#"_"#,
        rows: r#"
        no id | ^{"type":"CityJSONFeature","CityObjects":{"b":{"type":"Building"}},"vertices":[]} | 10 member missing
        an id that is no text | {"type":"CityJSONFeature","CityObjects":{"3":{"type":"Building"}},"id":^3,"vertices":[]} | 12 wrong kind
        an id of none | {"type":"CityJSONFeature","CityObjects":{"b":{"type":"Building"}},"id":^"c","vertices":[]} | 20 id not among the city objects
        no city objects | ^{"type":"CityJSONFeature","id":"b","vertices":[]} | 10 member missing
        city objects that are no object | {"type":"CityJSONFeature","id":"b","CityObjects":^["b"],"vertices":[]} | 12 wrong kind
        a text that has no mark | ^[] | 12 wrong kind
        "#,
    },
];

#[test]
fn what_is_not_reached(rt: HostRuntime) -> Result<(), Fail> {
    all_meet(&rt, rt.alloc(), Judged::Feature(HEADER), &FEATURES)?;
    all_meet(&rt, rt.alloc(), Judged::Tree, &TREES)?;
    Ok(())
}

/// Adds a group of this number, which lists this child.
fn push_group(
    alloc: Global,
    objects: &mut String,
    number: u32,
    child: &str,
) -> Result<(), AllocError> {
    let comma = if number == 0 { "" } else { "," };
    objects.push_str(&format!(in alloc;
        r#"{comma}"o{number}":{{"type":"CityObjectGroup","children":[{child}]}}"#
    )?)
}

/// Returns the child of a group in a chain.
fn child_of(alloc: Global, number: u32, cut: u32) -> Result<String, AllocError> {
    match number.checked_sub(1) {
        Some(before) if number != cut => format!(in alloc; "\"o{before}\""),
        _ => Ok(String::new(alloc)),
    }
}

/// A feature of `count` groups. Each lists the one before it, but the one at `cut` lists none. The
/// feature's id is that of the last.
fn chain(alloc: Global, count: u32, cut: u32) -> Result<String, AllocError> {
    let mut objects = String::new(alloc);
    for number in 0..count {
        let child = child_of(alloc, number, cut)?;
        push_group(alloc, &mut objects, number, &child)?;
    }
    let last = count.saturating_sub(1);
    format!(in alloc;
        "{{\"type\":\"CityJSONFeature\",\"id\":\"o{last}\",\"CityObjects\":{{{objects}}},\"vertices\":[]}}"
    )
}

/// The line has this number of marks.
fn has_marks(rt: &impl Abort, alloc: Global, line: &[u8], marks: usize) {
    let mut tokens = tokens_of(rt, alloc, line);
    mark_reached(line, &mut tokens);
    assert_eq!(rt; count_marks(line, &tokens), marks);
}

/// The line has this finding, as a feature whose city objects must all be reached.
fn has_finding(rt: &impl Abort, alloc: Global, line: &[u8], want: &str) -> Result<(), AllocError> {
    let found = finding_text(alloc, tree_finding(rt, alloc, line))?;
    is_text(rt, &found, want, "what is reached", "many");
    Ok(())
}

/// A line has this number of marks and this finding.
fn line_meets(
    rt: &impl Abort,
    alloc: Global,
    line: &str,
    marks: usize,
    want: &str,
) -> Result<(), AllocError> {
    has_marks(rt, alloc, line.as_bytes(), marks);
    has_finding(rt, alloc, line.as_bytes(), want)
}

/// How many city objects a chain has, where it is cut, and its marks and its finding.
type ChainRow = (u32, u32, usize, &'static str);

/// The first city object of a chain whose last number has three digits is at byte 58.
const CHAINS: [ChainRow; 3] = [
    (9, 0, 9, "none"),
    (1_000, 0, 1_000, "none"),
    (1_000, 400, 600, "58 31 not reached from the main object"),
];

/// Chains for the large guide.
const LONG_CHAINS: [ChainRow; 2] = [
    (5_000, 0, 5_000, "none"),
    (5_000, 400, 4_600, "59 31 not reached from the main object"),
];

fn chains_meet(rt: &impl Abort, alloc: Global, rows: &[ChainRow]) -> Result<(), AllocError> {
    for (count, cut, marks, want) in rows {
        let line = chain(alloc, *count, *cut)?;
        line_meets(rt, alloc, &line, *marks, *want)?;
    }
    Ok(())
}

#[test]
fn chains_from_the_end(rt: HostRuntime) -> Result<(), Fail> {
    chains_meet(&rt, rt.alloc(), CHAINS.as_slice())?;
    chains_meet(&rt, rt.alloc(), LONG_CHAINS.as_slice())?;
    Ok(())
}

/// A group of `count` short city objects of one name, and one that is not reached.
fn short_ones(alloc: Global, count: u32) -> Result<String, AllocError> {
    let mut objects = String::new(alloc);
    for _ in 0..count {
        objects.push_str(r#","c":0"#)?;
    }
    let group = r#""b":{"type":"CityObjectGroup","children":["c"]}"#;
    format!(in alloc;
        "{{\"type\":\"CityJSONFeature\",\"id\":\"b\",\"CityObjects\":{{{group}{objects},\"d\":0}},\"vertices\":[]}}"
    )
}

/// They need the guide of middle size.
#[test]
fn many_short_ones(rt: HostRuntime) -> Result<(), Fail> {
    let line = short_ones(rt.alloc(), 5_000)?;
    line_meets(&rt, rt.alloc(), &line, 5_001, "102 12 wrong kind")?;
    Ok(())
}

/// A city object that is not reached. After it come `count` groups of the name of the main one, and
/// each lists that name.
fn namesakes(alloc: Global, count: u32) -> Result<String, AllocError> {
    let mut objects = String::new(alloc);
    for _ in 0..count {
        objects.push_str(r#","b":{"type":"CityObjectGroup","children":["b"]}"#)?;
    }
    format!(in alloc;
        "{{\"type\":\"CityJSONFeature\",\"id\":\"b\",\"CityObjects\":{{\"c\":{{\"type\":\"Building\"}}{objects}}},\"vertices\":[]}}"
    )
}

#[test]
fn many_of_one_name(rt: HostRuntime) -> Result<(), Fail> {
    let line = namesakes(rt.alloc(), 1_000)?;
    let want = "54 31 not reached from the main object";
    line_meets(&rt, rt.alloc(), &line, 1_000, want)?;
    Ok(())
}
