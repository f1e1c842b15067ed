//! The level of detail of a geometry. A row expects the byte and the spelling of the value that is
//! returned.
ghost use Rattle.cj_spans.specs.Meaning.Parts.{items_of};
ghost use Rattle.cj_spans.specs.View.{tree};
ghost use Rattle.cj_geometry.specs.ListSteps.{AreStepsOf};

use super::{Given, Table, is_text, line_of, list_line, templates_of, tokens_of};
use cj_geometry::{Lods, Steps, Templates, lod_of};
use cj_spans::{Doc, Kind, Node};
use std::alloc::{AllocError, Global};
use std::process::Abort;
use std::test::Fail;

/// Returns a value as a row has it.
fn spelled(rt: &impl Abort, alloc: Global, value: Option<Node>) -> Result<String, AllocError> {
    match value {
        Some(node) => {
            let bytes = str::from_utf8(node.bytes()).expect(rt, "a text");
            format!(in alloc; "{} {bytes}", node.start())
        }
        None => String::from_str(alloc, "none"),
    }
}

/// Returns the level of detail of a line that is a geometry.
fn lod_in(rt: &impl Abort, alloc: Global, line: &[u8], given: Given) -> Result<String, AllocError> {
    let list_line = list_line(given);
    let list_tokens = tokens_of(rt, alloc, list_line);
    let list = Doc::of(list_line, list_tokens.as_slice()).root();
    let templates = templates_of(rt, given, list);
    let tokens = tokens_of(rt, alloc, line);
    let node = Doc::of(line, tokens.as_slice()).root();
    spelled(rt, alloc, lod_of(node, templates))
}

/// Checks that a row of the table has the level of detail that it expects.
fn answers_row(
    rt: &impl Abort,
    alloc: Global,
    given: Given,
    table: &Table,
    row: &str,
) -> Result<(), AllocError> {
    let (line, want) = line_of(rt, alloc, table.geometry, row)?;
    let found = lod_in(rt, alloc, line.as_bytes(), given)?;
    is_text(rt, &found, &want, table.name, row);
    Ok(())
}

/// Checks that each row of the table has the level of detail that it expects.
fn answers(rt: &impl Abort, alloc: Global, given: Given, table: &Table) -> Result<(), AllocError> {
    for row in table.rows.trim().lines() {
        answers_row(rt, alloc, given, table, row)?;
    }
    Ok(())
}

/// Checks that each row of each table has the level of detail that it expects.
fn all_answer(
    rt: &impl Abort,
    alloc: Global,
    given: Given,
    tables: &[Table],
) -> Result<(), AllocError> {
    for table in tables {
        answers(rt, alloc, given, table)?;
    }
    Ok(())
}

const TEMPLATES: &str =
    r#"[{"lod":"0"},{"lod":"1","lod":"x"},{"type":"Cone"},3,{"l\u006fd":null}]"#;

const OWN: &str = r#"
    a text | {"type":"Solid","lod":^"2.2"} | "2.2"
    none | {"type":"Solid"} | none
    of no type | {"lod":^"2"} | "2"
    of an unknown type | {"type":"Cone","lod":^"2"} | "2"
    of a type that is no text | {"lod":^"2","type":["GeometryInstance"]} | "2"
    beside a template | {"type":"Solid","template":0,"lod":^"2"} | "2"
    no text | {"type":"Solid","lod":^2.20} | 2.20
    an object | {"type":"Solid","lod":^{"lod":"1"}} | {"lod":"1"}
    the first of two | {"lod":^null,"lod":"2"} | null
    by an escape | {"l\u006fd":^"\u0032","lod":"1"} | "\u0032"
    of no object | ["lod","2"] | none
    of a text | "lod" | none
    "#;

const OF_NO_TEMPLATE: &str = r#"
    any number | 0 | none
    below 0 | -1 | none
    no number | null | none
    "#;

const BESIDE_NO_TEMPLATES: [Table; 2] = [
    Table {
        name: "other geometries have their own, beside no templates",
        geometry: "_",
        rows: OWN,
    },
    Table {
        name: "instances beside no templates have none",
        geometry: r#"{"type":"GeometryInstance","lod":"2","template":_}"#,
        rows: OF_NO_TEMPLATE,
    },
];

const AS_TEMPLATES: [Table; 2] = [
    Table {
        name: "other geometries have their own, as templates",
        geometry: "_",
        rows: OWN,
    },
    Table {
        name: "instances that are templates have none",
        geometry: r#"{"type":"GeometryInstance","lod":"2","template":_}"#,
        rows: OF_NO_TEMPLATE,
    },
];

const BESIDE_TEMPLATES: [Table; 3] = [
    Table {
        name: "other geometries have their own, beside templates",
        geometry: "_",
        rows: OWN,
    },
    Table {
        name: "instances have that of their template",
        geometry: "_",
        rows: r#"
        the first | {"type":"GeometryInstance","template":0} | 8 "0"
        not its own | {"type":"GeometryInstance","template":0,"lod":"2"} | 8 "0"
        the first of two | {"type":"GeometryInstance","template":1} | 20 "1"
        no text | {"type":"GeometryInstance","template":4} | 65 null
        by escapes | {"\u0074ype":"\u0047eometryInstance","\u0074emplate":1} | 20 "1"
        the first template of two | {"type":"GeometryInstance","template":1,"template":0} | 20 "1"
        of a template without one | {"type":"GeometryInstance","template":2,"lod":"2"} | none
        of a template that is no object | {"type":"GeometryInstance","template":3,"lod":"2"} | none
        of no template | {"type":"GeometryInstance","lod":"2"} | none
        "#,
    },
    Table {
        name: "templates are chosen by whole numbers",
        geometry: r#"{"type":"GeometryInstance","lod":"2","template":_}"#,
        rows: r#"
        minus 0 | -0 | 8 "0"
        a fraction of 0 | 1.0 | 20 "1"
        an exponent | 40e-1 | 65 null
        equal to the count | 5 | none
        the greatest whole number | 999999999999999999 | none
        below 0 | -1 | none
        a half | 0.5 | none
        10^18 | 1000000000000000000 | none
        37 digits | 1111111111111111111111111111111111111 | none
        null | null | none
        a text | "0" | none
        an array | [0] | none
        "#,
    },
];

const BESIDE_AN_EMPTY_LIST: [Table; 1] = [Table {
    name: "instances of an empty list have none",
    geometry: r#"{"type":"GeometryInstance","lod":"2","template":_}"#,
    rows: OF_NO_TEMPLATE,
}];

#[test]
fn levels_of_detail(rt: HostRuntime) -> Result<(), Fail> {
    all_answer(&rt, rt.alloc(), Given::Empty, &BESIDE_NO_TEMPLATES)?;
    all_answer(&rt, rt.alloc(), Given::Itself, &AS_TEMPLATES)?;
    all_answer(&rt, rt.alloc(), Given::List(TEMPLATES), &BESIDE_TEMPLATES)?;
    all_answer(&rt, rt.alloc(), Given::List("[]"), &BESIDE_AN_EMPTY_LIST)?;
    Ok(())
}

/// Adds a template with this level of detail.
fn push_template(alloc: Global, list: &mut String, lod: u32) -> Result<(), AllocError> {
    let template = format!(in alloc; ",{{\"lod\":{lod}}}")?;
    list.push_str(&template)
}

/// Returns a list of this number of templates, each with its number as its level of detail.
fn numbered(alloc: Global, count: u32) -> Result<String, AllocError> {
    let mut list = String::from_str(alloc, "[0")?;
    for number in 0..count {
        push_template(alloc, &mut list, number)?;
    }
    list.push_str("]")?;
    Ok(list)
}

/// Returns the templates of a list, counted now or by its steps.
fn templates_by<'a>(
    rt: &impl Abort,
    list: Node<'a>,
    steps: &'a Steps,
    is_stepped: bool,
) -> Templates<'a>
    requires { AreStepsOf (items_of (tree list)) steps.now }
{
    match list.kind() {
        Kind::Array if is_stepped => Templates::stepped(list, steps),
        Kind::Array => Templates::list(list),
        _ => panic!(rt; "no list of templates"),
    }
}

/// Returns the levels of detail of these geometries, looked up one after another.
fn looked_up_in_turn(
    rt: &impl Abort,
    alloc: Global,
    geometries: Node,
    templates: Templates,
) -> Result<String, AllocError> {
    let mut lods = Lods::beside(templates);
    let mut found = String::new(alloc);
    for geometry in geometries.items() {
        let bytes = match lods.lod_of(geometry) {
            Some(lod) => lod.bytes(),
            None => b"none",
        };
        found.push_str(str::from_utf8(bytes).expect(rt, "a text"))?;
        found.push_str(" ")?;
    }
    Ok(found)
}

/// Returns the levels of detail of the geometries of a line, beside a list of templates that is
/// counted now or by its steps.
fn lods_beside(
    rt: &impl Abort,
    alloc: Global,
    list_line: &str,
    line: &str,
    is_stepped: bool,
) -> Result<String, AllocError> {
    let list_tokens = tokens_of(rt, alloc, list_line.as_bytes());
    let list = Doc::of(list_line.as_bytes(), list_tokens.as_slice()).root();
    let steps = Steps::of(list);
    let templates = templates_by(rt, list, &steps, is_stepped);
    let tokens = tokens_of(rt, alloc, line.as_bytes());
    let geometries = Doc::of(line.as_bytes(), tokens.as_slice()).root();
    looked_up_in_turn(rt, alloc, geometries, templates)
}

/// Checks the levels of detail of the geometries of a line, beside a list of templates that is
/// counted by its steps.
fn finds_stepped(
    rt: &impl Abort,
    alloc: Global,
    list: &str,
    line: &str,
    want: &str,
) -> Result<(), AllocError> {
    let found = lods_beside(rt, alloc, list, line, true)?;
    is_text(rt, &found, want, "by steps", line);
    Ok(())
}

/// The same beside a list that is counted now.
fn finds_counted(
    rt: &impl Abort,
    alloc: Global,
    list: &str,
    line: &str,
    want: &str,
) -> Result<(), AllocError> {
    let found = lods_beside(rt, alloc, list, line, false)?;
    is_text(rt, &found, want, "counted now", line);
    Ok(())
}

const INSTANCES: &str = r#"[
    {"type":"GeometryInstance","template":300}, {"type":"GeometryInstance","template":300},
    {"type":"GeometryInstance","template":1}, {"type":"GeometryInstance","template":299},
    {"type":"GeometryInstance","template":0}, {"type":"Solid","lod":"own","template":7},
    {"type":"GeometryInstance","template":301}, {"type":"GeometryInstance","template":151},
    {"type":"GeometryInstance","template":150}, {"type":"GeometryInstance","template":152}
    ]"#;

#[test]
fn instances_of_a_long_list_find_their_templates(rt: HostRuntime) -> Result<(), Fail> {
    let list = numbered(rt.alloc(), 300)?;
    let want = "299 299 0 298 none \"own\" none 150 149 151 ";
    finds_counted(&rt, rt.alloc(), &list, INSTANCES, want)?;
    finds_stepped(&rt, rt.alloc(), &list, INSTANCES, want)?;
    Ok(())
}

/// The distance between the templates that consecutive instances name.
const APART: usize = 17;

/// Adds an instance of the template with this number.
fn push_instance(alloc: Global, line: &mut String, number: u32) -> Result<(), AllocError> {
    let instance = format!(in alloc; ",{{\"type\":\"GeometryInstance\",\"template\":{number}}}")?;
    line.push_str(&instance)
}

/// Adds the level of detail that `numbered` gives the template with this number.
fn push_lod(alloc: Global, want: &mut String, number: u32) -> Result<(), AllocError> {
    let lod = format!(in alloc; "{} ", number.saturating_sub(1))?;
    want.push_str(&lod)
}

/// Returns instances of every `APART`th template, from this one down, and the levels of detail that
/// `numbered` gives them.
fn falling(alloc: Global, greatest: u32) -> Result<(String, String), AllocError> {
    let mut line = String::from_str(alloc, "[0")?;
    let mut want = String::from_str(alloc, "none ")?;
    for number in (1..=greatest).rev().step_by(APART) {
        push_instance(alloc, &mut line, number)?;
        push_lod(alloc, &mut want, number)?;
    }
    line.push_str("]")?;
    Ok((line, want))
}

#[test]
fn many_instances_of_a_long_list_find_their_templates(rt: HostRuntime) -> Result<(), Fail> {
    let list = numbered(rt.alloc(), 3_000)?;
    let (line, want) = falling(rt.alloc(), 3_000)?;
    finds_stepped(&rt, rt.alloc(), &list, &line, &want)?;
    Ok(())
}
