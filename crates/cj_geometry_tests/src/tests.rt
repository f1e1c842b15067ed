//! Rows of geometries. What is wrong with each follows from the rules, not from the program.
//!
//! A table has a name, a geometry with the hole `_`, and one row per line, with bars between its
//! cells. The cells are a name, the text for the hole, and the result. The result is the code and
//! the text of the reason, or `none`. The mark `^` shows where the finding is, and is no part of
//! the geometry. Without a mark, a row has the byte itself.
ghost use Rattle.cj_spans.specs.Sound.{AreOf};

mod boundaries;
mod indices;
mod instances;
mod lod;
mod names;
mod object_types;
mod pairs;
mod repeated;
mod surfaces;
mod templates;
mod types;
mod values;
mod wholes;
mod worked;

use cj_budget::{Bounded, Stack};
use cj_geometry::{Templates, check_geometry};
use cj_spans::{Doc, Finding, Kind, Least, Node, Token, scan};
use std::alloc::{AllocError, Global};
use std::process::Abort;

/// The templates that a geometry may name: those of a list, none, or the mark that it is one
/// itself.
#[derive(Clone, Copy)]
enum Given {
    List(&'static str),
    Empty,
    Itself,
}

/// What a geometry depends on: the number of vertices, if it is known, and the templates.
#[derive(Clone, Copy)]
struct Around {
    vertices: Option<u64>,
    templates: Given,
}

const UNKNOWN_VERTICES: Around = Around {
    vertices: None,
    templates: Given::Empty,
};

const NO_VERTICES: Around = Around {
    vertices: Some(0),
    templates: Given::Empty,
};

const ONE_VERTEX: Around = Around {
    vertices: Some(1),
    templates: Given::Empty,
};

const TWO_VERTICES: Around = Around {
    vertices: Some(2),
    templates: Given::Empty,
};

const THREE_VERTICES: Around = Around {
    vertices: Some(3),
    templates: Given::Empty,
};

const FOUR_VERTICES: Around = Around {
    vertices: Some(4),
    templates: Given::Empty,
};

/// A geometry that is itself a template, of one vertex.
const A_TEMPLATE: Around = Around {
    vertices: Some(1),
    templates: Given::Itself,
};

/// Rows of one form, with the geometry in whose hole their cells stand.
#[derive(Clone, Copy)]
struct Table<'a> {
    name: &'a str,
    geometry: &'a str,
    rows: &'a str,
}

/// The longest line of these tests.
const LONGEST: usize = 400_000;

/// Returns the tokens of a line that is a JSON text.
fn tokens_of(rt: &impl Abort, alloc: Global, line: &[u8]) -> Bounded<Token>
    ensures { AreOf line.now result.elements }
{
    assert!(rt; line.len() <= LONGEST);
    let mut tokens: Bounded<Token> = Bounded::new(alloc, LONGEST);
    let mut stack = Stack::new(alloc, 64);
    match scan(line, &mut tokens, &mut stack) {
        Ok(()) => {}
        Err(fault) => panic!(rt; "{fault:?}"),
    }
    tokens
}

/// Returns the templates. `list` is their list, if there is one.
fn templates_of<'a>(rt: &impl Abort, given: Given, list: Node<'a>) -> Templates<'a> {
    match given {
        Given::Itself => Templates::template(),
        Given::Empty => Templates::empty(),
        Given::List(_) => match list.kind() {
            Kind::Array => Templates::list(list),
            _ => panic!(rt; "no list of templates"),
        },
    }
}

/// Returns the line of the list of templates, or of an empty one.
fn list_line(given: Given) -> &'static [u8] {
    match given {
        Given::List(list) => list.as_bytes(),
        Given::Empty | Given::Itself => b"[]",
    }
}

/// Returns the least of an earlier finding.
fn begun(before: Option<Finding>) -> Least {
    let mut least = Least::new();
    if let Some(finding) = before {
        least.add(finding);
    }
    least
}

/// Returns the least finding of a geometry, after an earlier finding.
fn least_after(
    node: Node,
    vertices: Option<u64>,
    templates: Templates,
    before: Option<Finding>,
) -> Option<Finding> {
    let mut least = begun(before);
    check_geometry(node, vertices, templates, &mut least);
    least.get()
}

/// Returns the least finding of a line that is a geometry, after an earlier finding.
fn least_of(
    rt: &impl Abort,
    alloc: Global,
    line: &[u8],
    around: Around,
    before: Option<Finding>,
) -> Option<Finding> {
    let list_line = list_line(around.templates);
    let list_tokens = tokens_of(rt, alloc, list_line);
    let list = Doc::of(list_line, list_tokens.as_slice()).root();
    let templates = templates_of(rt, around.templates, list);
    let tokens = tokens_of(rt, alloc, line);
    let node = Doc::of(line, tokens.as_slice()).root();
    least_after(node, around.vertices, templates, before)
}

/// Returns a finding as a row has it: its byte, and the code and the text of its reason.
fn shown(alloc: Global, found: Option<Finding>) -> Result<String, AllocError> {
    match found {
        Some(Finding { place, reason }) => {
            format!(in alloc; "{place} {} {}", reason.code(), reason.text())
        }
        None => String::from_str(alloc, "none"),
    }
}

/// Returns the line with a cell in the hole.
fn filled(alloc: Global, geometry: &str, cell: &str) -> Result<String, AllocError> {
    match geometry.split_once('_') {
        Some((front, back)) => format!(in alloc; "{front}{cell}{back}"),
        None => String::from_str(alloc, geometry),
    }
}

/// Returns the line without its mark, and the expected finding with the byte of the mark.
fn unmarked(alloc: Global, line: &str, want: &str) -> Result<(String, String), AllocError> {
    match line.split_once('^') {
        Some((front, back)) => Ok((
            format!(in alloc; "{front}{back}")?,
            format!(in alloc; "{} {want}", front.len())?,
        )),
        None => Ok((
            String::from_str(alloc, line)?,
            String::from_str(alloc, want)?,
        )),
    }
}

/// Returns the line of a row, and what the row expects.
fn line_of(
    rt: &impl Abort,
    alloc: Global,
    geometry: &str,
    row: &str,
) -> Result<(String, String), AllocError> {
    let mut cells = row.split('|');
    let _name = cells.next().expect(rt, "a name");
    let cell = cells.next().expect(rt, "a cell").trim();
    let want = cells.next().expect(rt, "what is wanted").trim();
    let line = filled(alloc, geometry, cell)?;
    unmarked(alloc, &line, want)
}

/// Checks the text that a row of a table has.
fn is_text(rt: &impl Abort, found: &str, want: &str, table: &str, row: &str) {
    assert_eq!(rt; found, want, "{table}: {row}");
}

/// Checks that a row of the table has the finding that it expects.
fn meets_row(
    rt: &impl Abort,
    alloc: Global,
    around: Around,
    table: &Table,
    row: &str,
) -> Result<(), AllocError> {
    let (line, want) = line_of(rt, alloc, table.geometry, row)?;
    let found = least_of(rt, alloc, line.as_bytes(), around, None);
    let found = shown(alloc, found)?;
    is_text(rt, &found, &want, table.name, row);
    Ok(())
}

/// Checks that each row of the table has the finding that it expects.
fn meets(rt: &impl Abort, alloc: Global, around: Around, table: &Table) -> Result<(), AllocError> {
    for row in table.rows.trim().lines() {
        meets_row(rt, alloc, around, table, row)?;
    }
    Ok(())
}

/// Checks that each row of each table has the finding that it expects.
fn all_meet(
    rt: &impl Abort,
    alloc: Global,
    around: Around,
    tables: &[Table],
) -> Result<(), AllocError> {
    for table in tables {
        meets(rt, alloc, around, table)?;
    }
    Ok(())
}

/// Checks the least finding of a line that is a geometry beside one vertex, after an earlier
/// finding.
fn meets_after(
    rt: &impl Abort,
    alloc: Global,
    line: &str,
    before: Finding,
    want: &str,
) -> Result<(), AllocError> {
    let found = least_of(rt, alloc, line.as_bytes(), ONE_VERTEX, Some(before));
    let found = shown(alloc, found)?;
    is_text(rt, &found, want, "after an earlier finding", line);
    Ok(())
}

/// Adds a member and a comma. Its name is a number after this front.
fn push_member(
    alloc: Global,
    text: &mut String,
    front: &str,
    number: u32,
) -> Result<(), AllocError> {
    let member = format!(in alloc; "\"{front}{number}\":0,")?;
    text.push_str(&member)
}
