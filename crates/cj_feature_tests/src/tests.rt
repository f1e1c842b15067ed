//! Rows of headers and features. What is wrong with each follows from the rules, not from the
//! program.
//!
//! A table has a name, a line with the hole `_`, and one row per line, with bars between its cells.
//! The cells are a name, the text for the hole, and the result. The result is the code and the text
//! of the reason, or `none`. The mark `^` shows where the finding is, and is no part of the line.
//! Without a mark, a row has the byte itself.
ghost use Rattle.cj_spans.specs.Marks.{AreUnmarked};
ghost use Rattle.cj_spans.specs.Sound.{AreOf};

mod headers;
mod links;
mod many_links;
mod objects;
mod pairs;
mod reached;
mod shown;
mod templates;
mod worked;

use cj_budget::{Bounded, Stack};
use cj_feature::{Header, check_feature, check_header};
use cj_spans::{Doc, Finding, Token, scan};
use std::alloc::{AllocError, Global};
use std::process::Abort;

/// A header without templates.
const HEADER: &str =
    r#"{"type":"CityJSON","version":"2.0","transform":{"scale":[0.001,0.001,0.001],"translate":[1000.0,2000.0,0.0]},"CityObjects":{},"vertices":[]}"#;

/// What a line is judged as.
#[derive(Clone, Copy)]
enum Judged {
    Header,
    /// A header whose transform must suit a box.
    HeaderForBox,
    /// A feature after this header.
    Feature(&'static str),
    /// A feature whose types of extensions are known.
    Extended,
    /// A feature whose city objects must all be reached.
    Tree,
}

/// Rows of one form, with the line in whose hole their cells stand.
#[derive(Clone, Copy)]
struct Table<'a> {
    name: &'a str,
    pattern: &'a str,
    rows: &'a str,
}

/// Returns the tokens of a line that is a JSON text.
fn tokens_of(rt: &impl Abort, alloc: Global, line: &[u8]) -> Bounded<Token>
    ensures of { AreOf line.now result.elements }
    ensures unmarked { AreUnmarked result.elements }
{
    assert!(rt; line.len() <= 1_000_000);
    let mut tokens: Bounded<Token> = Bounded::new(alloc, 1_000_000);
    let mut stack = Stack::new(alloc, 64);
    match scan(line, &mut tokens, &mut stack) {
        Ok(()) => {}
        Err(fault) => panic!(rt; "{fault:?}"),
    }
    tokens
}

/// Returns the finding of a line that is judged as a header, with or without a box.
fn header_finding(rt: &impl Abort, alloc: Global, line: &[u8], with_box: bool) -> Option<Finding> {
    let tokens = tokens_of(rt, alloc, line);
    match check_header(Doc::of(line, tokens.as_slice()), with_box) {
        Ok(_) => None,
        Err(finding) => Some(finding),
    }
}

/// Returns the finding of a feature with a header. Types of extensions are known, or not.
fn finding_with(header: &Header, feature: Doc, extensions: bool) -> Option<Finding> {
    match check_feature(feature, header, false, extensions) {
        Ok(_) => None,
        Err(finding) => Some(finding),
    }
}

/// Returns the finding of a line that is judged as a feature, with a header. Types of extensions
/// are known, or not.
fn feature_finding(
    rt: &impl Abort,
    alloc: Global,
    header_line: &[u8],
    line: &[u8],
    extensions: bool,
) -> Option<Finding> {
    let header_tokens = tokens_of(rt, alloc, header_line);
    let tokens = tokens_of(rt, alloc, line);
    match check_header(Doc::of(header_line, header_tokens.as_slice()), false) {
        Ok(header) => finding_with(&header, Doc::of(line, tokens.as_slice()), extensions),
        Err(_) => panic!(rt; "no header"),
    }
}

/// Returns a finding as a row has it: its byte, and the code and the text of its reason.
fn finding_text(alloc: Global, found: Option<Finding>) -> Result<String, AllocError> {
    match found {
        Some(Finding { place, reason }) => {
            format!(in alloc; "{place} {} {}", reason.code(), reason.text())
        }
        None => String::from_str(alloc, "none"),
    }
}

/// Returns the line with a cell in the hole.
fn filled(alloc: Global, pattern: &str, cell: &str) -> Result<String, AllocError> {
    match pattern.split_once('_') {
        Some((front, back)) => format!(in alloc; "{front}{cell}{back}"),
        None => String::from_str(alloc, pattern),
    }
}

/// Returns the line without its mark, and the expected finding with the byte of the mark.
fn unmarked(alloc: Global, line: &str, want: &str) -> Result<(String, String), AllocError> {
    match line.split_once('^') {
        Some((front, back)) => Ok((
            format!(in alloc; "{front}{back}")?,
            format!(in alloc; "{} {want}", front.len())?,
        )),
        None => Ok((
            String::from_str(alloc, line)?,
            String::from_str(alloc, want)?,
        )),
    }
}

/// Returns the line of a row, and what the row expects.
fn line_of(
    rt: &impl Abort,
    alloc: Global,
    pattern: &str,
    row: &str,
) -> Result<(String, String), AllocError> {
    let mut cells = row.split('|');
    let _name = cells.next().expect(rt, "a name");
    let cell = cells.next().expect(rt, "a cell").trim();
    let want = cells.next().expect(rt, "what is wanted").trim();
    let line = filled(alloc, pattern, cell)?;
    unmarked(alloc, &line, want)
}

/// Returns the finding of a line that is judged so.
fn finding_of(rt: &impl Abort, alloc: Global, judged: Judged, line: &[u8]) -> Option<Finding> {
    match judged {
        Judged::Header => header_finding(rt, alloc, line, false),
        Judged::HeaderForBox => header_finding(rt, alloc, line, true),
        Judged::Feature(header) => feature_finding(rt, alloc, header.as_bytes(), line, false),
        Judged::Extended => feature_finding(rt, alloc, HEADER.as_bytes(), line, true),
        Judged::Tree => reached::tree_finding(rt, alloc, line),
    }
}

/// Checks the text that a row of a table has.
fn is_text(rt: &impl Abort, found: &str, want: &str, table: &str, row: &str) {
    assert_eq!(rt; found, want, "{table}: {row}");
}

/// Checks that a row of the table has the finding that it expects.
fn meets_row(
    rt: &impl Abort,
    alloc: Global,
    judged: Judged,
    table: &Table,
    row: &str,
) -> Result<(), AllocError> {
    let (line, want) = line_of(rt, alloc, table.pattern, row)?;
    let found = finding_of(rt, alloc, judged, line.as_bytes());
    let found = finding_text(alloc, found)?;
    is_text(rt, &found, &want, table.name, row);
    Ok(())
}

/// Checks that each row of the table has the finding that it expects.
fn meets(rt: &impl Abort, alloc: Global, judged: Judged, table: &Table) -> Result<(), AllocError> {
    for row in table.rows.trim().lines() {
        meets_row(rt, alloc, judged, table, row)?;
    }
    Ok(())
}

/// Checks that each row of each table has the finding that it expects.
fn all_meet(
    rt: &impl Abort,
    alloc: Global,
    judged: Judged,
    tables: &[Table],
) -> Result<(), AllocError> {
    for table in tables {
        meets(rt, alloc, judged, table)?;
    }
    Ok(())
}
