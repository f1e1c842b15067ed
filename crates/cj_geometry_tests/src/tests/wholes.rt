//! Whole numbers. A row expects the finding of a line that is one value.
use super::{is_text, line_of, shown, tokens_of};
use cj_geometry::rule::check_whole;
use cj_spans::{Doc, Finding, Least};
use std::alloc::{AllocError, Global};
use std::process::Abort;
use std::test::Fail;

/// Returns what is wrong with a line's value as a whole number.
fn finding_of(rt: &impl Abort, alloc: Global, line: &[u8]) -> Option<Finding> {
    let tokens = tokens_of(rt, alloc, line);
    let mut least = Least::new();
    check_whole(Doc::of(line, tokens.as_slice()).root(), &mut least);
    least.get()
}

const VALUES: &str = r#"
    zero | 0 | none
    minus zero | -0 | none
    below zero | -7 | none
    a whole fraction | 12.0 | none
    a whole exponent | 1e2 | none
    the largest | 999999999999999999 | none
    the smallest | -999999999999999999 | none
    a half | ^0.5 | 18 not a whole number
    10^18 | ^1e18 | 18 not a whole number
    10^1000001 | ^1e1000001 | 13 number out of range
    37 digits | ^1111111111111111111111111111111111111 | 13 number out of range
    null | ^null | 12 wrong kind
    a text | ^"0" | 12 wrong kind
    an array | ^[0] | 12 wrong kind
    "#;

fn meets(rt: &impl Abort, alloc: Global, row: &str) -> Result<(), AllocError> {
    let (line, want) = line_of(rt, alloc, "_", row)?;
    let found = shown(alloc, finding_of(rt, alloc, line.as_bytes()))?;
    is_text(rt, &found, &want, "whole numbers", row);
    Ok(())
}

#[test]
fn whole_numbers_of_any_sign(rt: HostRuntime) -> Result<(), Fail> {
    for row in VALUES.trim().lines() {
        meets(&rt, rt.alloc(), row)?;
    }
    Ok(())
}
