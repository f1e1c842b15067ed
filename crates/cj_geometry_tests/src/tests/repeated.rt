//! Repeated names that are found in order. The expected result follows from the rule. The mark `^`
//! of a row is before the first name that has the text of an earlier one. The mark is no part of
//! the line.
//!
//! Many names take several walks, each over the least of those that are left. A row has few names.
//! So it is tried alone, and with many others that are less or greater than its own. A row also has
//! how many of its names the first walk then deals with. If the row has a repeated name, the walk
//! ends between the two, as far as the others let it.
use super::{push_member, tokens_of};
use cj_geometry::rule::check_names;
use cj_spans::{Doc, Finding, Least, Reason};
use std::alloc::{AllocError, Global};
use std::process::Abort;
use std::test::Fail;

/// How many names the first walk over 4,096 names or more deals with, in an object of at most 64
/// KiB whose least names come first.
const WALK: u32 = 2_048;

/// Returns what is found in an object.
fn found_in(rt: &impl Abort, alloc: Global, line: &str) -> Option<Finding> {
    let tokens = tokens_of(rt, alloc, line.as_bytes());
    let mut found = Least::new();
    check_names(
        Doc::of(line.as_bytes(), tokens.as_slice()).root(),
        &mut found,
    );
    found.get()
}

/// Returns a line without its mark, and the finding at the mark.
fn unmarked(alloc: Global, row: &str) -> Result<(String, Option<Finding>), AllocError> {
    match row.split_once('^') {
        Some((front, back)) => {
            let finding = Finding {
                place: front.len() as u64,
                reason: Reason::DuplicateName,
            };
            Ok((format!(in alloc; "{front}{back}")?, Some(finding)))
        }
        None => Ok((String::from_str(alloc, row)?, None)),
    }
}

/// Returns `count` members, each with a comma after it. Their names are numbers of four digits
/// after this front.
fn others(alloc: Global, front: &str, count: u32) -> Result<String, AllocError> {
    let mut text = String::new(alloc);
    for number in 0..count {
        push_member(alloc, &mut text, front, number.wrapping_add(1_000))?;
    }
    Ok(text)
}

/// Returns an object with further members behind its own. Each of these has a comma after it.
fn longer(alloc: Global, line: &str, members: &str) -> Result<String, AllocError> {
    match line.split_once('}') {
        Some((front, _)) => {
            let comma = if front == "{" { "" } else { "," };
            format!(in alloc; "{front}{comma}{members}\"last\":0}}")
        }
        None => String::from_str(alloc, line),
    }
}

fn finds(rt: &impl Abort, alloc: Global, line: &str, want: Option<Finding>, row: &str) {
    let found = found_in(rt, alloc, line);
    assert_eq!(rt; found, want, "{row}");
}

/// Returns an object with other names behind its own. The first walk over these deals with the
/// lesser ones and with the `first` least of the object.
fn with_others(alloc: Global, line: &str, first: u32, greater: &str) -> Result<String, AllocError> {
    let lesser = others(alloc, "", WALK.wrapping_sub(first))?;
    let members = format!(in alloc; "{lesser}{greater}")?;
    longer(alloc, line, &members)
}

/// Checks that an object has the finding of its mark, alone and with other names.
fn meets_row(
    rt: &impl Abort,
    alloc: Global,
    first: u32,
    row: &str,
    greater: &str,
) -> Result<(), AllocError> {
    let (line, want) = unmarked(alloc, row)?;
    finds(rt, alloc, &line, want, row);
    let longer = with_others(alloc, &line, first, greater)?;
    finds(rt, alloc, &longer, want, row);
    Ok(())
}

/// Checks that each of these objects has the finding of its mark.
fn meet(rt: &impl Abort, alloc: Global, rows: &[(u32, &str)]) -> Result<(), AllocError> {
    let greater = others(alloc, "一", 2_100)?;
    for (first, row) in rows {
        meets_row(rt, alloc, *first, row, &greater)?;
    }
    Ok(())
}

const IN_ANY_ORDER: [(u32, &str); 9] = [
    (0, r#"{}"#),
    (0, r#"{"a":1}"#),
    (
        5,
        r#"{"a":1,"b":1,"c":1,"d":1,"e":1,"f":1,"g":1,"h":1,"i":1,"j":1}"#,
    ),
    (
        5,
        r#"{"j":1,"i":1,"h":1,"g":1,"f":1,"e":1,"d":1,"c":1,"b":1,"a":1}"#,
    ),
    (
        5,
        r#"{"e":1,"f":1,"d":1,"g":1,"c":1,"h":1,"b":1,"i":1,"a":1,"j":1}"#,
    ),
    (
        1,
        r#"{"a":1,"b":1,"c":1,"d":1,"e":1,"f":1,"g":1,"h":1,"i":1,"j":1,^"a":1}"#,
    ),
    (
        10,
        r#"{"a":1,"b":1,"c":1,"d":1,"e":1,"f":1,"g":1,"h":1,"i":1,"j":1,^"j":1}"#,
    ),
    (
        6,
        r#"{"j":1,"i":1,"h":1,"g":1,"f":1,"e":1,"d":1,"c":1,"b":1,"a":1,^"f":1}"#,
    ),
    (
        9,
        r#"{"j":1,^"j":1,"h":1,"g":1,"f":1,"e":1,"d":1,"c":1,"b":1,"a":1}"#,
    ),
];

#[test]
fn names_in_any_order(rt: HostRuntime) -> Result<(), Fail> {
    meet(&rt, rt.alloc(), IN_ANY_ORDER.as_slice())?;
    Ok(())
}

const MORE_THAN_ONCE: [(u32, &str); 5] = [
    (
        1,
        r#"{"a":1,^"a":1,"a":1,"a":1,"a":1,"a":1,"a":1,"a":1,"a":1,"a":1}"#,
    ),
    (
        6,
        r#"{"e":1,"a":1,"b":1,"c":1,"d":1,^"e":1,"e":1,"f":1,"e":1,"a":1}"#,
    ),
    (7, r#"{"d":1,"c":1,"b":1,"a":1,^"d":1,"a":1,"b":1,"c":1}"#),
    (5, r#"{"a":1,"b":1,"c":1,"d":1,^"c":1,"b":1,"a":1,"d":1}"#),
    (3, r#"{"b":1,"b1":1,"b2":1,"":1,"b0":1,"b11":1,^"":1}"#),
];

#[test]
fn names_that_come_more_than_once(rt: HostRuntime) -> Result<(), Fail> {
    meet(&rt, rt.alloc(), MORE_THAN_ONCE.as_slice())?;
    Ok(())
}

const OF_ONE_WORD: [(u32, &str); 7] = [
    (
        2,
        r#"{"abcdefgh2":1,"abcdefgh1":1,"abcdefgh":1,"abcdefgh3":1,"abcdefgh11":1}"#,
    ),
    (
        2,
        r#"{"abcdefgh2":1,"abcdefgh1":1,"abcdefgh":1,"abcdefgh3":1,^"abcdefgh1":1}"#,
    ),
    (
        3,
        r#"{"abcdefgh2":1,"abcdefgh1":1,^"abcdefgh\u0032":1,"abcdefgh3":1,"abcdefgh1":1}"#,
    ),
    (4, r#"{"€b":1,"€a":1,"é":1,"₤a":1,"ÿa":1,"a":1}"#),
    (4, r#"{"€b":1,"€a":1,"é":1,"₤a":1,^"\u20aca":1,"a":1}"#),
    (1, r#"{"a":1,"b":1,"c":1,"d":1,"e":1,^"\u0061":1}"#),
    (
        5,
        r#"{"\u0062":1,"\u0061":1,"\u0064":1,"\u0063":1,^"d":1,"a":1}"#,
    ),
];

#[test]
fn names_of_one_word(rt: HostRuntime) -> Result<(), Fail> {
    meet(&rt, rt.alloc(), OF_ONE_WORD.as_slice())?;
    Ok(())
}

/// Returns `count` members, each with a comma after it. Their names are numbers that rise or fall.
fn members(alloc: Global, count: u32, rise: bool) -> Result<String, AllocError> {
    let mut text = String::new(alloc);
    for number in 0..count {
        let name = if rise { number } else { count - number };
        push_member(alloc, &mut text, "", name)?;
    }
    Ok(text)
}

/// Returns an object of `count` names and one more at the end, with a mark before that one if it is
/// repeated.
fn name_behind(alloc: Global, count: u32, rise: bool, name: &str) -> Result<String, AllocError> {
    let members = members(alloc, count, rise)?;
    format!(in alloc; "{{{members}{name}:0}}")
}

/// Checks that an object of `count` names and one more has the finding of its mark.
fn meets_behind_count(
    rt: &impl Abort,
    alloc: Global,
    count: u32,
    rise: bool,
    name: &str,
) -> Result<(), AllocError> {
    let row = name_behind(alloc, count, rise, name)?;
    let (line, want) = unmarked(alloc, &row)?;
    finds(rt, alloc, &line, want, name);
    Ok(())
}

/// A name after some thousands of others has the mark if it repeats one of them. The arrays are
/// that of middle size and the large one.
fn meets_behind(rt: &impl Abort, alloc: Global, rise: bool, name: &str) -> Result<(), AllocError> {
    meets_behind_count(rt, alloc, 6_000, rise, name)?;
    meets_behind_count(rt, alloc, 30_000, rise, name)
}

#[test]
fn more_names_than_the_room_holds(rt: HostRuntime) -> Result<(), Fail> {
    meets_behind(&rt, rt.alloc(), true, r#""a""#)?;
    meets_behind(&rt, rt.alloc(), true, r#"^"5999""#)?;
    meets_behind(&rt, rt.alloc(), false, r#""a""#)?;
    meets_behind(&rt, rt.alloc(), false, r#"^"\u0031""#)?;
    Ok(())
}
