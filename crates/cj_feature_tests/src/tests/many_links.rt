//! Links between many city objects, more than one set of questions can hold, with each capacity.
//! The expected result follows from how a line is built.
use super::{HEADER, Judged, Table, meets};
use std::alloc::{AllocError, Global};
use std::process::Abort;
use std::test::Fail;

/// How many city objects a line has.
const MANY: u32 = 4500;

/// How many items a long list has: more than are asked about at once.
const LONG: u32 = 30_000;

/// How many items a list has that is long for a feature of less than 64 KiB.
const SHORT: u32 = 6_000;

/// A line of these city objects, whose first is `p0`, has the finding that is wanted.
fn objects_meet(
    rt: &impl Abort,
    alloc: Global,
    objects: &str,
    want: &str,
) -> Result<(), AllocError> {
    let row = format!(in alloc; "many | {objects} | {want}")?;
    let table = Table {
        name: "many links",
        pattern: r#"{"type":"CityJSONFeature","id":"p0","CityObjects":{_},"vertices":[]}"#,
        rows: &row,
    };
    meets(rt, alloc, Judged::Feature(HEADER), &table)
}

/// Returns what comes before the i-th of some things in a row.
fn comma(i: u32) -> &'static str {
    if i == 0 { "" } else { "," }
}

/// A city object of a ring. Its child is the one after it, and its parent the one before it. The
/// one of the number `broken` has itself as a parent, so the child before it has the mark.
fn ring_member(alloc: Global, count: u32, i: u32, broken: u32) -> Result<String, AllocError> {
    let next = i as u64 + 1;
    let child = if next < count as u64 { next } else { 0 };
    let before = if i == 0 {
        count.saturating_sub(1)
    } else {
        i - 1
    };
    let parent = if i == broken { i } else { before };
    let mark = if child == broken as u64 { "^" } else { "" };
    let comma = comma(i);
    format!(in alloc;
        r#"{comma}"p{i}":{{"type":"Building","children":[{mark}"p{child}"],"parents":["p{parent}"]}}"#
    )
}

/// A ring of `count` city objects.
fn ring(alloc: Global, count: u32, broken: u32) -> Result<String, AllocError> {
    let mut objects = String::new(alloc);
    for i in 0..count {
        objects.push_str(&ring_member(alloc, count, i, broken)?)?;
    }
    Ok(objects)
}

/// Checks a ring whose city object of the number `broken` has itself as a parent.
fn ring_meets(
    rt: &impl Abort,
    alloc: Global,
    count: u32,
    broken: u32,
    want: &str,
) -> Result<(), AllocError> {
    let objects = ring(alloc, count, broken)?;
    objects_meet(rt, alloc, &objects, want)
}

/// Rings of `count` city objects are valid. If one link is broken, they are not.
fn rings_meet(rt: &impl Abort, alloc: Global, count: u32) -> Result<(), AllocError> {
    ring_meets(rt, alloc, count, count, "none")?;
    ring_meets(rt, alloc, count, count / 3 * 2, "22 link not mutual")?;
    ring_meets(
        rt,
        alloc,
        count,
        count.saturating_sub(1),
        "22 link not mutual",
    )
}

#[test]
fn rings(rt: HostRuntime) -> Result<(), Fail> {
    for count in [256, 1_000, MANY] {
        rings_meet(&rt, rt.alloc(), count)?;
    }
    Ok(())
}

/// Adds a name to a list, with the mark if it has one.
fn push_name(alloc: Global, names: &mut String, mark: &str, number: u32) -> Result<(), AllocError> {
    let comma = if names.is_empty() { "" } else { "," };
    names.push_str(&format!(in alloc; r#"{comma}{mark}"p{number}""#)?)
}

/// Children of `p0`, the last first. The one of the number `marked` has the mark.
fn backwards(alloc: Global, marked: u32) -> Result<String, AllocError> {
    let mut children = String::new(alloc);
    for i in 0..MANY {
        let child = MANY - i;
        let mark = if child == marked { "^" } else { "" };
        push_name(alloc, &mut children, mark, child)?;
    }
    Ok(children)
}

/// Adds a part of this parent.
fn push_part(
    alloc: Global,
    parts: &mut String,
    name: &str,
    parent: &str,
) -> Result<(), AllocError> {
    parts.push_str(&format!(in alloc;
        r#","{name}":{{"type":"BuildingPart","parents":["{parent}"]}}"#
    )?)
}

/// Parts of `p0`. The one of the number `alone` has another text as a parent. The first letter of
/// their names is spelled as `letter`.
fn parts(alloc: Global, letter: &str, alone: u32, other: &str) -> Result<String, AllocError> {
    let mut parts = String::new(alloc);
    for i in 0..MANY {
        let part = i + 1;
        let name = format!(in alloc; "{letter}{part}")?;
        let parent = if part == alone { other } else { "p0" };
        push_part(alloc, &mut parts, &name, parent)?;
    }
    Ok(parts)
}

/// How the first letter of the parts is spelled, which part has another parent, that parent, and
/// what is wanted.
type PartsRow = (&'static str, u32, &'static str, &'static str);

const LISTED_BACKWARDS: [PartsRow; 2] = [
    ("p", 0, "p0", "none"),
    ("p", 7, "p8", "22 link not mutual"),
];

const BY_ESCAPES: [PartsRow; 2] = [
    (r"\u0070", 0, "p0", "none"),
    (r"\u0070", 7, r"\u00708", "22 link not mutual"),
];

/// A building `p0`, whose children are listed backwards, and its parts.
fn building(alloc: Global, letter: &str, alone: u32, other: &str) -> Result<String, AllocError> {
    let children = backwards(alloc, alone)?;
    let parts = parts(alloc, letter, alone, other)?;
    format!(in alloc; r#""p0":{{"type":"Building","children":[{children}]}}{parts}"#)
}

fn buildings_meet(rt: &impl Abort, alloc: Global, rows: &[PartsRow]) -> Result<(), AllocError> {
    for (letter, alone, other, want) in rows {
        let objects = building(alloc, *letter, *alone, *other)?;
        objects_meet(rt, alloc, &objects, *want)?;
    }
    Ok(())
}

#[test]
fn children_listed_backwards(rt: HostRuntime) -> Result<(), Fail> {
    buildings_meet(&rt, rt.alloc(), LISTED_BACKWARDS.as_slice())?;
    Ok(())
}

#[test]
fn names_by_escapes(rt: HostRuntime) -> Result<(), Fail> {
    buildings_meet(&rt, rt.alloc(), BY_ESCAPES.as_slice())?;
    Ok(())
}

fn push_building(alloc: Global, objects: &mut String, number: u32) -> Result<(), AllocError> {
    objects.push_str(&format!(in alloc; r#","p{number}":{{"type":"Building"}}"#)?)
}

/// Buildings without links.
fn buildings(alloc: Global) -> Result<String, AllocError> {
    let mut objects = String::from_str(alloc, r#""p0":{"type":"Building"}"#)?;
    for i in 0..MANY {
        push_building(alloc, &mut objects, i + 1)?;
    }
    Ok(objects)
}

/// Checks these city objects after many buildings without links.
fn meet_behind_many(
    rt: &impl Abort,
    alloc: Global,
    objects: &str,
    want: &str,
) -> Result<(), AllocError> {
    let others = buildings(alloc)?;
    let all = format!(in alloc; "{others},{objects}")?;
    objects_meet(rt, alloc, &all, want)
}

/// Checks these city objects before many buildings without links.
fn meet_before_many(
    rt: &impl Abort,
    alloc: Global,
    objects: &str,
    want: &str,
) -> Result<(), AllocError> {
    let others = buildings(alloc)?;
    let all = format!(in alloc; "{objects},{others}")?;
    objects_meet(rt, alloc, &all, want)
}

fn meet_among_many(
    rt: &impl Abort,
    alloc: Global,
    objects: &str,
    want: &str,
) -> Result<(), AllocError> {
    meet_before_many(rt, alloc, objects, want)?;
    meet_behind_many(rt, alloc, objects, want)
}

#[test]
fn a_part_whose_parent_is_not_there(rt: HostRuntime) -> Result<(), Fail> {
    let part = r#""p":^{"type":"BuildingPart","parents":["q"]}"#;
    meet_behind_many(&rt, rt.alloc(), part, "23 no parent in the feature")?;
    Ok(())
}

#[test]
fn parents_of_a_group(rt: HostRuntime) -> Result<(), Fail> {
    let unlisted = r#""b":{"type":"CityObjectGroup","parents":[^"c"]},"c":{"type":"Building"}"#;
    meet_among_many(&rt, rt.alloc(), unlisted, "22 link not mutual")?;
    let not_there = r#""b":{"type":"CityObjectGroup","parents":["g"]}"#;
    meet_among_many(&rt, rt.alloc(), not_there, "none")?;
    Ok(())
}

#[test]
fn a_part_of_what_is_no_city_object(rt: HostRuntime) -> Result<(), Fail> {
    let before = r#""b":{"type":"BuildingPart","parents":[^"c"]},"c":3"#;
    meet_among_many(&rt, rt.alloc(), before, "22 link not mutual")?;
    let behind = r#""c":^3,"b":{"type":"BuildingPart","parents":["c"]}"#;
    meet_among_many(&rt, rt.alloc(), behind, "12 wrong kind")?;
    Ok(())
}

/// An item that is listed `count` times.
fn again(alloc: Global, item: &str, count: u32) -> Result<String, AllocError> {
    let mut items = String::from_str(alloc, item)?;
    for _ in 1..count {
        items.push_str(",")?;
        items.push_str(item)?;
    }
    Ok(items)
}

/// A ring after a group. The group lists a text so often that the next questions end within the
/// ring.
fn ring_behind_a_group(alloc: Global, broken: u32) -> Result<String, AllocError> {
    let texts = again(alloc, r#""q""#, 27_000)?;
    let ring = ring(alloc, MANY, broken)?;
    format!(in alloc;
        r#""g":{{"type":"CityObjectGroup","children":[{texts}],"parents":[{texts}]}},{ring}"#
    )
}

/// The number of the ring's broken link, and what is wanted.
const BEHIND_A_GROUP: [(u32, &str); 3] = [
    (MANY, "none"),
    (1_000, "22 link not mutual"),
    (3_000, "22 link not mutual"),
];

fn ring_behind_a_group_meets(
    rt: &impl Abort,
    alloc: Global,
    broken: u32,
    want: &str,
) -> Result<(), AllocError> {
    let objects = ring_behind_a_group(alloc, broken)?;
    objects_meet(rt, alloc, &objects, want)
}

#[test]
fn rings_behind_a_group(rt: HostRuntime) -> Result<(), Fail> {
    for (broken, want) in &BEHIND_A_GROUP {
        ring_behind_a_group_meets(&rt, rt.alloc(), *broken, *want)?;
    }
    Ok(())
}

/// `p0` with these children, `p` with these parents, and a part `q` of `p0`.
fn two_parts(alloc: Global, children: &str, parents: &str) -> Result<String, AllocError> {
    format!(in alloc;
        r#""p0":{{"type":"Building","children":[{children}]}},"p":{{"type":"BuildingPart","parents":[{parents}]}},"q":{{"type":"BuildingPart","parents":["p0"]}}"#
    )
}

/// Checks two parts of `p0`. The child `q` and the parent `p0` are listed again and again, the one
/// before other children and the other after other parents.
fn pair_meets(
    rt: &impl Abort,
    alloc: Global,
    children: &str,
    parents: &str,
    want: &str,
) -> Result<(), AllocError> {
    let listed = again(alloc, r#""q""#, LONG)?;
    let children = format!(in alloc; "{listed}{children}")?;
    let listing = again(alloc, r#""p0""#, LONG)?;
    let parents = format!(in alloc; "{parents}{listing}")?;
    let objects = two_parts(alloc, &children, &parents)?;
    objects_meet(rt, alloc, &objects, want)
}

#[test]
fn a_pair_listed_again_and_again(rt: HostRuntime) -> Result<(), Fail> {
    pair_meets(&rt, rt.alloc(), r#","p""#, "", "none")?;
    Ok(())
}

#[test]
fn a_pair_listed_again_by_one_alone(rt: HostRuntime) -> Result<(), Fail> {
    pair_meets(&rt, rt.alloc(), "", r#"^"p0","#, "22 link not mutual")?;
    Ok(())
}

fn push_absent(alloc: Global, texts: &mut String, number: u32) -> Result<(), AllocError> {
    let comma = comma(number);
    texts.push_str(&format!(in alloc; r#"{comma}"q{number}""#)?)
}

/// The texts `q0`, `q1` and so on, `count` of them.
fn absent(alloc: Global, count: u32) -> Result<String, AllocError> {
    let mut texts = String::new(alloc);
    for i in 0..count {
        push_absent(alloc, &mut texts, i)?;
    }
    Ok(texts)
}

/// Buildings without links, and one with parents that are not there and another.
fn with_absent(alloc: Global, another: &str) -> Result<String, AllocError> {
    let others = buildings(alloc)?;
    let parents = absent(alloc, LONG)?;
    format!(in alloc; r#"{others},"p":{{"type":"Building","parents":[{parents}{another}]}}"#)
}

/// Checks many parents that are not there, and another.
fn absent_meet(
    rt: &impl Abort,
    alloc: Global,
    another: &str,
    want: &str,
) -> Result<(), AllocError> {
    let objects = with_absent(alloc, another)?;
    objects_meet(rt, alloc, &objects, want)
}

#[test]
fn parents_that_are_not_there(rt: HostRuntime) -> Result<(), Fail> {
    absent_meet(&rt, rt.alloc(), "", "none")?;
    Ok(())
}

#[test]
fn a_parent_among_those_that_are_not_there(rt: HostRuntime) -> Result<(), Fail> {
    absent_meet(&rt, rt.alloc(), r#",^"p3000""#, "22 link not mutual")?;
    Ok(())
}

/// A part that lists its parent after `count` others that are not there. It is listed by its parent
/// if it is one of these children.
fn last_of_many(
    alloc: Global,
    count: u32,
    children: &str,
    mark: &str,
) -> Result<String, AllocError> {
    let others = absent(alloc, count)?;
    let parents = format!(in alloc; r#"{others},{mark}"p0""#)?;
    two_parts(alloc, children, &parents)
}

fn last_meets(rt: &impl Abort, alloc: Global, count: u32) -> Result<(), AllocError> {
    let listed = last_of_many(alloc, count, r#""p","q""#, "")?;
    objects_meet(rt, alloc, &listed, "none")?;
    let unlisted = last_of_many(alloc, count, r#""q""#, "^")?;
    objects_meet(rt, alloc, &unlisted, "22 link not mutual")
}

#[test]
fn the_last_of_many_parents_is_there(rt: HostRuntime) -> Result<(), Fail> {
    for count in [900, SHORT, LONG] {
        last_meets(&rt, rt.alloc(), count)?;
    }
    Ok(())
}

/// A part with numbers for parents.
fn part_of_numbers(alloc: Global) -> Result<String, AllocError> {
    let parents = again(alloc, "3", LONG)?;
    format!(in alloc; r#""p":^{{"type":"BuildingPart","parents":[{parents}]}}"#)
}

#[test]
fn parents_that_are_no_texts(rt: HostRuntime) -> Result<(), Fail> {
    let part = part_of_numbers(rt.alloc())?;
    meet_among_many(&rt, rt.alloc(), &part, "23 no parent in the feature")?;
    Ok(())
}

/// Checks a group of children that are not there, and what comes after it.
fn group_meets(rt: &impl Abort, alloc: Global, behind: &str, want: &str) -> Result<(), AllocError> {
    let children = absent(alloc, LONG)?;
    let objects = format!(in alloc;
        r#""g":{{"type":"CityObjectGroup","children":[{children}]}}{behind}"#
    )?;
    meet_among_many(rt, alloc, &objects, want)
}

#[test]
fn children_of_a_group(rt: HostRuntime) -> Result<(), Fail> {
    group_meets(&rt, rt.alloc(), "", "none")?;
    let beside = r#","b":{"type":"Building","children":[^"q0"]}"#;
    group_meets(&rt, rt.alloc(), beside, "21 child not found")?;
    Ok(())
}

/// A building `p0` whose child has the mark `mark`, and many buildings of the child's name. The
/// second of them has the mark `second`.
fn of_one_name(alloc: Global, mark: &str, second: &str) -> Result<String, AllocError> {
    let mut objects = format!(in alloc;
        r#""p0":{{"type":"Building","children":[{mark}"q"]}},"q":{{"type":"Building"}},{second}"q":{{"type":"Building"}}"#
    )?;
    for _ in 0..MANY {
        objects.push_str(r#","q":{"type":"Building"}"#)?;
    }
    Ok(objects)
}

/// Checks many buildings of the name of a child, and what comes after them.
fn of_one_name_meet(
    rt: &impl Abort,
    alloc: Global,
    marks: [&str; 2],
    behind: &str,
    want: &str,
) -> Result<(), AllocError> {
    let others = of_one_name(alloc, marks[0], marks[1])?;
    let objects = format!(in alloc; "{others}{behind}")?;
    objects_meet(rt, alloc, &objects, want)
}

#[test]
fn city_objects_of_one_name(rt: HostRuntime) -> Result<(), Fail> {
    of_one_name_meet(&rt, rt.alloc(), ["^", ""], "", "22 link not mutual")?;
    let last = r#","q":{"type":"Building","parents":["p0"]}"#;
    of_one_name_meet(&rt, rt.alloc(), ["", "^"], last, "11 duplicate name")?;
    Ok(())
}
