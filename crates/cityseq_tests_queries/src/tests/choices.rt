//! Rows of the program with `--tree` and `--exclude`.
use super::calls::check_choice;
use cj_stream_testkit::{FEATURE, HEADER, joined};
use std::alloc::Global;
use std::process::Abort;
use std::test::Fail;

// ---- trees

/// Two buildings. Nothing lists the second one.
const APART: &[u8] =
    b"{\"type\":\"CityJSONFeature\",\"id\":\"b\",\"CityObjects\":{\"b\":{\"type\":\"Building\"},\"c\":{\"type\":\"Building\"}},\"vertices\":[]}";

/// Two buildings that list only each other, next to the main city object.
const CYCLE: &[u8] =
    b"{\"type\":\"CityJSONFeature\",\"id\":\"b\",\"CityObjects\":{\"b\":{\"type\":\"Building\"},\"c\":{\"type\":\"Building\",\"children\":[\"d\"],\"parents\":[\"d\"]},\"d\":{\"type\":\"Building\",\"children\":[\"c\"],\"parents\":[\"c\"]}},\"vertices\":[]}";

/// A part of a part of a building, from the last to the first.
const CHAIN: &[u8] =
    b"{\"type\":\"CityJSONFeature\",\"id\":\"b\",\"CityObjects\":{\"q\":{\"type\":\"BuildingPart\",\"parents\":[\"p\"]},\"p\":{\"type\":\"BuildingPart\",\"parents\":[\"b\"],\"children\":[\"q\"]},\"b\":{\"type\":\"Building\",\"children\":[\"p\"]}},\"vertices\":[]}";

/// The report of a feature with a city object that is not reached.
const NOT_REACHED: &[u8] = b"line 2, byte 78: 31 not reached from the main object\n";

const VALID: &[u8] = b"valid lines=2 features=1\n";

/// Checks that a feature is valid, and is invalid with `--tree`.
fn check_apart(rt: &impl Abort, alloc: Global, feature: &[u8]) -> Result<(), Fail> {
    check_choice(rt, alloc, &["check"], feature, 0, VALID, b"")?;
    let tree = ["check", "--tree"];
    check_choice(rt, alloc, &tree, feature, 1, b"", NOT_REACHED)?;
    let tree = ["info", "--tree"];
    check_choice(rt, alloc, &tree, feature, 1, b"", NOT_REACHED)?;
    let header = joined(alloc, &[HEADER, b"\n"])?;
    let tree = ["filter", "--tree"];
    check_choice(rt, alloc, &tree, feature, 1, &header, NOT_REACHED)?;
    let both = ["check", "--tree", "--keep-going"];
    let told = b"invalid lines=2 features=0 refused=1\n";
    check_choice(rt, alloc, &both, feature, 1, told, NOT_REACHED)
}

#[test]
fn objects_that_hang_on_nothing(rt: HostRuntime) -> Result<(), Fail> {
    check_apart(&rt, rt.alloc(), APART)?;
    check_apart(&rt, rt.alloc(), CYCLE)
}

#[test]
fn objects_that_are_all_reached(rt: HostRuntime) -> Result<(), Fail> {
    let words = ["check", "--tree"];
    check_choice(&rt, rt.alloc(), &words, CHAIN, 0, VALID, b"")?;
    let words = ["check", "--tree", "--keep-going"];
    check_choice(&rt, rt.alloc(), &words, FEATURE, 0, VALID, b"")
}

// ---- exclusion

#[test]
fn what_is_asked_for_is_left_out(rt: HostRuntime) -> Result<(), Fail> {
    let header = joined(rt.alloc(), &[HEADER, b"\n"])?;
    let all = joined(rt.alloc(), &[HEADER, b"\n", FEATURE, b"\n"])?;
    let words = ["filter", "--exclude", "--id", "b1"];
    check_choice(&rt, rt.alloc(), &words, FEATURE, 0, &header, b"")?;
    let words = ["filter", "--exclude", "--id", "b2"];
    check_choice(&rt, rt.alloc(), &words, FEATURE, 0, &all, b"")?;
    let words = ["filter", "--exclude"];
    check_choice(&rt, rt.alloc(), &words, FEATURE, 0, &header, b"")?;
    let words = ["filter", "--exclude", "--type", "Building", "--lod", "1"];
    check_choice(&rt, rt.alloc(), &words, FEATURE, 0, &all, b"")
}

#[test]
fn what_is_not_valid_is_not_kept(rt: HostRuntime) -> Result<(), Fail> {
    let header = joined(rt.alloc(), &[HEADER, b"\n"])?;
    let words = ["filter", "--exclude", "--id", "x", "--tree", "--keep-going"];
    check_choice(&rt, rt.alloc(), &words, APART, 1, &header, NOT_REACHED)
}
