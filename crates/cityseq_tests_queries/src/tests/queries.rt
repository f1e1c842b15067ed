//! Rows of queries: which features they keep, and which cannot be asked.
use super::calls::{check_choice, check_kept};
use cj_stream_testkit::FEATURE;
use std::alloc::Global;
use std::process::Abort;
use std::test::Fail;

/// A feature with an id of no characters.
const NAMELESS: &[u8] =
    b"{\"type\":\"CityJSONFeature\",\"id\":\"\",\"CityObjects\":{\"\":{\"type\":\"Building\"}},\"vertices\":[]}";

/// A building with geometries of two LoDs, and a road with one of a third.
const SEVERAL: &[u8] =
    b"{\"type\":\"CityJSONFeature\",\"id\":\"b1\",\"CityObjects\":{\"b1\":{\"type\":\"Building\",\"geometry\":[{\"type\":\"MultiPoint\",\"lod\":\"1\",\"boundaries\":[0]},{\"type\":\"MultiPoint\",\"lod\":\"1.2\",\"boundaries\":[1]}]},\"r1\":{\"type\":\"Road\",\"geometry\":[{\"type\":\"MultiPoint\",\"lod\":\"2.2\",\"boundaries\":[0]}]}},\"vertices\":[[0,0,0],[1000,1000,0]]}";

#[test]
fn a_query_by_ids(rt: HostRuntime) -> Result<(), Fail> {
    check_kept(&rt, rt.alloc(), &["filter", "--id", "b2,b1"], FEATURE, true)?;
    check_kept(&rt, rt.alloc(), &["filter", "--id", "b2"], FEATURE, false)?;
    check_kept(&rt, rt.alloc(), &["filter", "--id", ""], FEATURE, false)?;
    check_kept(&rt, rt.alloc(), &["filter", "--id", "b1,"], FEATURE, true)?;
    check_kept(&rt, rt.alloc(), &["filter", "--id", ""], NAMELESS, true)
}

#[test]
fn a_query_by_types_and_lods(rt: HostRuntime) -> Result<(), Fail> {
    check_kept(
        &rt,
        rt.alloc(),
        &["filter", "--type", "Road,Building"],
        FEATURE,
        true,
    )?;
    check_kept(
        &rt,
        rt.alloc(),
        &["filter", "--type", "Road"],
        FEATURE,
        false,
    )?;
    check_kept(
        &rt,
        rt.alloc(),
        &["filter", "--lod", "2.2,1"],
        FEATURE,
        true,
    )?;
    check_kept(&rt, rt.alloc(), &["filter", "--lod", "2,1"], FEATURE, false)?;
    check_kept(
        &rt,
        rt.alloc(),
        &["filter", "--lod", "2.2", "--id", "b2"],
        FEATURE,
        false,
    )?;
    check_kept(
        &rt,
        rt.alloc(),
        &["filter", "--lod", "2.2", "--id", "b1", "--type=Building"],
        FEATURE,
        true,
    )
}

/// A city object of a type of an extension.
const SHED: &[u8] =
    b"{\"type\":\"CityJSONFeature\",\"id\":\"s\",\"CityObjects\":{\"s\":{\"type\":\"\\u002bShed\"}},\"vertices\":[]}";

/// Checks whether a shed is kept if types of extensions are known.
fn check_shed(rt: &impl Abort, alloc: Global, types: &str, is_kept: bool) -> Result<(), Fail> {
    let words = ["filter", "--extensions", "--type", types];
    check_kept(rt, alloc, &words, SHED, is_kept)
}

#[test]
fn a_query_by_types_of_extensions(rt: HostRuntime) -> Result<(), Fail> {
    check_shed(&rt, rt.alloc(), "+Shed", true)?;
    check_shed(&rt, rt.alloc(), "Road,+Hut,+Shed", true)?;
    check_shed(&rt, rt.alloc(), "Road,+Hut", false)
}

#[test]
fn a_query_by_a_box(rt: HostRuntime) -> Result<(), Fail> {
    check_kept(
        &rt,
        rt.alloc(),
        &["filter", "--bbox=-5,0,5000,5000"],
        FEATURE,
        true,
    )?;
    check_kept(
        &rt,
        rt.alloc(),
        &["filter", "--bbox", "1001,2001,1005,2005"],
        FEATURE,
        true,
    )?;
    check_kept(
        &rt,
        rt.alloc(),
        &["filter", "--bbox", "1001.000000000000000001,2001,1005,2005"],
        FEATURE,
        false,
    )
}

#[test]
fn a_query_that_one_of_several_meets(rt: HostRuntime) -> Result<(), Fail> {
    check_kept(
        &rt,
        rt.alloc(),
        &["filter", "--type", "Road"],
        SEVERAL,
        true,
    )?;
    check_kept(
        &rt,
        rt.alloc(),
        &["filter", "--type", "Tunnel,Road"],
        SEVERAL,
        true,
    )?;
    check_kept(
        &rt,
        rt.alloc(),
        &["filter", "--type", "Tunnel"],
        SEVERAL,
        false,
    )?;
    check_kept(&rt, rt.alloc(), &["filter", "--lod", "1.2"], SEVERAL, true)?;
    check_kept(
        &rt,
        rt.alloc(),
        &["filter", "--lod", "3,2.2"],
        SEVERAL,
        true,
    )?;
    check_kept(&rt, rt.alloc(), &["filter", "--lod", "2,3"], SEVERAL, false)?;
    check_kept(&rt, rt.alloc(), &["filter", "--id", "r1"], SEVERAL, false)?;
    check_kept(
        &rt,
        rt.alloc(),
        &["filter", "--id", "r1,b1", "--lod=1"],
        SEVERAL,
        true,
    )
}

/// Checks that a query is refused with this line.
fn check_unasked(
    rt: &impl Abort,
    alloc: Global,
    arguments: &[&str],
    told: &[u8],
) -> Result<(), Fail> {
    check_choice(rt, alloc, arguments, FEATURE, 2, b"", told)
}

#[test]
fn a_query_that_cannot_be_asked(rt: HostRuntime) -> Result<(), Fail> {
    let unknown = b"unknown object type\n";
    check_unasked(&rt, rt.alloc(), &["filter", "--type", "+Shed"], unknown)?;
    check_unasked(
        &rt,
        rt.alloc(),
        &["filter", "--extensions", "--type", "+Shed,Shed"],
        unknown,
    )?;
    check_unasked(&rt, rt.alloc(), &["filter", "--type", "Building,"], unknown)?;
    check_unasked(
        &rt,
        rt.alloc(),
        &["filter", "--bbox", "1", "--type", "Shed"],
        unknown,
    )?;
    check_unasked(
        &rt,
        rt.alloc(),
        &["filter", "--id", "b1", "--bbox", "1"],
        b"bad box\n",
    )?;
    check_unasked(
        &rt,
        rt.alloc(),
        &["filter", "--bbox", "1e18,0,2e18,1"],
        b"box number out of range\n",
    )?;
    check_unasked(
        &rt,
        rt.alloc(),
        &["filter", "--bbox", "3,0,1,1"],
        b"empty box\n",
    )
}
