//! The types of city objects. A row has a value, and what is expected of it: number, level and
//! name, or `none`.
use super::{is_text, tokens_of};
use cj_geometry::{ObjectType, is_of_extension};
use cj_spans::Doc;
use std::alloc::{AllocError, Global};
use std::process::Abort;
use std::test::Fail;

/// Returns a type as a row has it.
fn shown(alloc: Global, found: Option<ObjectType>) -> Result<String, AllocError> {
    match found {
        Some(object_type) => {
            let level = if object_type.is_second_level() {
                "second"
            } else {
                "first"
            };
            format!(in alloc; "{} {level} {}", object_type.number(), object_type.name())
        }
        None => String::from_str(alloc, "none"),
    }
}

/// Returns the type that a line names, as a row has it.
fn type_in(rt: &impl Abort, alloc: Global, line: &[u8]) -> Result<String, AllocError> {
    let tokens = tokens_of(rt, alloc, line);
    shown(
        alloc,
        ObjectType::of(Doc::of(line, tokens.as_slice()).root()),
    )
}

/// Checks that a row of the table has the type that it expects.
fn meets_row(rt: &impl Abort, alloc: Global, row: &str) -> Result<(), AllocError> {
    let (value, want) = row.split_once('|').expect(rt, "two cells");
    let found = type_in(rt, alloc, value.trim().as_bytes())?;
    is_text(rt, &found, want.trim(), "types", row);
    Ok(())
}

fn meets(rt: &impl Abort, alloc: Global, rows: &str) -> Result<(), AllocError> {
    for row in rows.trim().lines() {
        meets_row(rt, alloc, row)?;
    }
    Ok(())
}

const FIRST_LEVEL: &str = r#"
    "Bridge" | 0 first Bridge
    "Building" | 1 first Building
    "CityFurniture" | 2 first CityFurniture
    "CityObjectGroup" | 3 first CityObjectGroup
    "GenericCityObject" | 4 first GenericCityObject
    "LandUse" | 5 first LandUse
    "OtherConstruction" | 6 first OtherConstruction
    "PlantCover" | 7 first PlantCover
    "Railway" | 8 first Railway
    "Road" | 9 first Road
    "SolitaryVegetationObject" | 10 first SolitaryVegetationObject
    "TINRelief" | 11 first TINRelief
    "TransportSquare" | 12 first TransportSquare
    "Tunnel" | 13 first Tunnel
    "WaterBody" | 14 first WaterBody
    "Waterway" | 15 first Waterway
    "#;

const SECOND_LEVEL: &str = r#"
    "BridgeConstructiveElement" | 16 second BridgeConstructiveElement
    "BridgeFurniture" | 17 second BridgeFurniture
    "BridgeInstallation" | 18 second BridgeInstallation
    "BridgePart" | 19 second BridgePart
    "BridgeRoom" | 20 second BridgeRoom
    "BuildingConstructiveElement" | 21 second BuildingConstructiveElement
    "BuildingFurniture" | 22 second BuildingFurniture
    "BuildingInstallation" | 23 second BuildingInstallation
    "BuildingPart" | 24 second BuildingPart
    "BuildingRoom" | 25 second BuildingRoom
    "BuildingStorey" | 26 second BuildingStorey
    "BuildingUnit" | 27 second BuildingUnit
    "TunnelConstructiveElement" | 28 second TunnelConstructiveElement
    "TunnelFurniture" | 29 second TunnelFurniture
    "TunnelHollowSpace" | 30 second TunnelHollowSpace
    "TunnelInstallation" | 31 second TunnelInstallation
    "TunnelPart" | 32 second TunnelPart
    "#;

const TEXTS_AND_OTHER_VALUES: &str = r#"
    "\u0042uilding" | 1 first Building
    "R\u006f\u0061d" | 9 first Road
    "" | none
    "building" | none
    "BUILDING" | none
    "Buildin" | none
    "Buildings" | none
    " Building" | none
    "Building " | none
    "+Building" | none
    "+Shed" | none
    "TinRelief" | none
    "BuildingpArt" | none
    "Part" | none
    "TunnelPar" | none
    "TunnelParts" | none
    "CityObject" | none
    "CityJSONFeature" | none
    "Solid" | none
    3 | none
    1 | none
    true | none
    null | none
    ["Building"] | none
    {"type":"Building"} | none
    "#;

#[test]
fn types_of_values(rt: HostRuntime) -> Result<(), Fail> {
    meets(&rt, rt.alloc(), FIRST_LEVEL)?;
    meets(&rt, rt.alloc(), SECOND_LEVEL)?;
    meets(&rt, rt.alloc(), TEXTS_AND_OTHER_VALUES)?;
    Ok(())
}

const NAMES: &str = r#"
    Bridge | 0 first Bridge
    TINRelief | 11 first TINRelief
    TunnelPart | 32 second TunnelPart
    TinRelief | none
    +Shed | none
    Building Part | none
    BuildingParts | none
    "#;

/// Checks that the name of a row has the type that it expects.
fn name_meets(rt: &impl Abort, alloc: Global, row: &str) -> Result<(), AllocError> {
    let (name, want) = row.split_once('|').expect(rt, "two cells");
    let found = shown(alloc, ObjectType::named(name.trim()))?;
    is_text(rt, &found, want.trim(), "types", row);
    Ok(())
}

#[test]
fn types_by_their_names(rt: HostRuntime) -> Result<(), Fail> {
    for row in NAMES.trim().lines() {
        name_meets(&rt, rt.alloc(), row)?;
    }
    Ok(())
}

/// Values, and whether each begins as the types of extensions do.
const EXTENSIONS: [(&str, bool); 12] = [
    (r#""+Shed""#, true),
    (r#""+""#, true),
    (r#""++""#, true),
    (r#""\u002bShed""#, true),
    (r#""Shed""#, false),
    (r#""""#, false),
    (r#"" +Shed""#, false),
    (r#""\\u002bShed""#, false),
    (r#""\u012b""#, false),
    ("3", false),
    ("null", false),
    (r#"["+Shed"]"#, false),
];

#[test]
fn types_of_extensions_begin_with_a_sign(rt: HostRuntime) {
    for row in &EXTENSIONS {
        let (value, want) = *row;
        let tokens = tokens_of(&rt, rt.alloc(), value.as_bytes());
        let found = is_of_extension(Doc::of(value.as_bytes(), tokens.as_slice()).root());
        assert!(&rt; found == want, "{value}");
    }
}

const IN_ORDER: [&str; 33] = [
    "Bridge",
    "Building",
    "CityFurniture",
    "CityObjectGroup",
    "GenericCityObject",
    "LandUse",
    "OtherConstruction",
    "PlantCover",
    "Railway",
    "Road",
    "SolitaryVegetationObject",
    "TINRelief",
    "TransportSquare",
    "Tunnel",
    "WaterBody",
    "Waterway",
    "BridgeConstructiveElement",
    "BridgeFurniture",
    "BridgeInstallation",
    "BridgePart",
    "BridgeRoom",
    "BuildingConstructiveElement",
    "BuildingFurniture",
    "BuildingInstallation",
    "BuildingPart",
    "BuildingRoom",
    "BuildingStorey",
    "BuildingUnit",
    "TunnelConstructiveElement",
    "TunnelFurniture",
    "TunnelHollowSpace",
    "TunnelInstallation",
    "TunnelPart",
];

#[test]
fn all_types_are_in_the_table(rt: HostRuntime) {
    assert_eq!(rt; ObjectType::COUNT, IN_ORDER.len());
}

#[test]
fn all_types_in_the_order_of_the_table(rt: HostRuntime) {
    for (object_type, name) in ObjectType::all().iter().zip(&IN_ORDER) {
        is_text(&rt, object_type.name(), *name, "types in order", *name);
    }
}
