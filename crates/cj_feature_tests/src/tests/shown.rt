//! What valid headers and features show: bytes of values, counted in the lines, and numbers.
ghost use Rattle.std.specs.Prelude.{◌≡◌, ◌<◌};
ghost use Rattle.cj_spans.specs.View.{document};
ghost use Rattle.cj_feature.specs.HeaderView.{header_tree};

use super::templates::TEMPLATES;
use super::{HEADER, is_text, tokens_of};
use cj_decimal::{Decimal, Fixed18};
use cj_feature::{Feature, Header, check_feature, check_header};
use cj_geometry::{ObjectType, lod_of};
use cj_spans::Doc;
use std::alloc::{AllocError, Global};
use std::process::Abort;
use std::test::Fail;

/// A building with one surface.
const BUILDING: &str =
    r#"{"type":"CityJSONFeature","id":"b1","CityObjects":{"b1":{"type":"Building","geometry":[{"type":"MultiSurface","lod":"2.2","boundaries":[[[0,1,2,3]]]}]}},"vertices":[[0,0,0],[1000,0,0],[1000,1000,0],[0,1000,0]]}"#;

/// A plant that names the first template, next to a part of a building and its parent.
const TREE: &str =
    r#"{"type":"CityJSONFeature","id":"t","CityObjects":{"t":{"type":"SolitaryVegetationObject","geometry":[{"type":"GeometryInstance","template":0,"boundaries":[0],"transformationMatrix":[1,0,0,0,0,1,0,0,0,0,1,0,0,0,0,1]}]},"p":{"type":"BuildingPart","parents":["b"]},"b":{"type":"Building","children":["p"]}},"vertices":[[-1,2e1,3.0]]}"#;

/// Returns three numbers as coefficient and power.
fn three_text(alloc: Global, numbers: [Decimal; 3]) -> Result<String, AllocError> {
    let [x, y, z] = numbers;
    format!(in alloc;
        "{}e{} {}e{} {}e{}",
        x.coefficient(),
        x.power(),
        y.coefficient(),
        y.power(),
        z.coefficient(),
        z.power()
    )
}

/// Returns what a header shows.
fn header_text(alloc: Global, header: &Header) -> Result<String, AllocError> {
    let scale = three_text(alloc, header.scale())?;
    let translate = three_text(alloc, header.translate())?;
    format!(in alloc;
        "{scale}, {translate}, {} bytes, box {}",
        header.bytes().len(),
        header.affine().is_some()
    )
}

/// Returns the header again, from its parts.
fn again<'a>(doc: Doc<'a>, header: &Header<'a>) -> Header<'a>
    requires { header_tree header.now ≡ document doc }
{
    Header::of(doc, header.parts())
}

/// Returns what a line shows as a header, as the header made from its parts, and as the one made
/// from parts that are kept.
fn header_texts(
    rt: &impl Abort,
    alloc: Global,
    line: &[u8],
) -> Result<(String, String, String), AllocError> {
    let tokens = tokens_of(rt, alloc, line);
    let doc = Doc::of(line, tokens.as_slice());
    match check_header(doc, false) {
        Ok(header) => {
            let first = header_text(alloc, &header)?;
            let second = header_text(alloc, &again(doc, &header))?;
            let parts = header.parts();
            let third = header_text(alloc, &Header::kept(doc, &parts))?;
            Ok((first, second, third))
        }
        Err(_) => panic!(rt; "no header"),
    }
}

#[test]
fn a_header_of_its_parts_shows_the_same(rt: HostRuntime) -> Result<(), Fail> {
    let want = "1e-3 1e-3 1e-3, 1e3 2e3 0e0, 140 bytes, box false";
    let (text, second, third) = header_texts(&rt, rt.alloc(), HEADER.as_bytes())?;
    is_text(&rt, &text, want, "a header", "itself");
    is_text(&rt, &second, want, "a header", "of its parts");
    is_text(&rt, &third, want, "a header", "of kept parts");
    Ok(())
}

/// Returns how the maps of a header compare a whole number on each axis with a number.
fn compared(
    rt: &impl Abort,
    alloc: Global,
    header: &Header,
    vertex: [i64; 2],
    point: [&str; 2],
) -> Result<String, AllocError> {
    let [x, y] = header.affine().expect(rt, "a box");
    assert!(rt; vertex[0] >= 0 && vertex[0] < 1_000_000);
    assert!(rt; vertex[1] >= 0 && vertex[1] < 1_000_000);
    let east = x.compare(vertex[0], fixed(rt, point[0]));
    let north = y.compare(vertex[1], fixed(rt, point[1]));
    format!(in alloc; "{east:?} {north:?}")
}

/// Returns a number that a box may have.
fn fixed(rt: &impl Abort, spelling: &str) -> Fixed18 {
    match Decimal::read(spelling.as_bytes()) {
        Ok(number) => number.fixed18().expect(rt, "a fixed number"),
        Err(_) => panic!(rt; "no number"),
    }
}

/// Returns how the maps of the usual header compare a vertex with a point.
fn vertex_text(
    rt: &impl Abort,
    alloc: Global,
    vertex: [i64; 2],
    point: [&str; 2],
) -> Result<String, AllocError> {
    let tokens = tokens_of(rt, alloc, HEADER.as_bytes());
    match check_header(Doc::of(HEADER.as_bytes(), tokens.as_slice()), true) {
        Ok(header) => compared(rt, alloc, &header, vertex, point),
        Err(_) => panic!(rt; "no header"),
    }
}

fn compares(
    rt: &impl Abort,
    alloc: Global,
    vertex: [i64; 2],
    point: [&str; 2],
    want: &str,
) -> Result<(), AllocError> {
    let text = vertex_text(rt, alloc, vertex, point)?;
    is_text(rt, &text, want, "a vertex and a point", point[0]);
    Ok(())
}

#[test]
fn a_header_for_a_box_maps_vertices(rt: HostRuntime) -> Result<(), Fail> {
    compares(&rt, rt.alloc(), [1_000, 0], ["1001", "2000"], "Equal Equal")?;
    let apart = ["1001.000000000000000001", "2000"];
    compares(&rt, rt.alloc(), [1_000, 1], apart, "Less Greater")?;
    Ok(())
}

/// Returns the name of a type, or `+` for one of an extension.
fn name_of(object_type: Option<ObjectType>) -> &'static str {
    match object_type {
        Some(object_type) => object_type.name(),
        None => "+",
    }
}

/// Returns the bytes of id and object, and the type, of each city object.
fn objects_text(alloc: Global, feature: &Feature) -> Result<String, AllocError> {
    let mut text = String::new(alloc);
    for object in feature.objects() {
        let one = format!(in alloc;
            " {} {} {}",
            object.id.start(),
            name_of(object.object_type),
            object.node.start()
        )?;
        text.push_str(&one)?;
    }
    Ok(text)
}

/// Returns the bytes of geometries, and of their levels of detail.
fn geometries_text(alloc: Global, feature: &Feature) -> Result<String, AllocError> {
    let mut text = String::new(alloc);
    for geometry in feature.geometries() {
        let level = match lod_of(geometry, feature.templates()) {
            Some(level) => level.start(),
            None => 0,
        };
        let one = format!(in alloc; " {} {level}", geometry.start())?;
        text.push_str(&one)?;
    }
    Ok(text)
}

/// Returns the numbers of vertices.
fn vertices_text(alloc: Global, feature: &Feature) -> Result<String, AllocError> {
    let mut text = String::new(alloc);
    for [x, y, z] in feature.vertices() {
        let one = format!(in alloc; " {x},{y},{z}")?;
        text.push_str(&one)?;
    }
    Ok(text)
}

/// Returns the numbers of vertices on an axis.
fn coordinates_text(alloc: Global, feature: &Feature, axis: usize) -> Result<String, AllocError>
    requires { axis < 3 }
{
    let mut text = String::new(alloc);
    for number in feature.coordinates(axis) {
        let one = format!(in alloc; " {number}")?;
        text.push_str(&one)?;
    }
    Ok(text)
}

/// Returns what a feature shows.
fn feature_text(alloc: Global, feature: &Feature) -> Result<String, AllocError> {
    let objects = objects_text(alloc, feature)?;
    let geometries = geometries_text(alloc, feature)?;
    let vertices = vertices_text(alloc, feature)?;
    let x = coordinates_text(alloc, feature, 0)?;
    let y = coordinates_text(alloc, feature, 1)?;
    let z = coordinates_text(alloc, feature, 2)?;
    format!(in alloc;
        "id {}, objects{objects}, geometries{geometries}, vertices{vertices}, x{x}, y{y}, z{z}, {} bytes",
        feature.id().start(),
        feature.bytes().len()
    )
}

/// Returns what a line shows as a feature with a header.
fn line_text(
    rt: &impl Abort,
    alloc: Global,
    header_line: &[u8],
    line: &[u8],
) -> Result<String, AllocError> {
    let header_tokens = tokens_of(rt, alloc, header_line);
    let tokens = tokens_of(rt, alloc, line);
    match check_header(Doc::of(header_line, header_tokens.as_slice()), false) {
        Ok(header) => match check_feature(Doc::of(line, tokens.as_slice()), &header, false, true) {
            Ok(feature) => feature_text(alloc, &feature),
            Err(_) => panic!(rt; "no feature"),
        },
        Err(_) => panic!(rt; "no header"),
    }
}

fn shows(
    rt: &impl Abort,
    alloc: Global,
    header: &str,
    line: &str,
    want: &str,
) -> Result<(), AllocError> {
    let text = line_text(rt, alloc, header.as_bytes(), line.as_bytes())?;
    is_text(rt, &text, want, "shown", line);
    Ok(())
}

#[test]
fn a_building_shows_its_parts(rt: HostRuntime) -> Result<(), Fail> {
    let want =
        "id 31, objects 51 Building 56, geometries 87 116, vertices 0,0,0 1000,0,0 1000,1000,0 0,1000,0, x 0 1000 1000 0, y 0 0 1000 1000, z 0 0 0 0, 210 bytes";
    shows(&rt, rt.alloc(), HEADER, BUILDING, want)?;
    Ok(())
}

/// A city object of an extension, and one of the table.
const SHED: &str =
    r#"{"type":"CityJSONFeature","id":"s","CityObjects":{"s":{"type":"+Shed"},"r":{"type":"Road"}},"vertices":[]}"#;

#[test]
fn a_type_of_an_extension_is_none_of_the_table(rt: HostRuntime) -> Result<(), Fail> {
    let want = "id 31, objects 50 + 54 71 Road 75, geometries, vertices, x, y, z, 106 bytes";
    shows(&rt, rt.alloc(), HEADER, SHED, want)?;
    Ok(())
}

#[test]
fn an_instance_shows_the_level_of_its_template(rt: HostRuntime) -> Result<(), Fail> {
    let want =
        "id 31, objects 50 SolitaryVegetationObject 54 218 BuildingPart 222 262 Building 266, geometries 101 204, vertices -1,20,3, x -1, y 20, z 3, 330 bytes";
    shows(&rt, rt.alloc(), TEMPLATES, TREE, want)?;
    Ok(())
}
