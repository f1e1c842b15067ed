//! Worked geometries, with places that are counted in the lines.
use super::{
    A_TEMPLATE, ONE_VERTEX, THREE_VERTICES, Table, UNKNOWN_VERTICES, all_meet, meets_after,
};
use cj_spans::{Finding, Reason};
use std::test::Fail;

const POINTS: &str = r#"{"type":"MultiPoint","lod":"1","boundaries":[0,1]}"#;

#[test]
fn an_earlier_finding_is_kept(rt: HostRuntime) -> Result<(), Fail> {
    let before = Finding {
        place: 5,
        reason: Reason::WrongKind,
    };
    meets_after(&rt, rt.alloc(), POINTS, before, "5 12 wrong kind")?;
    Ok(())
}

const BESIDE_ONE_VERTEX: [Table; 1] = [Table {
    name: "geometries beside one vertex",
    geometry: "_",
    rows: r#"
        an index past the vertices | {"type":"MultiPoint","lod":"1","boundaries":[0,1]} | 47 25 vertex index out of range
        no object | 3 | 0 12 wrong kind
        no type | {} | 0 10 member missing
        no type of the table | {"type":"Cone"} | 8 24 unknown geometry type
        an instance of nothing | {"type":"GeometryInstance"} | 0 10 member missing
        "#,
}];

const BESIDE_UNKNOWN_VERTICES: [Table; 1] = [Table {
    name: "an unknown number of vertices",
    geometry: POINTS,
    rows: "any index||none",
}];

const AS_TEMPLATES: [Table; 1] = [Table {
    name: "a template that is an instance",
    geometry: r#"{"type":"GeometryInstance"}"#,
    rows: "an instance||8 29 bad instance",
}];

const BESIDE_THREE_VERTICES: [Table; 1] = [Table {
    name: "semantic values of a solid",
    geometry: r#"{"type":"Solid","lod":"1","boundaries":[[[[0,1,2]],[[0,2,1]]]],"semantics":{"surfaces":[{"type":"RoofSurface"}],"values":_}}"#,
    rows: r#"
        null as a whole | null | none
        null for the shell | [null] | none
        null for a surface | [[0,null]] | none
        no shell | [] | 121 26 semantics count
        one surface of two | [[0]] | 122 26 semantics count
        an index equal to the count | [[0,1]] | 125 27 semantics index out of range
        "#,
}];

#[test]
fn worked_geometries(rt: HostRuntime) -> Result<(), Fail> {
    all_meet(&rt, rt.alloc(), ONE_VERTEX, &BESIDE_ONE_VERTEX)?;
    all_meet(&rt, rt.alloc(), UNKNOWN_VERTICES, &BESIDE_UNKNOWN_VERTICES)?;
    all_meet(&rt, rt.alloc(), A_TEMPLATE, &AS_TEMPLATES)?;
    all_meet(&rt, rt.alloc(), THREE_VERTICES, &BESIDE_THREE_VERTICES)?;
    Ok(())
}
