//! Two rules broken at once. The least finding by byte is reported, and at one byte the one with
//! the lesser code. The order of the checks does not matter.
use super::{Around, Given, ONE_VERTEX, Table, all_meet, meets_after};
use cj_spans::{Finding, Reason};
use std::test::Fail;

/// One vertex, and one template.
const WITH_ONE_TEMPLATE: Around = Around {
    vertices: Some(1),
    templates: Given::List("[null]"),
};

const BESIDE_ONE_VERTEX: [Table; 4] = [
    Table {
        name: "members in either order",
        geometry: "_",
        rows: r#"
        a level of detail, then boundaries | {"type":"MultiPoint","lod":^1,"boundaries":[2]} | 12 wrong kind
        boundaries, then a level of detail | {"type":"MultiPoint","boundaries":[^2],"lod":1} | 25 vertex index out of range
        semantics, then boundaries | {"type":"Solid","lod":"1","semantics":^0,"boundaries":0} | 12 wrong kind
        boundaries, then semantics | {"type":"Solid","lod":"1","boundaries":[^0],"semantics":{}} | 12 wrong kind
        semantics, then a level of detail | {"type":"Solid","boundaries":[],"semantics":^{},"lod":1} | 10 member missing
        a doubled name, then a type | {"a":1,^"a":1,"type":"Cone"} | 11 duplicate name
        a type, then a doubled name | {"type":^"Cone","a":1,"a":1} | 24 unknown geometry type
        an index, then a doubled name | {"type":"MultiPoint","lod":"1","boundaries":[^1],"lod":"1"} | 25 vertex index out of range
        "#,
    },
    Table {
        name: "a missing member is told at its object",
        geometry: "_",
        rows: r#"
        a level of detail beside an index | ^{"type":"MultiPoint","boundaries":[1]} | 10 member missing
        boundaries beside a level of detail | ^{"type":"MultiPoint","lod":1} | 10 member missing
        a type beside a doubled name | ^{"a":1,"a":1} | 10 member missing
        values beside surfaces | {"type":"Solid","lod":"1","boundaries":[],"semantics":^{"surfaces":0}} | 10 member missing
        a type of a surface beside values | {"type":"Solid","lod":"1","boundaries":[],"semantics":{"surfaces":[^{}],"values":3}} | 10 member missing
        values before a type of a surface | {"type":"Solid","lod":"1","boundaries":[],"semantics":{"values":^3,"surfaces":[{}]}} | 12 wrong kind
        "#,
    },
    Table {
        name: "indices in either order",
        geometry: r#"{"type":"MultiPoint","lod":"1","boundaries":_}"#,
        rows: r#"
        past the vertices, then a text | [0,^1,"0"] | 25 vertex index out of range
        a text, then past the vertices | [0,^"0",1] | 12 wrong kind
        a half, then 37 digits | [^0.5,1111111111111111111111111111111111111] | 18 not a whole number
        37 digits, then a half | [^1111111111111111111111111111111111111,0.5] | 13 number out of range
        "#,
    },
    Table {
        name: "values and boundaries in either order",
        geometry: "_",
        rows: r#"
        boundaries first | {"type":"MultiSurface","lod":"1","boundaries":[[[^1]]],"semantics":{"surfaces":[],"values":[0]}} | 25 vertex index out of range
        values first | {"type":"MultiSurface","lod":"1","semantics":{"surfaces":[],"values":[^0]},"boundaries":[[[1]]]} | 27 semantics index out of range
        a count, then an index | {"type":"MultiSurface","lod":"1","boundaries":[[]],"semantics":{"surfaces":[],"values":^[0,0]}} | 26 semantics count
        an index, then a count | {"type":"Solid","lod":"1","boundaries":[[[]],[[]]],"semantics":{"surfaces":[],"values":[[^0],[]]}} | 27 semantics index out of range
        a surface, then values | {"type":"MultiSurface","lod":"1","boundaries":[[]],"semantics":{"surfaces":[^0],"values":[]}} | 12 wrong kind
        values, then a surface | {"type":"MultiSurface","lod":"1","boundaries":[[]],"semantics":{"values":^[],"surfaces":[0]}} | 26 semantics count
        "#,
    },
];

const BESIDE_ONE_TEMPLATE: [Table; 1] = [Table {
    name: "members of an instance in either order",
    geometry: r#"{"type":"GeometryInstance",_}"#,
    rows: r#"
        a template, then boundaries | "template":^1,"boundaries":[],"transformationMatrix":[] | 28 template index out of range
        boundaries, then a template | "boundaries":^[],"template":1,"transformationMatrix":[] | 29 bad instance
        a matrix, then a template | "transformationMatrix":^0,"template":1,"boundaries":[1] | 12 wrong kind
        an index, then a matrix | "boundaries":[^1],"transformationMatrix":[],"template":0 | 25 vertex index out of range
        two indices and their array | "template":0,"boundaries":^[1,2],"transformationMatrix":[] | 29 bad instance
        "#,
}];

#[test]
fn two_rules_at_once(rt: HostRuntime) -> Result<(), Fail> {
    all_meet(&rt, rt.alloc(), ONE_VERTEX, &BESIDE_ONE_VERTEX)?;
    all_meet(&rt, rt.alloc(), WITH_ONE_TEMPLATE, &BESIDE_ONE_TEMPLATE)?;
    Ok(())
}

/// A line, the place and the reason of an earlier finding, and what is wanted.
const AFTER: [(&str, u64, Reason, &str); 6] = [
    (r#"{}"#, 0, Reason::DuplicateName, "0 10 member missing"),
    (r#"{}"#, 0, Reason::Syntax, "0 4 syntax"),
    (r#"{}"#, 1, Reason::Syntax, "0 10 member missing"),
    (r#"{"type":3}"#, 8, Reason::NumberRange, "8 12 wrong kind"),
    (
        r#"{"type":3}"#,
        8,
        Reason::DuplicateName,
        "8 11 duplicate name",
    ),
    (
        r#"{"type":3}"#,
        7,
        Reason::TransformNotFixed,
        "7 30 transform not fixed",
    ),
];

#[test]
fn earlier_findings_at_one_place(rt: HostRuntime) -> Result<(), Fail> {
    for (line, place, reason, want) in &AFTER {
        let before = Finding {
            place: *place,
            reason: *reason,
        };
        meets_after(&rt, rt.alloc(), *line, before, *want)?;
    }
    Ok(())
}
