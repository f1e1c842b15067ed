//! The type and the level of detail of a geometry.
use super::{ONE_VERTEX, Table, all_meet};
use std::test::Fail;

const TYPES_OF_DEPTH: &str = r#"
    points | "MultiPoint" | 10 member missing
    lines | "MultiLineString" | 10 member missing
    surfaces | "MultiSurface" | 10 member missing
    a surface | "CompositeSurface" | 10 member missing
    a solid | "Solid" | 10 member missing
    solids | "MultiSolid" | 10 member missing
    a solid of solids | "CompositeSolid" | 10 member missing
    "#;

const BESIDE_ONE_VERTEX: [Table; 12] = [
    Table {
        name: "values that are no objects",
        geometry: "_",
        rows: r#"
        a number | ^3 | 12 wrong kind
        null | ^null | 12 wrong kind
        a truth | ^true | 12 wrong kind
        a text | ^"Solid" | 12 wrong kind
        an array | ^[] | 12 wrong kind
        an array of a geometry | ^[{"type":"Solid"}] | 12 wrong kind
        "#,
    },
    Table {
        name: "values that are no objects, between blanks",
        geometry: " \t_ ",
        rows: r#"
        a number | ^3 | 12 wrong kind
        null | ^null | 12 wrong kind
        a truth | ^true | 12 wrong kind
        a text | ^"Solid" | 12 wrong kind
        an array | ^[] | 12 wrong kind
        an array of a geometry | ^[{"type":"Solid"}] | 12 wrong kind
        "#,
    },
    Table {
        name: "types that are missing or no texts",
        geometry: "_",
        rows: r#"
        no member | ^{} | 10 member missing
        other members | ^{"lod":"1","boundaries":[0]} | 10 member missing
        a name of another case | ^{"Type":"Solid"} | 10 member missing
        null | {"type":^null} | 12 wrong kind
        a truth | {"type":^false} | 12 wrong kind
        a number | {"type":^3} | 12 wrong kind
        an array | {"type":^["Solid"]} | 12 wrong kind
        an object | {"type":^{}} | 12 wrong kind
        "#,
    },
    Table {
        name: "types that are unknown",
        geometry: r#"{"type":_}"#,
        rows: r#"
        no name of the table | ^"Cone" | 24 unknown geometry type
        the empty text | ^"" | 24 unknown geometry type
        a small letter | ^"solid" | 24 unknown geometry type
        the same by an escape | ^"\u0073olid" | 24 unknown geometry type
        a letter more | ^"Solids" | 24 unknown geometry type
        a letter less | ^"Soli" | 24 unknown geometry type
        a blank more | ^"Solid " | 24 unknown geometry type
        a type of a city object | ^"Building" | 24 unknown geometry type
        "#,
    },
    Table {
        name: "no rule of a type holds without one",
        geometry: r#"{"lod":1,"boundaries":0,"semantics":0,"template":null,"type":_}"#,
        rows: r#"
        an unknown type | ^"Cone" | 24 unknown geometry type
        a type that is no text | ^3 | 12 wrong kind
        "#,
    },
    Table {
        name: "each type has its depth",
        geometry: "_",
        rows: r#"
        1 | {"type":"MultiPoint","lod":"1","boundaries":[0]} | none
        2 | {"type":"MultiLineString","lod":"1","boundaries":[[0]]} | none
        3 | {"type":"MultiSurface","lod":"1","boundaries":[[[0]]]} | none
        3 too | {"type":"CompositeSurface","lod":"1","boundaries":[[[0]]]} | none
        4 | {"type":"Solid","lod":"1","boundaries":[[[[0]]]]} | none
        5 | {"type":"MultiSolid","lod":"1","boundaries":[[[[[0]]]]]} | none
        5 too | {"type":"CompositeSolid","lod":"1","boundaries":[[[[[0]]]]]} | none
        "#,
    },
    Table {
        name: "types of surfaces are texts however spelled",
        geometry: r#"{"type":_,"lod":"1","boundaries":[[[^[0]]]]}"#,
        rows: r#"
        a surface | "MultiSurface" | 12 wrong kind
        its first letter | "\u004dultiSurface" | 12 wrong kind
        its last letter | "CompositeSurfac\u0065" | 12 wrong kind
        "#,
    },
    Table {
        name: "types of solids are texts however spelled",
        geometry: r#"{"type":_,"lod":"1","boundaries":[[[^0]]]}"#,
        rows: r#"
        a solid | "Solid" | 12 wrong kind
        its first letter | "\u0053olid" | 12 wrong kind
        each letter | "\u0053\u006F\u006c\u0069\u0064" | 12 wrong kind
        "#,
    },
    Table {
        name: "each type of a depth needs a level of detail",
        geometry: r#"^{"type":_,"boundaries":[]}"#,
        rows: TYPES_OF_DEPTH,
    },
    Table {
        name: "each type of a depth needs boundaries",
        geometry: r#"^{"type":_,"lod":"1"}"#,
        rows: TYPES_OF_DEPTH,
    },
    Table {
        name: "each type of a depth needs both",
        geometry: r#"^{"type":_,"semantics":null}"#,
        rows: TYPES_OF_DEPTH,
    },
    Table {
        name: "a level of detail is a text",
        geometry: r#"{"type":"MultiPoint","boundaries":[0],"lod":_}"#,
        rows: r#"
        a text | "2.2" | none
        the empty text | "" | none
        any other text | "high" | none
        a number | ^1 | 12 wrong kind
        null | ^null | 12 wrong kind
        a truth | ^true | 12 wrong kind
        an array | ^["1"] | 12 wrong kind
        an object | ^{} | 12 wrong kind
        "#,
    },
];

#[test]
fn types_and_levels_of_detail(rt: HostRuntime) -> Result<(), Fail> {
    all_meet(&rt, rt.alloc(), ONE_VERTEX, &BESIDE_ONE_VERTEX)?;
    Ok(())
}
