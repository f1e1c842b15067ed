//! Boundaries: the kinds of values at each level.
use super::{ONE_VERTEX, TWO_VERTICES, Table, all_meet};
use std::test::Fail;

const NO_ARRAYS: &str = r#"
    null | ^null | 12 wrong kind
    a truth | ^true | 12 wrong kind
    a number | ^0 | 12 wrong kind
    a text | ^"0" | 12 wrong kind
    an object | ^{} | 12 wrong kind
    "#;

const SURFACES: &str = r#"
    no surface | [] | none
    a surface of no ring | [[]] | none
    a ring of no point | [[[]]] | none
    a surface with a hole and another | [[[0,1,0],[1,0,1]],[[0]]] | none
    no array | ^{} | 12 wrong kind
    a number for a surface | [^0] | 12 wrong kind
    null for a surface | [[[0]],^null] | 12 wrong kind
    a number for a ring | [[^0]] | 12 wrong kind
    null for a ring | [[[0],^null]] | 12 wrong kind
    a level more | [[[^[0]]]] | 12 wrong kind
    an index past the vertices | [[[0,1]],[[0],[^2]]] | 25 vertex index out of range
    "#;

const SOLIDS: &str = r#"
    no solid | [] | none
    a ring of no point | [[[[[]]]]] | none
    two solids | [[[[[0,1]]]],[[[[1]]],[[[0]]]]] | none
    no array | ^null | 12 wrong kind
    a number for a solid | [^0] | 12 wrong kind
    a text for a shell | [[],[^"0"]] | 12 wrong kind
    null for a surface | [[[[]],[^null]]] | 12 wrong kind
    a level less | [[[[^0]]]] | 12 wrong kind
    a level more | [[[[[^[0]]]]]] | 12 wrong kind
    an index past the vertices | [[[[[0]]]],[[[[1,^2]]]]] | 25 vertex index out of range
    "#;

const BESIDE_ONE_VERTEX: [Table; 5] = [
    Table {
        name: "boundaries of points are arrays",
        geometry: r#"{"type":"MultiPoint","lod":"1","boundaries":_}"#,
        rows: NO_ARRAYS,
    },
    Table {
        name: "boundaries of a solid are arrays",
        geometry: r#"{"type":"Solid","lod":"1","boundaries":_}"#,
        rows: NO_ARRAYS,
    },
    Table {
        name: "shells of a solid are arrays",
        geometry: r#"{"type":"Solid","lod":"1","boundaries":[_]}"#,
        rows: NO_ARRAYS,
    },
    Table {
        name: "surfaces of a solid are arrays",
        geometry: r#"{"type":"Solid","lod":"1","boundaries":[[],[_]]}"#,
        rows: NO_ARRAYS,
    },
    Table {
        name: "rings of a solid are arrays",
        geometry: r#"{"type":"Solid","lod":"1","boundaries":[[[],[_]]]}"#,
        rows: NO_ARRAYS,
    },
];

const BESIDE_TWO_VERTICES: [Table; 7] = [
    Table {
        name: "boundaries of points",
        geometry: r#"{"type":"MultiPoint","lod":"1","boundaries":_}"#,
        rows: r#"
        no point | [] | none
        two points | [1,0] | none
        with blanks | [ 1 , 0 ] | none
        a level more | [^[0]] | 12 wrong kind
        an index past the vertices | [0,^2] | 25 vertex index out of range
        two of them | [0,^3,2] | 25 vertex index out of range
        "#,
    },
    Table {
        name: "boundaries of lines",
        geometry: r#"{"type":"MultiLineString","lod":"1","boundaries":_}"#,
        rows: r#"
        no line | [] | none
        a line of no point | [[]] | none
        two lines | [[0,1],[1,0]] | none
        no array | ^0 | 12 wrong kind
        a level less | [^0,1] | 12 wrong kind
        null for a line | [[0],^null] | 12 wrong kind
        a level more | [[^[0]]] | 12 wrong kind
        an index past the vertices | [[0],[1,^2]] | 25 vertex index out of range
        "#,
    },
    Table {
        name: "boundaries of surfaces",
        geometry: r#"{"type":"MultiSurface","lod":"1","boundaries":_}"#,
        rows: SURFACES,
    },
    Table {
        name: "boundaries of a composite surface",
        geometry: r#"{"type":"CompositeSurface","lod":"1","boundaries":_}"#,
        rows: SURFACES,
    },
    Table {
        name: "boundaries of a solid",
        geometry: r#"{"type":"Solid","lod":"1","boundaries":_}"#,
        rows: r#"
        no shell | [] | none
        a shell of no surface | [[]] | none
        a surface of no ring | [[[]]] | none
        a ring of no point | [[[[]]]] | none
        two shells | [[[[0,1]],[[1]]],[[[0],[1]]]] | none
        a level less | [[[^0]]] | 12 wrong kind
        a level more | [[[[0,^[0]]]]] | 12 wrong kind
        an index past the vertices | [[[[0]]],[[[0],[0,^2]]]] | 25 vertex index out of range
        "#,
    },
    Table {
        name: "boundaries of solids",
        geometry: r#"{"type":"MultiSolid","lod":"1","boundaries":_}"#,
        rows: SOLIDS,
    },
    Table {
        name: "boundaries of a composite solid",
        geometry: r#"{"type":"CompositeSolid","lod":"1","boundaries":_}"#,
        rows: SOLIDS,
    },
];

#[test]
fn boundaries_at_each_level(rt: HostRuntime) -> Result<(), Fail> {
    all_meet(&rt, rt.alloc(), ONE_VERTEX, &BESIDE_ONE_VERTEX)?;
    all_meet(&rt, rt.alloc(), TWO_VERTICES, &BESIDE_TWO_VERTICES)?;
    Ok(())
}
