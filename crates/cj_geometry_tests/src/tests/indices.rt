//! Indices of vertices, and how they may be spelled.
use super::{Around, FOUR_VERTICES, Given, NO_VERTICES, Table, UNKNOWN_VERTICES, all_meet};
use std::test::Fail;

/// A geometry that is itself a template, of no vertices.
const A_TEMPLATE_OF_NO_VERTICES: Around = Around {
    vertices: Some(0),
    templates: Given::Itself,
};

/// So many vertices that the greatest index names the last one.
const MANY_VERTICES: Around = Around {
    vertices: Some(1_000_000_000_000_000_000),
    templates: Given::Empty,
};

const INDEX: &str = r#"{"type":"MultiSurface","lod":"2.2","boundaries":[[[0,1,2,_]]]}"#;

const BESIDE_FOUR_VERTICES: [Table; 5] = [
    Table {
        name: "indices name a vertex",
        geometry: INDEX,
        rows: r#"
        the first | 0 | none
        the last | 3 | none
        equal to the count | ^4 | 25 vertex index out of range
        above the count | ^5 | 25 vertex index out of range
        eight digits | ^10000003 | 25 vertex index out of range
        nine digits | ^100000003 | 25 vertex index out of range
        the greatest whole number | ^999999999999999999 | 25 vertex index out of range
        below 0 | ^-1 | 25 vertex index out of range
        the least whole number | ^-999999999999999999 | 25 vertex index out of range
        "#,
    },
    Table {
        name: "indices are numbers",
        geometry: INDEX,
        rows: r#"
        null | ^null | 12 wrong kind
        a truth | ^true | 12 wrong kind
        a text | ^"3" | 12 wrong kind
        a text of eight bytes | ^"000003" | 12 wrong kind
        an array | ^[3] | 12 wrong kind
        an array of eight bytes | ^[1,2,13] | 12 wrong kind
        an object | ^{} | 12 wrong kind
        "#,
    },
    Table {
        name: "spellings of an index",
        geometry: INDEX,
        rows: r#"
        minus 0 | -0 | none
        minus 0 with a fraction | -0.0 | none
        a fraction of 0 | 3.0 | none
        a fraction of 0, in eight bytes | 3.000000 | none
        an exponent of 0 | 3e0 | none
        an exponent of minus 0 | 3E-0 | none
        a great exponent of 0 | 0e999999999999 | none
        a fraction that the exponent takes away | 0.3e+1 | none
        zeros that the exponent takes away | 300e-2 | none
        4 with a fraction | ^4.0 | 25 vertex index out of range
        4 with an exponent | ^0.04e2 | 25 vertex index out of range
        minus 1 with an exponent | ^-1e0 | 25 vertex index out of range
        "#,
    },
    Table {
        name: "indices are whole",
        geometry: INDEX,
        rows: r#"
        a half more | ^1.5 | 18 not a whole number
        a half | ^0.5 | 18 not a whole number
        minus a half | ^-0.5 | 18 not a whole number
        a tenth | ^1e-1 | 18 not a whole number
        10^18 | ^1e18 | 18 not a whole number
        10^18 in digits | ^1000000000000000000 | 18 not a whole number
        minus 10^18 | ^-1e18 | 18 not a whole number
        36 digits | ^111111111111111111111111111111111111 | 18 not a whole number
        37 digits of which the last is 0 | ^1111111111111111111111111111111111110 | 18 not a whole number
        the greatest power | ^1e1000000 | 18 not a whole number
        "#,
    },
    Table {
        name: "indices are in range",
        geometry: INDEX,
        rows: r#"
        37 digits | ^1111111111111111111111111111111111111 | 13 number out of range
        37 digits below 0 | ^-1111111111111111111111111111111111111 | 13 number out of range
        37 digits after the point | ^0.1111111111111111111111111111111111111 | 13 number out of range
        a greater power than the greatest | ^1e1000001 | 13 number out of range
        a lesser power than the least | ^1e-1000001 | 13 number out of range
        "#,
    },
];

const AS_A_TEMPLATE_OF_NO_VERTICES: [Table; 1] = [Table {
    name: "indices of no vertices",
    geometry: r#"{"type":"MultiPoint","lod":"1","boundaries":_}"#,
    rows: r#"
        no index | [] | none
        the first | [^0] | 25 vertex index out of range
        minus 0 | [^-0] | 25 vertex index out of range
        "#,
}];

const BESIDE_NO_VERTICES: [Table; 1] = [Table {
    name: "no index names a vertex of none",
    geometry: r#"{"type":"MultiPoint","lod":"1","boundaries":_}"#,
    rows: r#"
        no index | [] | none
        0 | [^0] | 25 vertex index out of range
        minus 0 | [^-0] | 25 vertex index out of range
        "#,
}];

const BESIDE_MANY_VERTICES: [Table; 1] = [Table {
    name: "the greatest index names the last vertex of many",
    geometry: r#"{"type":"MultiPoint","lod":"1","boundaries":_}"#,
    rows: r#"
        the greatest of eight digits | [99999999] | none
        the least of nine digits | [100000000] | none
        the greatest whole number | [999999999999999999] | none
        "#,
}];

const BESIDE_UNKNOWN_VERTICES: [Table; 1] = [Table {
    name: "indices beside unknown vertices",
    geometry: INDEX,
    rows: r#"
        any index | 4 | none
        the greatest whole number | 999999999999999999 | none
        below 0 | -1 | none
        a text | ^"0" | 12 wrong kind
        37 digits | ^1111111111111111111111111111111111111 | 13 number out of range
        a half | ^0.5 | 18 not a whole number
        10^18 | ^1e18 | 18 not a whole number
        "#,
}];

#[test]
fn indices_of_vertices(rt: HostRuntime) -> Result<(), Fail> {
    all_meet(&rt, rt.alloc(), FOUR_VERTICES, &BESIDE_FOUR_VERTICES)?;
    all_meet(
        &rt,
        rt.alloc(),
        A_TEMPLATE_OF_NO_VERTICES,
        &AS_A_TEMPLATE_OF_NO_VERTICES,
    )?;
    all_meet(&rt, rt.alloc(), NO_VERTICES, &BESIDE_NO_VERTICES)?;
    all_meet(&rt, rt.alloc(), MANY_VERTICES, &BESIDE_MANY_VERTICES)?;
    all_meet(&rt, rt.alloc(), UNKNOWN_VERTICES, &BESIDE_UNKNOWN_VERTICES)?;
    Ok(())
}
