//! Semantics: the object and its surfaces.
use super::{ONE_VERTEX, Table, all_meet};
use std::test::Fail;

const VALUES_FIRST: &str = r#"
    any index | {"values":[9],"surfaces":^{}} | 12 wrong kind
    an index below 0 | {"values":[-1],"surfaces":^null} | 12 wrong kind
    a text for an index | {"values":[^"0"],"surfaces":0} | 12 wrong kind
    a half | {"values":[^0.5],"surfaces":0} | 18 not a whole number
    37 digits | {"values":[^1111111111111111111111111111111111111],"surfaces":0} | 13 number out of range
    another count | {"values":^[],"surfaces":0} | 26 semantics count
    no array of values | {"values":^3,"surfaces":0} | 12 wrong kind
    "#;

const UNREAD: &str = r#"
    null | null | none
    a number | 37 | none
    an array | [0,1] | none
    an object with doubled names | {"a":1,"a":2} | none
    surfaces and values of any kind | {"surfaces":[{}],"values":[9]} | none
    "#;

const BESIDE_ONE_VERTEX: [Table; 8] = [
    Table {
        name: "semantics are an object",
        geometry: r#"{"type":"MultiSurface","lod":"1","boundaries":[[[0]]],"semantics":_}"#,
        rows: r#"
        an object | {"surfaces":[],"values":null} | none
        null | ^null | 12 wrong kind
        a truth | ^false | 12 wrong kind
        a number | ^0 | 12 wrong kind
        a text | ^"" | 12 wrong kind
        an array | ^[] | 12 wrong kind
        "#,
    },
    Table {
        name: "semantics need surfaces and values",
        geometry: r#"{"type":"MultiSurface","lod":"1","boundaries":[[[0]]],"semantics":_}"#,
        rows: r#"
        neither | ^{} | 10 member missing
        no surfaces | ^{"values":[null]} | 10 member missing
        no values | ^{"surfaces":[]} | 10 member missing
        no surfaces for a value | ^{"values":[9]} | 10 member missing
        "#,
    },
    Table {
        name: "values beside surfaces that are no array",
        geometry: r#"{"type":"MultiSurface","lod":"1","boundaries":[[[0]]],"semantics":_}"#,
        rows: VALUES_FIRST,
    },
    Table {
        name: "values of a composite surface beside surfaces that are no array",
        geometry: r#"{"type":"CompositeSurface","lod":"1","boundaries":[[[0]]],"semantics":_}"#,
        rows: VALUES_FIRST,
    },
    Table {
        name: "surfaces are an array of objects",
        geometry: r#"{"type":"Solid","lod":"1","boundaries":[],"semantics":{"surfaces":_,"values":null}}"#,
        rows: r#"
        no surface | [] | none
        null | ^null | 12 wrong kind
        a number | ^0 | 12 wrong kind
        an object | ^{"type":"RoofSurface"} | 12 wrong kind
        null for a surface | [^null] | 12 wrong kind
        a text for a surface | [^"RoofSurface"] | 12 wrong kind
        an array for a surface | [^[]] | 12 wrong kind
        a number after a surface | [{"type":"RoofSurface"},^0] | 12 wrong kind
        "#,
    },
    Table {
        name: "a surface needs a type",
        geometry: r#"{"type":"Solid","lod":"1","boundaries":[],"semantics":{"surfaces":_,"values":null}}"#,
        rows: r#"
        a type | [{"type":"RoofSurface"}] | none
        any text | [{"type":""},{"type":"+Moss"}] | none
        other members | [{"type":"RoofSurface","parent":null,"children":3}] | none
        no member | [^{}] | 10 member missing
        no type | [{"type":"RoofSurface"},^{"parent":0}] | 10 member missing
        null | [{"type":^null}] | 12 wrong kind
        a number | [{"type":^0}] | 12 wrong kind
        an array | [{"type":"a"},{"type":^[]}] | 12 wrong kind
        by an escape | [{"\u0074yp\u0065":^0}] | 12 wrong kind
        "#,
    },
    Table {
        name: "semantics of points are not read",
        geometry: r#"{"type":"MultiPoint","lod":"1","boundaries":[0],"semantics":_}"#,
        rows: UNREAD,
    },
    Table {
        name: "semantics of lines are not read",
        geometry: r#"{"type":"MultiLineString","lod":"1","boundaries":[[0]],"semantics":_}"#,
        rows: UNREAD,
    },
];

#[test]
fn semantics_and_their_surfaces(rt: HostRuntime) -> Result<(), Fail> {
    all_meet(&rt, rt.alloc(), ONE_VERTEX, &BESIDE_ONE_VERTEX)?;
    Ok(())
}
