//! Semantic values for the boundaries.
use super::{ONE_VERTEX, Table, all_meet};
use std::test::Fail;

const OF_TWO_SURFACES: &str = r#"
    null as a whole | null | none
    null for each surface | [null,null] | none
    an index for each | [1,0] | none
    an index and null | [0,null] | none
    other spellings | [-0,1e0] | none
    a number | ^0 | 12 wrong kind
    a truth | ^true | 12 wrong kind
    a text | ^"0" | 12 wrong kind
    an object | ^{} | 12 wrong kind
    none | ^[] | 26 semantics count
    one less | ^[null] | 26 semantics count
    one more | ^[0,1,0] | 26 semantics count
    "#;

const ENTRIES: &str = r#"
    an index equal to the count | [0,^2] | 27 semantics index out of range
    an index above the count | [^3,0] | 27 semantics index out of range
    an index below 0 | [^-1,0] | 27 semantics index out of range
    a half | [null,^0.5] | 18 not a whole number
    10^18 | [^1e18,0] | 18 not a whole number
    37 digits | [^1111111111111111111111111111111111111,0] | 13 number out of range
    a truth | [^false,0] | 12 wrong kind
    a text | [^"0",0] | 12 wrong kind
    an object | [0,^{}] | 12 wrong kind
    a level more | [^[0],0] | 12 wrong kind
    "#;

const OF_TWO_SOLIDS: &str = r#"
    null as a whole | null | none
    null for each solid | [null,null] | none
    null for each shell | [[null],[null,null]] | none
    null for surfaces | [[[null,0]],[[null],[]]] | none
    an index for each | [[[0,0]],[[0],[]]] | none
    a text | ^"" | 12 wrong kind
    two levels less | [^0,0] | 12 wrong kind
    a level less | [[^0],null] | 12 wrong kind
    a level more | [[[^[0],0]],null] | 12 wrong kind
    an index equal to the count | [[[0,^1]],null] | 27 semantics index out of range
    "#;

const LENGTHS_OF_TWO_SOLIDS: &str = r#"
    no solid | ^[] | 26 semantics count
    a solid less | ^[[[0,0]]] | 26 semantics count
    a solid more | ^[null,null,null] | 26 semantics count
    no shell | [^[],null] | 26 semantics count
    a shell less | [null,^[[0]]] | 26 semantics count
    a shell more | [^[[0,0],null],null] | 26 semantics count
    no surface | [[^[]],null] | 26 semantics count
    a surface less | [[^[0]],null] | 26 semantics count
    a surface more | [null,[[0],^[0]]] | 26 semantics count
    "#;

const BESIDE_ONE_VERTEX: [Table; 14] = [
    Table {
        name: "values of surfaces",
        geometry: r#"{"type":"MultiSurface","lod":"1","boundaries":[[[0]],[]],"semantics":{"surfaces":[{"type":"a"},{"type":"b"}],"values":_}}"#,
        rows: OF_TWO_SURFACES,
    },
    Table {
        name: "entries of the values of surfaces",
        geometry: r#"{"type":"MultiSurface","lod":"1","boundaries":[[[0]],[]],"semantics":{"surfaces":[{"type":"a"},{"type":"b"}],"values":_}}"#,
        rows: ENTRIES,
    },
    Table {
        name: "values of a composite surface",
        geometry: r#"{"type":"CompositeSurface","lod":"1","boundaries":[[[0]],[]],"semantics":{"surfaces":[{"type":"a"},{"type":"b"}],"values":_}}"#,
        rows: OF_TWO_SURFACES,
    },
    Table {
        name: "entries of the values of a composite surface",
        geometry: r#"{"type":"CompositeSurface","lod":"1","boundaries":[[[0]],[]],"semantics":{"surfaces":[{"type":"a"},{"type":"b"}],"values":_}}"#,
        rows: ENTRIES,
    },
    Table {
        name: "no index names a surface of none",
        geometry: r#"{"type":"MultiSurface","lod":"1","boundaries":[[[0]]],"semantics":{"surfaces":[],"values":_}}"#,
        rows: r#"
        null as a whole | null | none
        null for the surface | [null] | none
        an index | [^0] | 27 semantics index out of range
        "#,
    },
    Table {
        name: "values of a solid",
        geometry: r#"{"type":"Solid","lod":"1","boundaries":[[[[0]],[]],[[]]],"semantics":{"surfaces":[{"type":"a"}],"values":_}}"#,
        rows: r#"
        null as a whole | null | none
        null for each shell | [null,null] | none
        null for surfaces | [[null,0],[null]] | none
        an index for each | [[0,0],[0]] | none
        a number | ^0 | 12 wrong kind
        a level less | [^0,0] | 12 wrong kind
        a text for a shell | [[0,0],^"0"] | 12 wrong kind
        an object for a shell | [null,^{}] | 12 wrong kind
        a level more | [[^[0],[0]],[[0]]] | 12 wrong kind
        an index equal to the count | [[0,0],[^1]] | 27 semantics index out of range
        "#,
    },
    Table {
        name: "lengths of the values of a solid",
        geometry: r#"{"type":"Solid","lod":"1","boundaries":[[[[0]],[]],[[]]],"semantics":{"surfaces":[{"type":"a"}],"values":_}}"#,
        rows: r#"
        no shell | ^[] | 26 semantics count
        a shell less | ^[[0,0]] | 26 semantics count
        a null less | ^[null] | 26 semantics count
        a shell more | ^[[0,0],[0],[]] | 26 semantics count
        a shell more and its values | ^[[0,0],[0],[9]] | 26 semantics count
        no surface | [^[],[0]] | 26 semantics count
        a surface less | [^[0],[0]] | 26 semantics count
        a surface more | [[0,0],^[0,0]] | 26 semantics count
        a surface more beside null | [null,^[null,null]] | 26 semantics count
        "#,
    },
    Table {
        name: "values of solids",
        geometry: r#"{"type":"MultiSolid","lod":"1","boundaries":[[[[[0]],[]]],[[[]],[]]],"semantics":{"surfaces":[{"type":"a"}],"values":_}}"#,
        rows: OF_TWO_SOLIDS,
    },
    Table {
        name: "lengths of the values of solids",
        geometry: r#"{"type":"MultiSolid","lod":"1","boundaries":[[[[[0]],[]]],[[[]],[]]],"semantics":{"surfaces":[{"type":"a"}],"values":_}}"#,
        rows: LENGTHS_OF_TWO_SOLIDS,
    },
    Table {
        name: "values of a composite solid",
        geometry: r#"{"type":"CompositeSolid","lod":"1","boundaries":[[[[[0]],[]]],[[[]],[]]],"semantics":{"surfaces":[{"type":"a"}],"values":_}}"#,
        rows: OF_TWO_SOLIDS,
    },
    Table {
        name: "lengths of the values of a composite solid",
        geometry: r#"{"type":"CompositeSolid","lod":"1","boundaries":[[[[[0]],[]]],[[[]],[]]],"semantics":{"surfaces":[{"type":"a"}],"values":_}}"#,
        rows: LENGTHS_OF_TWO_SOLIDS,
    },
    Table {
        name: "values beside boundaries that are no array",
        geometry: r#"{"type":"MultiSurface","lod":"1","semantics":{"surfaces":[{"type":"a"}],_}"#,
        rows: r#"
        any count | "values":[0,0]},"boundaries":^0 | 12 wrong kind
        a count of null | "values":[]},"boundaries":^null | 12 wrong kind
        any index | "values":[^1]},"boundaries":0 | 27 semantics index out of range
        any kind | "values":^0},"boundaries":{} | 12 wrong kind
        "#,
    },
    Table {
        name: "values beside no boundaries",
        geometry: r#"^{"type":"MultiSurface","lod":"1","semantics":{"surfaces":[],"values":_}}"#,
        rows: "none at all|[0,9]|10 member missing",
    },
    Table {
        name: "values beside parts that are no arrays",
        geometry: r#"{"type":"Solid","lod":"1","semantics":{"surfaces":[{"type":"a"}],_}"#,
        rows: r#"
        a number beside a shell | "values":[[0,0]]},"boundaries":[^0] | 12 wrong kind
        null beside a shell | "values":[[]]},"boundaries":[^null] | 12 wrong kind
        an index beside a number | "values":[[0,^1]]},"boundaries":[0] | 27 semantics index out of range
        a shell after a number | "values":[[0],^[0]]},"boundaries":[0,[]] | 26 semantics count
        a shell beside none | "values":^[[9]]},"boundaries":[] | 26 semantics count
        "#,
    },
];

#[test]
fn semantic_values(rt: HostRuntime) -> Result<(), Fail> {
    all_meet(&rt, rt.alloc(), ONE_VERTEX, &BESIDE_ONE_VERTEX)?;
    Ok(())
}
