//! Instances of templates.
use super::{A_TEMPLATE, Around, Given, ONE_VERTEX, Table, all_meet};
use std::test::Fail;

const TWO_TEMPLATES: Given = Given::List("[{},null]");

/// One vertex, and two templates.
const WITH_TEMPLATES: Around = Around {
    vertices: Some(1),
    templates: TWO_TEMPLATES,
};

/// One vertex, and a list of no templates.
const WITH_AN_EMPTY_LIST: Around = Around {
    vertices: Some(1),
    templates: Given::List("[]"),
};

/// Two templates, and an unknown number of vertices.
const WITH_UNKNOWN_VERTICES: Around = Around {
    vertices: None,
    templates: TWO_TEMPLATES,
};

const NO_TEMPLATES: &str = r#"
    the first | ^0 | 28 template index out of range
    minus 0 | ^-0 | 28 template index out of range
    a half | ^0.5 | 18 not a whole number
    "#;

const BESIDE_TEMPLATES: [Table; 8] = [
    Table {
        name: "instances need three members",
        geometry: "_",
        rows: r#"
        all three | {"type":"GeometryInstance","template":1,"boundaries":[0],"transformationMatrix":[1,0,0,0,0,1,0,0,0,0,1,0,0,0,0,1]} | none
        by escapes | {"typ\u0065":"GeometryInst\u0061nce","templ\u0061te":1,"bound\u0061ries":[0],"transform\u0061tionMatrix":[1,0,0,0,0,1,0,0,0,0,1,0,0,0,0,1]} | none
        none | ^{"type":"GeometryInstance"} | 10 member missing
        no template | ^{"type":"GeometryInstance","boundaries":[0],"transformationMatrix":[1,0,0,0,0,1,0,0,0,0,1,0,0,0,0,1]} | 10 member missing
        no boundaries | ^{"type":"GeometryInstance","template":0,"transformationMatrix":[1,0,0,0,0,1,0,0,0,0,1,0,0,0,0,1]} | 10 member missing
        no matrix | ^{"type":"GeometryInstance","template":0,"boundaries":[0]} | 10 member missing
        "#,
    },
    Table {
        name: "templates are indices",
        geometry: r#"{"type":"GeometryInstance","template":_,"boundaries":[0],"transformationMatrix":[1,0,0,0,0,1,0,0,0,0,1,0,0,0,0,1]}"#,
        rows: r#"
        the first | 0 | none
        the last | 1 | none
        other spellings | 10e-1 | none
        equal to the count | ^2 | 28 template index out of range
        above the count | ^3 | 28 template index out of range
        below 0 | ^-1 | 28 template index out of range
        a half | ^0.5 | 18 not a whole number
        10^18 | ^1e18 | 18 not a whole number
        37 digits | ^1111111111111111111111111111111111111 | 13 number out of range
        null | ^null | 12 wrong kind
        a text | ^"0" | 12 wrong kind
        an array | ^[0] | 12 wrong kind
        "#,
    },
    Table {
        name: "an instance has one vertex",
        geometry: r#"{"type":"GeometryInstance","template":0,"boundaries":_,"transformationMatrix":[1,0,0,0,0,1,0,0,0,0,1,0,0,0,0,1]}"#,
        rows: r#"
        one | [0] | none
        null | ^null | 12 wrong kind
        a number | ^0 | 12 wrong kind
        an object | ^{} | 12 wrong kind
        none | ^[] | 29 bad instance
        two | ^[0,0] | 29 bad instance
        two of no kind | ^[null,"0"] | 29 bad instance
        "#,
    },
    Table {
        name: "the vertex of an instance is an index",
        geometry: r#"{"type":"GeometryInstance","template":0,"boundaries":[_],"transformationMatrix":[1,0,0,0,0,1,0,0,0,0,1,0,0,0,0,1]}"#,
        rows: r#"
        another spelling | 0.0 | none
        equal to the count | ^1 | 25 vertex index out of range
        below 0 | ^-1 | 25 vertex index out of range
        a half | ^0.5 | 18 not a whole number
        10^18 | ^1e18 | 18 not a whole number
        37 digits | ^1111111111111111111111111111111111111 | 13 number out of range
        a text | ^"0" | 12 wrong kind
        an array | ^[0] | 12 wrong kind
        "#,
    },
    Table {
        name: "the matrix has 16 items",
        geometry: r#"{"type":"GeometryInstance","template":0,"boundaries":[0],"transformationMatrix":_}"#,
        rows: r#"
        null | ^null | 12 wrong kind
        a number | ^1 | 12 wrong kind
        an object | ^{} | 12 wrong kind
        none | ^[] | 29 bad instance
        15 | ^[0,0,0,0,0,0,0,0,0,0,0,0,0,0,0] | 29 bad instance
        16 | [0,0,0,0,0,0,0,0,0,0,0,0,0,0,0,0] | none
        17 | ^[0,0,0,0,0,0,0,0,0,0,0,0,0,0,0,0,0] | 29 bad instance
        four of four | ^[[1,0,0,0],[0,1,0,0],[0,0,1,0],[0,0,0,1]] | 29 bad instance
        "#,
    },
    Table {
        name: "the matrix has numbers",
        geometry: r#"{"type":"GeometryInstance","template":0,"boundaries":[0],"transformationMatrix":[_,0,0,0,0,1,0,0,0,0,1,0,0,0,0,1]}"#,
        rows: r#"
        a part | -0.5 | none
        10^18 | 1e18 | none
        the greatest power | 1e1000000 | none
        36 digits | 111111111111111111111111111111111111 | none
        37 digits | ^1111111111111111111111111111111111111 | 13 number out of range
        a greater power | ^1e1000001 | 13 number out of range
        null | ^null | 12 wrong kind
        a text | ^"1" | 12 wrong kind
        an array | ^[1] | 12 wrong kind
        "#,
    },
    Table {
        name: "the matrix ends with a number",
        geometry: r#"{"type":"GeometryInstance","template":0,"boundaries":[0],"transformationMatrix":[1,0,0,0,0,1,0,0,0,0,1,0,0,0,0,_]}"#,
        rows: r#"
        the last a text | ^"1" | 12 wrong kind
        the last out of range | ^1e-1000001 | 13 number out of range
        "#,
    },
    Table {
        name: "other members of an instance are not read",
        geometry: r#"{"type":"GeometryInstance","template":0,"boundaries":[0],"transformationMatrix":[1,0,0,0,0,1,0,0,0,0,1,0,0,0,0,1],_}"#,
        rows: r#"
        a level of detail | "lod":"1" | none
        one that is no text | "lod":1 | none
        semantics | "semantics":null | none
        semantics with doubled names | "semantics":{"a":1,"a":1} | none
        "#,
    },
];

const BESIDE_AN_EMPTY_LIST: [Table; 1] = [Table {
    name: "no index names a template of an empty list",
    geometry: r#"{"type":"GeometryInstance","template":_,"boundaries":[0],"transformationMatrix":[1,0,0,0,0,1,0,0,0,0,1,0,0,0,0,1]}"#,
    rows: NO_TEMPLATES,
}];

const BESIDE_ONE_VERTEX: [Table; 1] = [Table {
    name: "no index names a template of no list",
    geometry: r#"{"type":"GeometryInstance","template":_,"boundaries":[0],"transformationMatrix":[1,0,0,0,0,1,0,0,0,0,1,0,0,0,0,1]}"#,
    rows: NO_TEMPLATES,
}];

const BESIDE_UNKNOWN_VERTICES: [Table; 1] = [Table {
    name: "the vertex of an instance beside unknown ones",
    geometry: r#"{"type":"GeometryInstance","template":0,"boundaries":_,"transformationMatrix":[1,0,0,0,0,1,0,0,0,0,1,0,0,0,0,1]}"#,
    rows: r#"
        any index | [9] | none
        below 0 | [-1] | none
        a half | [^0.5] | 18 not a whole number
        two | ^[9,9] | 29 bad instance
        "#,
}];

const AS_TEMPLATES: [Table; 1] = [Table {
    name: "a template is no instance",
    geometry: "_",
    rows: r#"
        whole | {"type":^"GeometryInstance","template":0,"boundaries":[0],"transformationMatrix":[1,0,0,0,0,1,0,0,0,0,1,0,0,0,0,1]} | 29 bad instance
        no member | {"type":^"GeometryInstance"} | 29 bad instance
        by an escape | {"type":^"\u0047eometryInstance"} | 29 bad instance
        other members first | {"template":null,"boundaries":[],"transformationMatrix":0,"type":^"GeometryInstance"} | 29 bad instance
        a doubled name first | {"template":0,^"template":0,"type":"GeometryInstance"} | 11 duplicate name
        a doubled name after | {"type":^"GeometryInstance","template":0,"template":0} | 29 bad instance
        another type | {"type":"MultiPoint","lod":"1","boundaries":[0]} | none
        rules of another type | {"type":"MultiPoint","lod":"1","boundaries":[^1]} | 25 vertex index out of range
        "#,
}];

#[test]
fn instances_of_templates(rt: HostRuntime) -> Result<(), Fail> {
    all_meet(&rt, rt.alloc(), WITH_TEMPLATES, &BESIDE_TEMPLATES)?;
    all_meet(&rt, rt.alloc(), WITH_AN_EMPTY_LIST, &BESIDE_AN_EMPTY_LIST)?;
    all_meet(&rt, rt.alloc(), ONE_VERTEX, &BESIDE_ONE_VERTEX)?;
    all_meet(
        &rt,
        rt.alloc(),
        WITH_UNKNOWN_VERTICES,
        &BESIDE_UNKNOWN_VERTICES,
    )?;
    all_meet(&rt, rt.alloc(), A_TEMPLATE, &AS_TEMPLATES)?;
    Ok(())
}
