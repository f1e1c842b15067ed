//! The names in the objects that rules read are distinct.
use super::{A_TEMPLATE, ONE_VERTEX, Table, all_meet, meets, push_member};
use std::alloc::{AllocError, Global};
use std::process::Abort;
use std::test::Fail;

/// Returns this number of members, with numbers as names, and a comma after each.
fn members(alloc: Global, count: u32) -> Result<String, AllocError> {
    let mut text = String::new(alloc);
    for number in 0..count {
        push_member(alloc, &mut text, "", number)?;
    }
    Ok(text)
}

/// Checks that a geometry with this number of further names has the findings that the rows expect.
/// The cell of a row comes after the names.
fn meets_behind(rt: &impl Abort, alloc: Global, count: u32, rows: &str) -> Result<(), AllocError> {
    let members = members(alloc, count)?;
    let front = r#"{"type":"MultiPoint","lod":"1","boundaries":[0],"#;
    let geometry = format!(in alloc; "{front}{members}_}}")?;
    let table = Table {
        name: "names behind many",
        geometry: &geometry,
        rows,
    };
    meets(rt, alloc, ONE_VERTEX, &table)
}

const BESIDE_ONE_VERTEX: [Table; 6] = [
    Table {
        name: "names of a geometry are distinct",
        geometry: r#"{"type":"MultiPoint","lod":"1","boundaries":[0],_}"#,
        rows: r#"
        another name | "Type":1 | none
        a type | ^"type":"MultiPoint" | 11 duplicate name
        a type by an escape | ^"\u0074ype":"MultiPoint" | 11 duplicate name
        a level of detail | ^"lod":"1" | 11 duplicate name
        boundaries | ^"boundaries":[0] | 11 duplicate name
        boundaries of another kind | ^"boundaries":3 | 11 duplicate name
        a name that is not read | "a":1,^"a":1 | 11 duplicate name
        with another between | "a":1,"b":2,^"\u0061":3 | 11 duplicate name
        the second of three | "a":1,^"a":2,"a":3 | 11 duplicate name
        the empty name | "":1,^"":1 | 11 duplicate name
        a name of two bytes | "é":1,^"\u00E9":1 | 11 duplicate name
        a name that begins like another | "texture":1 | none
        a name that begins 64 code points later | "´":1 | none
        that name again | "´":1,^"´":1 | 11 duplicate name
        names that begin like each other | "ab":1,"ac":2,^"ab":3 | 11 duplicate name
        a name that begins 32 code points earlier | "Type":1,^"\u0054ype":2 | 11 duplicate name
        "#,
    },
    Table {
        name: "the first member of a name is read",
        geometry: "_",
        rows: r#"
        the first level of detail | {"type":"MultiPoint","lod":^1,"boundaries":[0],"lod":"1"} | 12 wrong kind
        not the second | {"type":"MultiPoint","lod":"1",^"lod":1,"boundaries":[0]} | 11 duplicate name
        the first boundaries | {"type":"MultiPoint","lod":"1","boundaries":[^1],"boundaries":[0]} | 25 vertex index out of range
        the first type | {"type":"Solid","lod":"1","boundaries":[^0],"type":"MultiPoint"} | 12 wrong kind
        the first type by an escape | {"typ\u0065":"Solid","lod":"1","boundaries":[^0],"type":"MultiPoint"} | 12 wrong kind
        a level of detail behind a name that begins like it | {"land":1,"type":"MultiPoint","lod":^1,"boundaries":[0]} | 12 wrong kind
        the first of two behind such a name | {"Lod":"1","type":"MultiPoint","\u006Cod":^1,"boundaries":[0],"lod":"1"} | 12 wrong kind
        "#,
    },
    Table {
        name: "names are distinct whatever the type",
        geometry: r#"{"a":1,^"a":2,"lod":"1","boundaries":[0],"template":0,"transformationMatrix":[1,0,0,0,0,1,0,0,0,0,1,0,0,0,0,1],"type":_}"#,
        rows: r#"
        an instance | "GeometryInstance" | 11 duplicate name
        an unknown type | "Cone" | 11 duplicate name
        a type that is no text | 3 | 11 duplicate name
        a type of a depth | "Solid" | 11 duplicate name
        "#,
    },
    Table {
        name: "names of semantics are distinct",
        geometry: r#"{"type":"Solid","lod":"1","boundaries":[],"semantics":{"surfaces":[],"values":[],_}}"#,
        rows: r#"
        another name | "a":1 | none
        surfaces | ^"surfaces":[] | 11 duplicate name
        values | ^"values":3 | 11 duplicate name
        values by an escape | ^"\u0076alues":null | 11 duplicate name
        a name that is not read | "a":1,"b":1,^"a":1 | 11 duplicate name
        "#,
    },
    Table {
        name: "names of a surface are distinct",
        geometry: r#"{"type":"Solid","lod":"1","boundaries":[],"semantics":{"surfaces":[{"type":"a"},_],"values":[]}}"#,
        rows: r#"
        another surface | {"type":"a","a":1} | none
        a type | {"type":"a",^"type":"a"} | 11 duplicate name
        a type by an escape | {"type":"a",^"\u0074\u0079pe":3} | 11 duplicate name
        a name that is not read | {"a":1,^"a":1,"type":"a"} | 11 duplicate name
        "#,
    },
    Table {
        name: "objects that no rule reads may double names",
        geometry: "_",
        rows: r#"
        in a geometry | {"type":"MultiPoint","lod":"1","boundaries":[0],"material":{"a":1,"a":[{"b":1,"b":1}]}} | none
        in semantics | {"type":"Solid","lod":"1","boundaries":[],"semantics":{"surfaces":[],"values":[],"x":{"a":1,"a":1}}} | none
        in a surface | {"type":"Solid","lod":"1","boundaries":[],"semantics":{"surfaces":[{"type":"a","x":{"a":1,"a":1}}],"values":[]}} | none
        in semantics that are not read | {"type":"MultiPoint","lod":"1","boundaries":[0],"semantics":{"a":1,"a":1}} | none
        "#,
    },
];

const AS_TEMPLATES: [Table; 1] = [Table {
    name: "names of a template are distinct whatever the type",
    geometry: r#"{"a":1,^"a":2,"lod":"1","boundaries":[],"type":_}"#,
    rows: r#"
        an instance | "GeometryInstance" | 11 duplicate name
        an unknown type | "Cone" | 11 duplicate name
        a type that is no text | 3 | 11 duplicate name
        a type of a depth | "Solid" | 11 duplicate name
        "#,
}];

#[test]
fn distinct_names(rt: HostRuntime) -> Result<(), Fail> {
    all_meet(&rt, rt.alloc(), ONE_VERTEX, &BESIDE_ONE_VERTEX)?;
    all_meet(&rt, rt.alloc(), A_TEMPLATE, &AS_TEMPLATES)?;
    Ok(())
}

#[test]
fn many_names_are_distinct(rt: HostRuntime) -> Result<(), Fail> {
    let rows = r#"
        another name | "a":1 | none
        the first name | ^"0":1 | 11 duplicate name
        a name by an escape | ^"\u00357":1 | 11 duplicate name
        a type by an escape | ^"t\u0079pe":1 | 11 duplicate name
        "#;
    meets_behind(&rt, rt.alloc(), 60, rows)?;
    Ok(())
}

#[test]
fn names_of_several_blocks_are_distinct(rt: HostRuntime) -> Result<(), Fail> {
    let rows = r#"
        another name | "a":1 | none
        a name of the first block by an escape | ^"\u0033":1 | 11 duplicate name
        a name of the last block | ^"8999":1 | 11 duplicate name
        "#;
    meets_behind(&rt, rt.alloc(), 9_000, rows)?;
    Ok(())
}
