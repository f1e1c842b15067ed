//! Worked lines, with places that are counted in the lines.
use super::{HEADER, Judged, Table, all_meet};
use std::test::Fail;

const HEADERS: [Table; 1] = [Table {
    name: "first lines",
    pattern: r#"_"#,
    rows: r#"
        a header | {"type":"CityJSON","version":"2.0","transform":{"scale":[0.001,0.001,0.001],"translate":[1000.0,2000.0,0.0]},"CityObjects":{},"vertices":[]} | none
        another version | {"type":"CityJSON","version":"1.1","transform":{"scale":[0.001,0.001,0.001],"translate":[1000.0,2000.0,0.0]},"CityObjects":{},"vertices":[]} | 29 15 wrong version
        a feature | {"type":"CityJSONFeature","id":"b1","CityObjects":{"b1":{"type":"Building"}},"vertices":[]} | 0 10 member missing
        a translation of a small power | {"type":"CityJSON","version":"2.0","transform":{"scale":[0.001,0.001,0.001],"translate":[1e-19,2000.0,0.0]},"CityObjects":{},"vertices":[]} | none
        "#,
}];

const FEATURES: [Table; 3] = [
    Table {
        name: "a building",
        pattern: r#"_"#,
        rows: r#"
        as it is | {"type":"CityJSONFeature","id":"b1","CityObjects":{"b1":{"type":"Building","geometry":[{"type":"MultiSurface","lod":"2.2","boundaries":[[[0,1,2,3]]]}]}},"vertices":[[0,0,0],[1000,0,0],[1000,1000,0],[0,1000,0]]} | none
        a number for a level of detail, and an index past the vertices | {"type":"CityJSONFeature","id":"b1","CityObjects":{"b1":{"type":"Building","geometry":[{"type":"MultiSurface","lod":2.2,"boundaries":[[[0,1,2,4]]]}]}},"vertices":[[0,0,0],[1000,0,0],[1000,1000,0],[0,1000,0]]} | 116 12 wrong kind
        an index past the vertices | {"type":"CityJSONFeature","id":"b1","CityObjects":{"b1":{"type":"Building","geometry":[{"type":"MultiSurface","lod":"2.2","boundaries":[[[0,1,2,4]]]}]}},"vertices":[[0,0,0],[1000,0,0],[1000,1000,0],[0,1000,0]]} | 144 25 vertex index out of range
        an index below 0 | {"type":"CityJSONFeature","id":"b1","CityObjects":{"b1":{"type":"Building","geometry":[{"type":"MultiSurface","lod":"2.2","boundaries":[[[0,1,2,-1]]]}]}},"vertices":[[0,0,0],[1000,0,0],[1000,1000,0],[0,1000,0]]} | 144 25 vertex index out of range
        an index and a half | {"type":"CityJSONFeature","id":"b1","CityObjects":{"b1":{"type":"Building","geometry":[{"type":"MultiSurface","lod":"2.2","boundaries":[[[0,1,2,1.5]]]}]}},"vertices":[[0,0,0],[1000,0,0],[1000,1000,0],[0,1000,0]]} | 144 18 not a whole number
        an index too great | {"type":"CityJSONFeature","id":"b1","CityObjects":{"b1":{"type":"Building","geometry":[{"type":"MultiSurface","lod":"2.2","boundaries":[[[0,1,2,1e18]]]}]}},"vertices":[[0,0,0],[1000,0,0],[1000,1000,0],[0,1000,0]]} | 144 18 not a whole number
        an index of 37 digits | {"type":"CityJSONFeature","id":"b1","CityObjects":{"b1":{"type":"Building","geometry":[{"type":"MultiSurface","lod":"2.2","boundaries":[[[0,1,2,1111111111111111111111111111111111111]]]}]}},"vertices":[[0,0,0],[1000,0,0],[1000,1000,0],[0,1000,0]]} | 144 13 number out of range
        other spellings of 3 | {"type":"CityJSONFeature","id":"b1","CityObjects":{"b1":{"type":"Building","geometry":[{"type":"MultiSurface","lod":"2.2","boundaries":[[[0,1,2,3.0]]]}]}},"vertices":[[0,0,0],[1000,0,0],[1000,1000,0],[0,1000,0]]} | none
        3 with an exponent | {"type":"CityJSONFeature","id":"b1","CityObjects":{"b1":{"type":"Building","geometry":[{"type":"MultiSurface","lod":"2.2","boundaries":[[[0,1,2,3e0]]]}]}},"vertices":[[0,0,0],[1000,0,0],[1000,1000,0],[0,1000,0]]} | none
        minus 0 | {"type":"CityJSONFeature","id":"b1","CityObjects":{"b1":{"type":"Building","geometry":[{"type":"MultiSurface","lod":"2.2","boundaries":[[[0,1,2,-0]]]}]}},"vertices":[[0,0,0],[1000,0,0],[1000,1000,0],[0,1000,0]]} | none
        boundaries before the level of detail | {"type":"CityJSONFeature","id":"b1","CityObjects":{"b1":{"type":"Building","geometry":[{"type":"MultiSurface","boundaries":[[[0,1,2,4]]],"lod":2.2}]}},"vertices":[[0,0,0],[1000,0,0],[1000,1000,0],[0,1000,0]]} | 132 25 vertex index out of range
        no level of detail | {"type":"CityJSONFeature","id":"b1","CityObjects":{"b1":{"type":"Building","geometry":[{"type":"MultiSurface","boundaries":[[[0,1,2,4]]]}]}},"vertices":[[0,0,0],[1000,0,0],[1000,1000,0],[0,1000,0]]} | 87 10 member missing
        "#,
    },
    Table {
        name: "city objects",
        pattern: r#"{"type":"CityJSONFeature","id":"b","CityObjects":{_},"vertices":[]}"#,
        rows: r#"
        a part that its parent does not list | "b":{"type":"Building"},"p":{"type":"BuildingPart","parents":["b"]} | 112 22 link not mutual
        a child that is not there | "b":{"type":"Building","children":["q"]} | 85 21 child not found
        a child that does not list its parent | "b":{"type":"Building","children":["p"]},"p":{"type":"Building"} | 85 22 link not mutual
        a parent that is not there | "b":{"type":"Building","parents":["g"]} | none
        a group | "b":{"type":"CityObjectGroup","children":["q"]} | none
        a part of what is not there | "b":{"type":"BuildingPart","parents":["g"]} | 54 23 no parent in the feature
        a part without parents | "b":{"type":"BuildingPart"} | 54 10 member missing
        the same name twice | "b":{"type":"Building"},"\u0062":{"type":"Building"} | 74 11 duplicate name
        names of a member that is not read | "b":{"type":"Building","attributes":{"a":1,"a":2}} | none
        an id that begins with a plus | "b":{"type":"Building"},"+x":{"type":"Shed"} | 87 19 unknown object type
        a member that begins with a plus | "b":{"type":"Building","+x":{"type":"Shed"}} | none
        "#,
    },
    Table {
        name: "semantic values",
        pattern: r#"{"type":"CityJSONFeature","id":"b","CityObjects":{"b":{"type":"Building","geometry":[{"type":"Solid","lod":"1","boundaries":[[[[0,1,2]],[[0,2,1]]]],"semantics":{"surfaces":[{"type":"RoofSurface"}],"values":_}}]}},"vertices":[[0,0,0],[1,0,0],[0,1,0]]}"#,
        rows: r#"
        null | null | none
        null for the shell | [null] | none
        null for a surface | [[0,null]] | none
        no shell | [] | 206 26 semantics count
        a surface fewer | [[0]] | 207 26 semantics count
        past the surfaces | [[0,1]] | 210 27 semantics index out of range
        "#,
    },
];

#[test]
fn worked_lines(rt: HostRuntime) -> Result<(), Fail> {
    all_meet(&rt, rt.alloc(), Judged::Header, &HEADERS)?;
    all_meet(&rt, rt.alloc(), Judged::Feature(HEADER), &FEATURES)?;
    Ok(())
}
