//! Templates of a header, rule by rule, and instances that name them.
use super::{HEADER, Judged, Table, all_meet};
use std::test::Fail;

/// A header with one template.
pub const TEMPLATES: &str =
    r#"{"type":"CityJSON","version":"2.0","transform":{"scale":[0.001,0.001,0.001],"translate":[1000.0,2000.0,0.0]},"CityObjects":{},"vertices":[],"geometry-templates":{"templates":[{"type":"MultiSurface","lod":"1","boundaries":[[[0,1,2]]]}],"vertices-templates":[[0.0,0.0,0.0],[1.0,0.0,0.0],[0.0,1.0,0.0]]}}"#;

const HEADERS: [Table; 4] = [
    Table {
        name: "objects of templates",
        pattern: r#"{"type":"CityJSON","version":"2.0","transform":{"scale":[1,1,1],"translate":[0,0,0]},"CityObjects":{},"vertices":[],"geometry-templates":_}"#,
        rows: r#"
        no templates | {"templates":[],"vertices-templates":[]} | none
        a template | {"templates":[{"type":"MultiPoint","lod":"1","boundaries":[0]}],"vertices-templates":[[0,0.5,-1e3]]} | none
        members in the other order | {"vertices-templates":[[0,0,0]],"templates":[{"type":"MultiPoint","lod":"1","boundaries":[0]}]} | none
        an index beside no vertices | {"templates":[{"type":"MultiPoint","lod":"1","boundaries":[^0]}],"vertices-templates":[]} | 25 vertex index out of range
        no index beside no vertices | {"templates":[{"type":"MultiPoint","lod":"1","boundaries":[]}],"vertices-templates":[]} | none
        null | ^null | 12 wrong kind
        an array | ^[] | 12 wrong kind
        no members | ^{} | 10 member missing
        no templates but vertices | ^{"vertices-templates":[]} | 10 member missing
        templates without vertices | ^{"templates":[]} | 10 member missing
        an object of templates | {"templates":^{},"vertices-templates":[]} | 12 wrong kind
        null for vertices | {"templates":[],"vertices-templates":^null} | 12 wrong kind
        two of one name | {"templates":[],"vertices-templates":[],^"templates":[]} | 11 duplicate name
        "#,
    },
    Table {
        name: "vertices of templates",
        pattern: r#"{"type":"CityJSON","version":"2.0","transform":{"scale":[1,1,1],"translate":[0,0,0]},"CityObjects":{},"vertices":[],"geometry-templates":{"templates":[],"vertices-templates":_}}"#,
        rows: r#"
        numbers that are not whole | [[0.5,1e-3,-2]] | none
        a number | [^3] | 12 wrong kind
        two numbers | [[0,0,0],^[0,0]] | 17 not three items
        a text | [[0,^"0",0]] | 12 wrong kind
        37 digits | [[0,0,^1111111111111111111111111111111111111]] | 13 number out of range
        "#,
    },
    Table {
        name: "lists of templates",
        pattern: r#"{"type":"CityJSON","version":"2.0","transform":{"scale":[1,1,1],"translate":[0,0,0]},"CityObjects":{},"vertices":[],"geometry-templates":{"templates":_,"vertices-templates":[[0,0,0]]}}"#,
        rows: r#"
        a point | [{"type":"MultiPoint","lod":"1","boundaries":[0]}] | none
        a number | [^3] | 12 wrong kind
        an index past the vertices | [{"type":"MultiPoint","lod":"1","boundaries":[^1]}] | 25 vertex index out of range
        an unknown type | [{"type":^"Cone"}] | 24 unknown geometry type
        an instance | [{"type":^"GeometryInstance"}] | 29 bad instance
        an instance with a fault in what is not read | [{"type":^"GeometryInstance","template":"a"}] | 29 bad instance
        an instance of doubled names | [{"a":1,^"a":1,"type":"GeometryInstance"}] | 11 duplicate name
        the second of two | [{"type":"MultiPoint","lod":"1","boundaries":[0]},^{}] | 10 member missing
        "#,
    },
    Table {
        name: "indices beside vertices that are no array",
        pattern: r#"_"#,
        rows: r#"
        the vertices alone | {"type":"CityJSON","version":"2.0","transform":{"scale":[1,1,1],"translate":[0,0,0]},"CityObjects":{},"vertices":[],"geometry-templates":{"vertices-templates":^{},"templates":[{"type":"MultiPoint","lod":"1","boundaries":[9]}]}} | 12 wrong kind
        "#,
    },
];

const FEATURES_WITH_TEMPLATES: [Table; 1] = [Table {
    name: "instances",
    pattern: r#"{"type":"CityJSONFeature","id":"b","CityObjects":{"b":{"type":"SolitaryVegetationObject","geometry":[{"type":"GeometryInstance","template":_,"boundaries":[0],"transformationMatrix":[1,0,0,0,0,1,0,0,0,0,1,0,0,0,0,1]}]}},"vertices":[[0,0,0]]}"#,
    rows: r#"
        the first template | 0 | none
        past the templates | ^1 | 28 template index out of range
        below 0 | ^-1 | 28 template index out of range
        a half | ^0.5 | 18 not a whole number
        a text | ^"0" | 12 wrong kind
        "#,
}];

const FEATURES: [Table; 1] = [Table {
    name: "instances of no templates",
    pattern: r#"{"type":"CityJSONFeature","id":"b","CityObjects":{"b":{"type":"SolitaryVegetationObject","geometry":[{"type":"GeometryInstance","template":_,"boundaries":[0],"transformationMatrix":[1,0,0,0,0,1,0,0,0,0,1,0,0,0,0,1]}]}},"vertices":[[0,0,0]]}"#,
    rows: r#"
        the first template | ^0 | 28 template index out of range
        "#,
}];

#[test]
fn templates_and_their_instances(rt: HostRuntime) -> Result<(), Fail> {
    all_meet(&rt, rt.alloc(), Judged::Header, &HEADERS)?;
    all_meet(
        &rt,
        rt.alloc(),
        Judged::Feature(TEMPLATES),
        &FEATURES_WITH_TEMPLATES,
    )?;
    all_meet(&rt, rt.alloc(), Judged::Feature(HEADER), &FEATURES)?;
    Ok(())
}
