//! Two rules broken at once. The least finding by byte is reported, in any order of the checks.
use super::{HEADER, Judged, Table, all_meet};
use std::test::Fail;

const HEADERS: [Table; 1] = [Table {
    name: "members of a header in either order",
    pattern: r#"_"#,
    rows: r#"
        a type, then a version | {"type":^"a","version":"a","transform":{"scale":[1,1,1],"translate":[0,0,0]},"CityObjects":{},"vertices":[]} | 14 wrong type
        a version, then a type | {"version":^"a","type":"a","transform":{"scale":[1,1,1],"translate":[0,0,0]},"CityObjects":{},"vertices":[]} | 15 wrong version
        vertices, then city objects | {"type":"CityJSON","version":"2.0","transform":{"scale":[1,1,1],"translate":[0,0,0]},"vertices":^[0],"CityObjects":{"b":0}} | 16 not empty
        templates, then a transform | {"type":"CityJSON","version":"2.0","geometry-templates":^0,"transform":0,"CityObjects":{},"vertices":[]} | 12 wrong kind
        a transform, then templates | {"type":"CityJSON","version":"2.0","transform":^0,"geometry-templates":0,"CityObjects":{},"vertices":[]} | 12 wrong kind
        a translation, then a scale | {"type":"CityJSON","version":"2.0","transform":{"translate":^0,"scale":[]},"CityObjects":{},"vertices":[]} | 12 wrong kind
        a member missing, then a wrong one | ^{"type":"a","transform":{"scale":[1,1,1],"translate":[0,0,0]},"CityObjects":{},"vertices":[]} | 10 member missing
        vertices of templates, then templates | {"type":"CityJSON","version":"2.0","transform":{"scale":[1,1,1],"translate":[0,0,0]},"CityObjects":{},"vertices":[],"geometry-templates":{"vertices-templates":[^0],"templates":[0]}} | 12 wrong kind
        "#,
}];

const FEATURES: [Table; 1] = [Table {
    name: "members of a feature in either order",
    pattern: r#"_"#,
    rows: r#"
        a type, then an id | {"type":^"a","id":"a","CityObjects":{"b":{"type":"Building"}},"vertices":[]} | 14 wrong type
        an id, then a type | {"id":^"a","type":"a","CityObjects":{"b":{"type":"Building"}},"vertices":[]} | 20 id not among the city objects
        vertices, then a city object | {"type":"CityJSONFeature","id":"b","vertices":[^0],"CityObjects":{"b":0}} | 12 wrong kind
        a city object, then vertices | {"type":"CityJSONFeature","id":"b","CityObjects":{"b":^0},"vertices":[0]} | 12 wrong kind
        a city object, then an id | {"type":"CityJSONFeature","CityObjects":{"b":{"type":^"a"}},"id":"a","vertices":[]} | 19 unknown object type
        links, then a type | {"type":"CityJSONFeature","id":"b","CityObjects":{"b":{"children":[^"q"],"type":"a"}},"vertices":[]} | 21 child not found
        a type, then links | {"type":"CityJSONFeature","id":"b","CityObjects":{"b":{"type":^"a","children":["q"]}},"vertices":[]} | 19 unknown object type
        links, then vertices | {"type":"CityJSONFeature","id":"b","CityObjects":{"b":{"type":"Building","children":[^"q"]}},"vertices":[0]} | 21 child not found
        vertices, then links | {"type":"CityJSONFeature","id":"b","vertices":[^0],"CityObjects":{"b":{"type":"Building","children":["q"]}}} | 12 wrong kind
        a parent, then a child | {"type":"CityJSONFeature","id":"b","CityObjects":{"b":{"type":"Building","parents":[^"b"],"children":["q"]}},"vertices":[]} | 22 link not mutual
        a child, then a parent | {"type":"CityJSONFeature","id":"b","CityObjects":{"b":{"type":"Building","children":[^"q"],"parents":["b"]}},"vertices":[]} | 21 child not found
        a part, then its parent that is no text | {"type":"CityJSONFeature","id":"b","CityObjects":{"b":^{"type":"BuildingPart","parents":[3]}},"vertices":[]} | 23 no parent in the feature
        a doubled name, then a geometry | {"type":"CityJSONFeature","id":"b","CityObjects":{"b":{"type":"Building",^"type":"Building","geometry":0}},"vertices":[]} | 11 duplicate name
        a geometry, then a doubled name | {"type":"CityJSONFeature","id":"b","CityObjects":{"b":{"type":"Building","geometry":^0,"type":"Building"}},"vertices":[]} | 12 wrong kind
        "#,
}];

#[test]
fn two_rules_at_once(rt: HostRuntime) -> Result<(), Fail> {
    all_meet(&rt, rt.alloc(), Judged::Header, &HEADERS)?;
    all_meet(&rt, rt.alloc(), Judged::Feature(HEADER), &FEATURES)?;
    Ok(())
}
