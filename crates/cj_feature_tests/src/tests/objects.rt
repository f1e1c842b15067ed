//! Features, rule by rule, except for links.
use super::{HEADER, Judged, Table, all_meet};
use std::test::Fail;

const FEATURES: [Table; 10] = [
    Table {
        name: "roots of features",
        pattern: r#"_"#,
        rows: r#"
        an object of all members | {"type":"CityJSONFeature","id":"b","CityObjects":{"b":{"type":"Building"}},"vertices":[]} | none
        a number | ^3 | 12 wrong kind
        no city object at all | {"type":"CityJSONFeature","id":^"b","CityObjects":{},"vertices":[]} | 20 id not among the city objects
        an array of a feature | ^[{"type":"CityJSONFeature","id":"b","CityObjects":{"b":{"type":"Building"}},"vertices":[]}] | 12 wrong kind
        no members | ^{} | 10 member missing
        a header | ^{"type":"CityJSON","version":"2.0","transform":{"scale":[1,1,1],"translate":[0,0,0]},"CityObjects":{},"vertices":[]} | 10 member missing
        no type | ^{"id":"b","CityObjects":{"b":{"type":"Building"}},"vertices":[]} | 10 member missing
        no id | ^{"type":"CityJSONFeature","CityObjects":{"b":{"type":"Building"}},"vertices":[]} | 10 member missing
        no city objects | ^{"type":"CityJSONFeature","id":"b","vertices":[]} | 10 member missing
        no vertices | ^{"type":"CityJSONFeature","id":"b","CityObjects":{"b":{"type":"Building"}}} | 10 member missing
        "#,
    },
    Table {
        name: "types of features",
        pattern: r#"{"type":_,"id":"b","CityObjects":{"b":{"type":"Building"}},"vertices":[]}"#,
        rows: r#"
        the type | "CityJSONFeature" | none
        by an escape | "CityJSON\u0046eature" | none
        that of a header | ^"CityJSON" | 14 wrong type
        a letter more | ^"CityJSONFeatures" | 14 wrong type
        a number | ^1 | 12 wrong kind
        "#,
    },
    Table {
        name: "ids",
        pattern: r#"{"type":"CityJSONFeature","id":_,"CityObjects":{"b":{"type":"Building"}},"vertices":[]}"#,
        rows: r#"
        the name of a city object | "b" | none
        the same by an escape | "\u0062" | none
        another name | ^"c" | 20 id not among the city objects
        the empty text | ^"" | 20 id not among the city objects
        a letter more | ^"bb" | 20 id not among the city objects
        a number | ^3 | 12 wrong kind
        null | ^null | 12 wrong kind
        "#,
    },
    Table {
        name: "ids beside other names",
        pattern: r#"{"type":"CityJSONFeature","id":"b",_,"vertices":[]}"#,
        rows: r#"
        the second of two | "CityObjects":{"a":{"type":"Road"},"b":{"type":"Road"}} | none
        a name by an escape | "CityObjects":{"\u0062":{"type":"Road"}} | none
        a name whose value is no object | "CityObjects":{"b":^3} | 12 wrong kind
        city objects that are no object | "CityObjects":^[] | 12 wrong kind
        null for city objects | "CityObjects":^null | 12 wrong kind
        "#,
    },
    Table {
        name: "values of city objects",
        pattern: r#"{"type":"CityJSONFeature","id":"b","CityObjects":{"b":_},"vertices":[]}"#,
        rows: r#"
        a city object | {"type":"Road"} | none
        a number | ^3 | 12 wrong kind
        null | ^null | 12 wrong kind
        an array | ^[] | 12 wrong kind
        no type | ^{} | 10 member missing
        an unknown type | {"type":^"Shed"} | 19 unknown object type
        a type of an extension | {"type":^"+Shed"} | 19 unknown object type
        a small letter | {"type":^"road"} | 19 unknown object type
        a type by an escape | {"type":"\u0052oad"} | none
        a type that is a number | {"type":^3} | 12 wrong kind
        null for a type | {"type":^null} | 12 wrong kind
        doubled names | {"type":"Road",^"type":"Road"} | 11 duplicate name
        doubled names of a member that is not read | {"type":"Road","attributes":{"a":1,"a":2}} | none
        "#,
    },
    Table {
        name: "members of city objects",
        pattern: r#"{"type":"CityJSONFeature","id":"b","CityObjects":{"b":{"type":"Building",_}},"vertices":[]}"#,
        rows: r#"
        no geometries | "geometry":[] | none
        an object of geometries | "geometry":^{} | 12 wrong kind
        one behind a name that begins like it | "geographicalExtent":[0,0,0,0,0,0],"geometry":^{} | 12 wrong kind
        null for geometries | "geometry":^null | 12 wrong kind
        a geometry that is a number | "geometry":[^3] | 12 wrong kind
        a geometry of no type | "geometry":[^{}] | 10 member missing
        an index where there are no vertices | "geometry":[{"type":"MultiPoint","lod":"1","boundaries":[^0]}] | 25 vertex index out of range
        the second geometry | "geometry":[{"type":"MultiPoint","lod":"1","boundaries":[]},{"type":^"Cone"}] | 24 unknown geometry type
        no children | "children":[] | none
        null for children | "children":^null | 12 wrong kind
        an object of children | "children":^{} | 12 wrong kind
        a child that is a number | "children":[^3] | 12 wrong kind
        a child that is an array | "children":[^["b"]] | 12 wrong kind
        no parents | "parents":[] | none
        null for parents | "parents":^null | 12 wrong kind
        a parent that is a number | "parents":["q",^3] | 12 wrong kind
        roles of children that are not read | "children_roles":3 | none
        "#,
    },
    Table {
        name: "vertices",
        pattern: r#"{"type":"CityJSONFeature","id":"b","CityObjects":{"b":{"type":"Building"}},"vertices":_}"#,
        rows: r#"
        whole numbers | [[0,-1,999999999999999999],[3.0,3e0,-0]] | none
        an object | ^{} | 12 wrong kind
        null | ^null | 12 wrong kind
        a number | [[0,0,0],^0] | 12 wrong kind
        two numbers | [^[0,0]] | 17 not three items
        four numbers | [^[0,0,0,0]] | 17 not three items
        a text | [[0,^"0",0]] | 12 wrong kind
        a half | [[0,0,^0.5]] | 18 not a whole number
        a number too great | [[^1e18,0,0]] | 18 not a whole number
        37 digits | [[0,^1111111111111111111111111111111111111,0]] | 13 number out of range
        two numbers, of which one is a text | [^["0",0]] | 17 not three items
        "#,
    },
    Table {
        name: "indices of vertices",
        pattern: r#"{"type":"CityJSONFeature","id":"b","CityObjects":{"b":{"type":"Building","geometry":[{"type":"MultiPoint","lod":"1","boundaries":[_]}]}},"vertices":[[0,0,0],[1,1,1]]}"#,
        rows: r#"
        the last vertex | 0,1 | none
        past the last | 0,^2 | 25 vertex index out of range
        below 0 | ^-1 | 25 vertex index out of range
        "#,
    },
    Table {
        name: "indices beside vertices that are no array",
        pattern: r#"{"type":"CityJSONFeature","id":"b","CityObjects":{"b":{"type":"Building","geometry":[{"type":"MultiPoint","lod":"1","boundaries":[_]}]}},"vertices":{}}"#,
        rows: r#"
        any index | 9 | 148 12 wrong kind
        a half | ^0.5 | 18 not a whole number
        "#,
    },
    Table {
        name: "names of a feature are distinct",
        pattern: r#"{"type":"CityJSONFeature","id":"b","CityObjects":{"b":{"type":"Building"}},"vertices":[],_}"#,
        rows: r#"
        another member | "a":{"b":1,"b":2} | none
        a type | ^"type":"CityJSONFeature" | 11 duplicate name
        an id by an escape | ^"\u0069d":"b" | 11 duplicate name
        "#,
    },
];

#[test]
fn features_rule_by_rule(rt: HostRuntime) -> Result<(), Fail> {
    all_meet(&rt, rt.alloc(), Judged::Feature(HEADER), &FEATURES)?;
    Ok(())
}

const EXTENDED: [Table; 3] = [
    Table {
        name: "types with those of extensions",
        pattern: r#"{"type":"CityJSONFeature","id":"b","CityObjects":{"b":{"type":_}},"vertices":[]}"#,
        rows: r#"
        a type of the table | "Road" | none
        a type of an extension | "+Shed" | none
        one that is named as a type of the table | "+Road" | none
        its sign by an escape | "\u002BShed" | none
        nothing but the sign | "+" | none
        the sign at the end | ^"Shed+" | 19 unknown object type
        a space before the sign | ^" +Shed" | 19 unknown object type
        a sign that is spelled out | ^"\\u002BShed" | 19 unknown object type
        an unknown type | ^"Shed" | 19 unknown object type
        the empty text | ^"" | 19 unknown object type
        a number | ^3 | 12 wrong kind
        an array | ^["+Shed"] | 12 wrong kind
        "#,
    },
    Table {
        name: "members of a city object of an extension",
        pattern: r#"{"type":"CityJSONFeature","id":"b","CityObjects":{"b":{"type":"+Shed",_}},"vertices":[]}"#,
        rows: r#"
        no parents | "attributes":{} | none
        a parent that is not in the feature | "parents":["q"] | none
        parents of which there are none | "parents":[] | none
        null for parents | "parents":^null | 12 wrong kind
        a child that is not in the feature | "children":[^"q"] | 21 child not found
        itself as a child that does not list it | "children":[^"b"] | 22 link not mutual
        itself as a parent that does not list it | "parents":[^"b"] | 22 link not mutual
        a geometry that is a number | "geometry":[^3] | 12 wrong kind
        doubled names | ^"type":"+Shed" | 11 duplicate name
        "#,
    },
    Table {
        name: "city objects beside one of an extension",
        pattern: r#"{"type":"CityJSONFeature","id":"b","CityObjects":{"b":{"type":"+Shed","children":["p"]},"p":_},"vertices":[]}"#,
        rows: r#"
        a part of it | {"type":"BuildingPart","parents":["b"]} | none
        a part that does not list it | {"type":"BuildingPart","parents":["q"]} | 82 22 link not mutual
        a part without parents | {"type":"BuildingPart"} | 82 22 link not mutual
        one of an extension | {"type":"+Part","parents":["b"]} | none
        one of an extension that does not list it | {"type":"+Part"} | 82 22 link not mutual
        "#,
    },
];

#[test]
fn features_with_types_of_extensions(rt: HostRuntime) -> Result<(), Fail> {
    all_meet(&rt, rt.alloc(), Judged::Extended, &EXTENDED)?;
    Ok(())
}
