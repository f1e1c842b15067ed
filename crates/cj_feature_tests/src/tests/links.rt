//! Links between city objects.
use super::{HEADER, Judged, Table, all_meet};
use std::test::Fail;

const FEATURES: [Table; 5] = [
    Table {
        name: "children",
        pattern: r#"{"type":"CityJSONFeature","id":"b","CityObjects":{_},"vertices":[]}"#,
        rows: r#"
        itself, as a child and a parent | "b":{"type":"Building","children":["b"],"parents":["b"]} | none
        a part that lists it | "b":{"type":"Building","children":["p"]},"p":{"type":"BuildingPart","parents":["b"]} | none
        the part before it | "p":{"type":"BuildingPart","parents":["b"]},"b":{"type":"Building","children":["p"]} | none
        by escapes | "b":{"type":"Building","children":["\u0070"]},"\u0070":{"type":"BuildingPart","parents":["\u0062"]} | none
        one that is not there | "b":{"type":"Building","children":[^"q"]} | 21 child not found
        the second of two | "b":{"type":"Building","children":["p",^"q"]},"p":{"type":"Building","parents":["b"]} | 21 child not found
        one that does not list it | "b":{"type":"Building","children":[^"p"]},"p":{"type":"Building"} | 22 link not mutual
        one that lists another | "b":{"type":"Building","children":[^"p"]},"p":{"type":"Building","parents":["q"]} | 22 link not mutual
        each of two a child of the other | "b":{"type":"Building","children":["p"],"parents":["p"]},"p":{"type":"Building","children":["b"],"parents":["b"]} | none
        one that lists it as a child | "b":{"type":"Building","children":[^"p"]},"p":{"type":"Building","children":["b"]} | 22 link not mutual
        itself, as a child alone | "b":{"type":"Building","children":[^"b"]} | 22 link not mutual
        one that is no city object | "b":{"type":"Building","children":[^"c"]},"c":3 | 22 link not mutual
        a number | "b":{"type":"Building","children":[^3]} | 12 wrong kind
        "#,
    },
    Table {
        name: "parents",
        pattern: r#"{"type":"CityJSONFeature","id":"b","CityObjects":{_},"vertices":[]}"#,
        rows: r#"
        one that is not there | "b":{"type":"Building","parents":["g"]} | none
        one that does not list it | "b":{"type":"Building"},"p":{"type":"Building","parents":[^"b"]} | 22 link not mutual
        one that lists another | "b":{"type":"Building","children":["b"],"parents":["b"]},"p":{"type":"Building","parents":[^"b"]} | 22 link not mutual
        itself, as a parent alone | "b":{"type":"Building","parents":[^"b"]} | 22 link not mutual
        one that is no city object | "b":{"type":"Building","parents":[^"c"]},"c":3 | 22 link not mutual
        the second of two | "b":{"type":"Building","parents":["g",^"c"]},"c":{"type":"Building"} | 22 link not mutual
        two parents | "b":{"type":"Building","children":["p"]},"c":{"type":"Building","children":["p"]},"p":{"type":"BuildingPart","parents":["b","c"]} | none
        "#,
    },
    Table {
        name: "city objects of the second level",
        pattern: r#"{"type":"CityJSONFeature","id":"b","CityObjects":{_},"vertices":[]}"#,
        rows: r#"
        no parents | "b":^{"type":"BuildingPart"} | 10 member missing
        null for parents | "b":{"type":"BuildingPart","parents":^null} | 12 wrong kind
        none | "b":^{"type":"BuildingPart","parents":[]} | 23 no parent in the feature
        one that is not there | "b":^{"type":"BuildingPart","parents":["g"]} | 23 no parent in the feature
        one that is no text | "b":^{"type":"BuildingPart","parents":[3]} | 23 no parent in the feature
        one of two that is there | "b":{"type":"BuildingPart","parents":["g","b"],"children":["b"]} | none
        one that is there and does not list it | "b":{"type":"BuildingPart","parents":[^"c"]},"c":{"type":"Building"} | 22 link not mutual
        one that is no city object | "b":{"type":"BuildingPart","parents":[^"c"]},"c":3 | 22 link not mutual
        one that is no city object, before it | "c":^3,"b":{"type":"BuildingPart","parents":["c"]} | 12 wrong kind
        a type by an escape | "b":^{"type":"\u0042uildingPart","parents":[]} | 23 no parent in the feature
        the first type of two | "b":{"type":"Building",^"type":"BuildingPart"} | 11 duplicate name
        a type of the first level | "b":{"type":"TunnelPart","parents":["c"]},"c":{"type":"Tunnel","children":["b"]} | none
        an installation | "b":^{"type":"TunnelInstallation"} | 10 member missing
        a storey | "b":^{"type":"BuildingStorey","parents":["g"]} | 23 no parent in the feature
        "#,
    },
    Table {
        name: "groups",
        pattern: r#"{"type":"CityJSONFeature","id":"b","CityObjects":{_},"vertices":[]}"#,
        rows: r#"
        children that are not there | "b":{"type":"CityObjectGroup","children":["q"]} | none
        children that do not list it | "b":{"type":"CityObjectGroup","children":["c"]},"c":{"type":"Building"} | none
        a member that it does not list | "b":{"type":"CityObjectGroup"},"m":{"type":"Building","parents":[^"b"]} | 22 link not mutual
        a member that it lists | "b":{"type":"CityObjectGroup","children":["m"]},"m":{"type":"Building","parents":["b"]} | none
        children that are numbers | "b":{"type":"CityObjectGroup","children":[^3]} | 12 wrong kind
        a parent that does not list it | "b":{"type":"CityObjectGroup","parents":[^"c"]},"c":{"type":"Building"} | 22 link not mutual
        a parent that lists it | "b":{"type":"CityObjectGroup","parents":["c"]},"c":{"type":"Building","children":["b"]} | none
        a parent that is not there | "b":{"type":"CityObjectGroup","parents":["g"]} | none
        a type by an escape | "b":{"type":"CityObject\u0047roup","children":["q"]} | none
        a group in a building | "b":{"type":"Building","children":[^"g"]},"g":{"type":"CityObjectGroup"} | 22 link not mutual
        "#,
    },
    Table {
        name: "city objects of one name",
        pattern: r#"{"type":"CityJSONFeature","id":"b","CityObjects":{_},"vertices":[]}"#,
        rows: r#"
        the second lists the part | "b":{"type":"Building"},^"b":{"type":"Building","children":["p"]},"p":{"type":"BuildingPart","parents":["b"]} | 11 duplicate name
        the part is told twice | "b":{"type":"Building","children":["p"]},"p":{"type":"Building"},^"p":{"type":"BuildingPart","parents":["b"]} | 11 duplicate name
        neither lists the part | "p":{"type":"BuildingPart","parents":[^"b"]},"b":{"type":"Building"},"b":{"type":"Building"} | 22 link not mutual
        one of them a group | "b":{"type":"Building","children":[^"q"]},"b":{"type":"CityObjectGroup","children":["r"]} | 21 child not found
        the group first | "b":{"type":"CityObjectGroup","children":["r"]},^"b":{"type":"Building","children":["q"]} | 11 duplicate name
        "#,
    },
];

#[test]
fn links_between_city_objects(rt: HostRuntime) -> Result<(), Fail> {
    all_meet(&rt, rt.alloc(), Judged::Feature(HEADER), &FEATURES)?;
    Ok(())
}
