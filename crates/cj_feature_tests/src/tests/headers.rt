//! Headers, rule by rule.
use super::{Judged, Table, all_meet};
use std::test::Fail;

const HEADERS: [Table; 9] = [
    Table {
        name: "roots of headers",
        pattern: r#"_"#,
        rows: r#"
        an object of all members | {"type":"CityJSON","version":"2.0","transform":{"scale":[1,1,1],"translate":[0,0,0]},"CityObjects":{},"vertices":[]} | none
        white space round it |   {"type":"CityJSON","version":"2.0","transform":{"scale":[1,1,1],"translate":[0,0,0]},"CityObjects":{},"vertices":[]}  | none
        a number | ^3 | 12 wrong kind
        null | ^null | 12 wrong kind
        a text | ^"CityJSON" | 12 wrong kind
        an array of a header | ^[{"type":"CityJSON","version":"2.0","transform":{"scale":[1,1,1],"translate":[0,0,0]},"CityObjects":{},"vertices":[]}] | 12 wrong kind
        no members | ^{} | 10 member missing
        "#,
    },
    Table {
        name: "members that are missing",
        pattern: r#"_"#,
        rows: r#"
        a type | ^{"version":"2.0","transform":{"scale":[1,1,1],"translate":[0,0,0]},"CityObjects":{},"vertices":[]} | 10 member missing
        a version | ^{"type":"CityJSON","transform":{"scale":[1,1,1],"translate":[0,0,0]},"CityObjects":{},"vertices":[]} | 10 member missing
        a transform | ^{"type":"CityJSON","version":"2.0","CityObjects":{},"vertices":[]} | 10 member missing
        city objects | ^{"type":"CityJSON","version":"2.0","transform":{"scale":[1,1,1],"translate":[0,0,0]},"vertices":[]} | 10 member missing
        vertices | ^{"type":"CityJSON","version":"2.0","transform":{"scale":[1,1,1],"translate":[0,0,0]},"CityObjects":{}} | 10 member missing
        a name of another case | ^{"Type":"CityJSON","version":"2.0","transform":{"scale":[1,1,1],"translate":[0,0,0]},"CityObjects":{},"vertices":[]} | 10 member missing
        a name by an escape is not | {"\u0074ype":"CityJSON","version":"2.0","transform":{"scale":[1,1,1],"translate":[0,0,0]},"CityObjects":{},"vertices":[]} | none
        "#,
    },
    Table {
        name: "types of headers",
        pattern: r#"{"type":_,"version":"2.0","transform":{"scale":[1,1,1],"translate":[0,0,0]},"CityObjects":{},"vertices":[]}"#,
        rows: r#"
        the type | "CityJSON" | none
        by an escape | "\u0043ityJSON" | none
        that of a feature | ^"CityJSONFeature" | 14 wrong type
        another case | ^"cityJSON" | 14 wrong type
        a blank more | ^"CityJSON " | 14 wrong type
        the empty text | ^"" | 14 wrong type
        a number | ^3 | 12 wrong kind
        null | ^null | 12 wrong kind
        an array of it | ^["CityJSON"] | 12 wrong kind
        "#,
    },
    Table {
        name: "versions",
        pattern: r#"{"type":"CityJSON","version":_,"transform":{"scale":[1,1,1],"translate":[0,0,0]},"CityObjects":{},"vertices":[]}"#,
        rows: r#"
        the version | "2.0" | none
        by an escape | "2\u002e0" | none
        an older one | ^"1.1" | 15 wrong version
        a digit more | ^"2.00" | 15 wrong version
        a digit less | ^"2" | 15 wrong version
        another part | ^"2.0.0" | 15 wrong version
        the empty text | ^"" | 15 wrong version
        a number | ^2.0 | 12 wrong kind
        null | ^null | 12 wrong kind
        "#,
    },
    Table {
        name: "transforms",
        pattern: r#"{"type":"CityJSON","version":"2.0","transform":_,"CityObjects":{},"vertices":[]}"#,
        rows: r#"
        members in the other order | {"translate":[0,0,0],"scale":[1,1,1]} | none
        a member more | {"scale":[1,1,1],"translate":[0,0,0],"rotate":0} | none
        an array | ^[] | 12 wrong kind
        null | ^null | 12 wrong kind
        no members | ^{} | 10 member missing
        no scale | ^{"translate":[0,0,0]} | 10 member missing
        no translation | ^{"scale":[1,1,1]} | 10 member missing
        a scale that is an object | {"scale":^{},"translate":[0,0,0]} | 12 wrong kind
        a translation that is a number | {"scale":[1,1,1],"translate":^0} | 12 wrong kind
        two scales | {"scale":[1,1,1],"translate":[0,0,0],^"scale":[1,1,1]} | 11 duplicate name
        two unread members | {"scale":[1,1,1],"a":0,"translate":[0,0,0],^"\u0061":0} | 11 duplicate name
        "#,
    },
    Table {
        name: "scales",
        pattern: r#"{"type":"CityJSON","version":"2.0","transform":{"scale":_,"translate":[0,0,0]},"CityObjects":{},"vertices":[]}"#,
        rows: r#"
        three numbers | [0.001,-1e3,0] | none
        two numbers | ^[1,1] | 17 not three items
        four numbers | ^[1,1,1,1] | 17 not three items
        no numbers | ^[] | 17 not three items
        two numbers and a text | [1,1,^"1"] | 12 wrong kind
        null | [1,^null,1] | 12 wrong kind
        an array | [1,1,^[1]] | 12 wrong kind
        37 digits | [^1111111111111111111111111111111111111,1,1] | 13 number out of range
        36 digits | [111111111111111111111111111111111111,1,1] | none
        a power too great | [1,1,^1e1000001] | 13 number out of range
        a small power, where there is no box | [1e-19,1e18,1] | none
        two numbers, of which the second is a text | ^[1,"1"] | 17 not three items
        "#,
    },
    Table {
        name: "translations",
        pattern: r#"{"type":"CityJSON","version":"2.0","transform":{"scale":[1,1,1],"translate":_},"CityObjects":{},"vertices":[]}"#,
        rows: r#"
        three numbers | [1000.0,2000.0,0.0] | none
        two numbers | ^[1,1] | 17 not three items
        four numbers | ^[1,1,1,1] | 17 not three items
        a truth | [^true,1,1] | 12 wrong kind
        a power too small | [1,^1e-1000001,1] | 13 number out of range
        "#,
    },
    Table {
        name: "city objects and vertices",
        pattern: r#"_"#,
        rows: r#"
        a city object | {"type":"CityJSON","version":"2.0","transform":{"scale":[1,1,1],"translate":[0,0,0]},"CityObjects":^{"b":{"type":"Building"}},"vertices":[]} | 16 not empty
        two of one name, which stand later | {"type":"CityJSON","version":"2.0","transform":{"scale":[1,1,1],"translate":[0,0,0]},"CityObjects":^{"b":0,"b":0},"vertices":[]} | 16 not empty
        an array of city objects | {"type":"CityJSON","version":"2.0","transform":{"scale":[1,1,1],"translate":[0,0,0]},"CityObjects":^[],"vertices":[]} | 12 wrong kind
        null for city objects | {"type":"CityJSON","version":"2.0","transform":{"scale":[1,1,1],"translate":[0,0,0]},"CityObjects":^null,"vertices":[]} | 12 wrong kind
        a vertex | {"type":"CityJSON","version":"2.0","transform":{"scale":[1,1,1],"translate":[0,0,0]},"CityObjects":{},"vertices":^[[0,0,0]]} | 16 not empty
        an object of vertices | {"type":"CityJSON","version":"2.0","transform":{"scale":[1,1,1],"translate":[0,0,0]},"CityObjects":{},"vertices":^{}} | 12 wrong kind
        null for vertices | {"type":"CityJSON","version":"2.0","transform":{"scale":[1,1,1],"translate":[0,0,0]},"CityObjects":{},"vertices":^null} | 12 wrong kind
        "#,
    },
    Table {
        name: "names of a header are distinct",
        pattern: r#"{"type":"CityJSON","version":"2.0","transform":{"scale":[1,1,1],"translate":[0,0,0]},"CityObjects":{},"vertices":[],_}"#,
        rows: r#"
        another member | "metadata":{"a":1,"a":2} | none
        a member of an extension | "+a":1 | none
        a type | ^"type":"CityJSON" | 11 duplicate name
        vertices by an escape | ^"vertice\u0073":[] | 11 duplicate name
        two that are not read | "a":1,^"a":1 | 11 duplicate name
        "#,
    },
];

const HEADERS_FOR_BOXES: [Table; 2] = [
    Table {
        name: "scales beside a box",
        pattern: r#"{"type":"CityJSON","version":"2.0","transform":{"scale":_,"translate":[0,0,0]},"CityObjects":{},"vertices":[]}"#,
        rows: r#"
        numbers of either sign | [0.001,-0.001,0] | none
        the greatest and the least | [999999999999999999.999999999999999999,1e-18,1] | none
        zero of any power | [0e1000000,-0.0,1] | none
        a power too small | [^1e-19,1,1] | 30 transform not fixed
        a number too great | [1,^1e18,1] | 30 transform not fixed
        one too great below zero | [1,^-1e18,1] | 30 transform not fixed
        both, of which the first counts | [^1e-19,1e18,1] | 30 transform not fixed
        the third is free | [1,1,1e-19] | none
        a number out of range | [^1e1000001,1,1] | 13 number out of range
        a text, and a number too great | [^"1",1e18,1] | 12 wrong kind
        a number too great, and a text | [^1e18,"1",1] | 30 transform not fixed
        one number alone | ^[1e-19] | 17 not three items
        "#,
    },
    Table {
        name: "translations beside a box",
        pattern: r#"{"type":"CityJSON","version":"2.0","transform":{"scale":[0.001,0.001,0.001],"translate":_},"CityObjects":{},"vertices":[]}"#,
        rows: r#"
        three numbers | [1000.0,2000.0,0.0] | none
        a power too small | [1e-19,2000.0,0.0] | 89 30 transform not fixed
        the second | [1000.0,^1e-19,0.0] | 30 transform not fixed
        the third is free | [1000.0,2000.0,1e-19] | none
        "#,
    },
];

#[test]
fn headers_rule_by_rule(rt: HostRuntime) -> Result<(), Fail> {
    all_meet(&rt, rt.alloc(), Judged::Header, &HEADERS)?;
    all_meet(&rt, rt.alloc(), Judged::HeaderForBox, &HEADERS_FOR_BOXES)?;
    Ok(())
}
