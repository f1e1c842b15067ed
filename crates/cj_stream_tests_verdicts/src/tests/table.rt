//! The vectors of the folder `vectors/`, by section, without its three families. Written by
//! vectors/make.py: change vectors/cases.py and run it again.
//!
//! A row has cells with bars between them:
//!
//! - its name
//! - the line limit
//! - the depth limit
//! - the query, or `-`
//! - the stream
//! - what is written of it, or `all`
//! - the end
//! - how many lines come before the invalid one, or all
//! - how many features are written
//! - the peaks of a complete stream, or `-`
//!
//! The module `rows` says how a query and a stream are spelled.
use super::vectors::check_rows;
use std::test::Fail;

/// The lines of a stream.
const THE_LINES_OF_A_STREAM: &str = r#"
empty|1000|64|-||all|line 1, byte 0: 1 no header line|0|0|-
empty-least-limits|1|1|-||all|line 1, byte 0: 1 no header line|0|0|-
empty-asked-for-an-id|1000|64|id=b1||all|line 1, byte 0: 1 no header line|0|0|-
header-and-feature|1000|64|-|&H;&lf;&F;&lf;|all|complete|2|1|350 65 8
blank-and-no-last-lf|1000|64|-|&H;&lf;&13;&lf;{ "type":"CityJSONFeature","id":"b1","CityObjects":{"b1":{"type":"Building","geometry":[{"type":"MultiSurface","lod":"2.2","boundaries":[[[0,1,2,3]]]}]}},"vertices":[[0,0,0],[1000,0,0],[1000,1000,0],[0,1000,0]]}|&H;&lf;{ "type":"CityJSONFeature","id":"b1","CityObjects":{"b1":{"type":"Building","geometry":[{"type":"MultiSurface","lod":"2.2","boundaries":[[[0,1,2,3]]]}]}},"vertices":[[0,0,0],[1000,0,0],[1000,1000,0],[0,1000,0]]}|complete|3|1|351 65 8
header-alone|1000|64|-|&H;|all|complete|1|0|140 21 3
header-alone-with-lf|1000|64|-|&H;&lf;|all|complete|1|0|140 21 3
small-and-feature|1000|64|-|&H;&lf;{"type":"CityJSONFeature","id":"b","CityObjects":{"b":{"type":"Building"}},"vertices":[]}&lf;&F;&lf;|all|complete|3|2|350 65 8
good-lines-around-a-bad-one|1000|64|-|&H;&lf;&F;&lf;{"type":"CityJSONFeature","id":"b1","CityObjects":{"b1":{"type":"Building","geometry":[{"type":"MultiSurface","lod":"2.2","boundaries":[[[0,1,2,4]]]}]}},"vertices":[[0,0,0],[1000,0,0],[1000,1000,0],[0,1000,0]]}&lf;&F;&lf;|&H;&lf;&F;&lf;|line 3, byte 144: 25 vertex index out of range|2|1|-
blanks-of-each-kind|1000|64|-|&H;&lf;&lf; &lf;&9;&lf;&13;&lf; &9;&13; &lf;&F;&lf;|&H;&lf;&F;&lf;|complete|7|1|350 65 8
blank-first-line|1000|64|-|&lf;&H;&lf;||line 1, byte 0: 4 syntax|0|0|-
spaces-first-line|1000|64|-|  &lf;&H;&lf;||line 1, byte 2: 4 syntax|0|0|-
form-feed-is-not-blank|1000|64|-|&H;&lf;&12;&lf;&F;&lf;|&H;&lf;|line 2, byte 0: 4 syntax|1|0|-
"#;

#[test]
fn the_lines_of_a_stream(rt: HostRuntime) -> Result<(), Fail> {
    check_rows(&rt, rt.alloc(), THE_LINES_OF_A_STREAM)
}

/// 2: line too long.
const LINE_TOO_LONG: &str = r#"
line-as-long-as-the-limit|210|64|-|&H;&lf;&F;&lf;|all|complete|2|1|350 65 8
line-one-byte-too-long|210|64|-|&H;&lf;&F;&lf;&F; &lf;|&H;&lf;&F;&lf;|line 3, byte 210: 2 line too long|2|1|-
line-one-byte-too-long-no-lf|210|64|-|&H;&lf;&F; |&H;&lf;|line 2, byte 210: 2 line too long|1|0|-
header-as-long-as-the-limit|140|64|-|&H;&lf;|all|complete|1|0|140 21 3
header-one-byte-too-long|139|64|-|&H;&lf;||line 1, byte 139: 2 line too long|0|0|-
header-past-the-least-limit|1|1|-|&H;&lf;||line 1, byte 1: 2 line too long|0|0|-
blank-as-long-as-the-limit|140|64|-|&H;&lf;                                                                                                                                            &lf;|&H;&lf;|complete|2|0|280 21 3
blank-one-byte-too-long|140|64|-|&H;&lf;                                                                                                                                             &lf;|&H;&lf;|line 2, byte 140: 2 line too long|1|0|-
too-long-before-not-utf8|140|64|-|&H;&lf;&255;&255;&255;&255;&255;&255;&255;&255;&255;&255;&255;&255;&255;&255;&255;&255;&255;&255;&255;&255;&255;&255;&255;&255;&255;&255;&255;&255;&255;&255;&255;&255;&255;&255;&255;&255;&255;&255;&255;&255;&255;&255;&255;&255;&255;&255;&255;&255;&255;&255;&255;&255;&255;&255;&255;&255;&255;&255;&255;&255;&255;&255;&255;&255;&255;&255;&255;&255;&255;&255;&255;&255;&255;&255;&255;&255;&255;&255;&255;&255;&255;&255;&255;&255;&255;&255;&255;&255;&255;&255;&255;&255;&255;&255;&255;&255;&255;&255;&255;&255;&255;&255;&255;&255;&255;&255;&255;&255;&255;&255;&255;&255;&255;&255;&255;&255;&255;&255;&255;&255;&255;&255;&255;&255;&255;&255;&255;&255;&255;&255;&255;&255;&255;&255;&255;&255;&255;&255;&255;&255;&255;&lf;|&H;&lf;|line 2, byte 140: 2 line too long|1|0|-
"#;

#[test]
fn line_too_long(rt: HostRuntime) -> Result<(), Fail> {
    check_rows(&rt, rt.alloc(), LINE_TOO_LONG)
}

/// 3: not UTF-8.
const NOT_UTF_8: &str = r#"
euro|1000|64|-|&H;&lf;{"type":"CityJSONFeature","id":"b1","CityObjects":{"b1":{"type":"Building","geometry":[{"type":"MultiSurface","lod":"2.2","boundaries":[[[0,1,2,3]]]}],"attributes":{"a":"&226;&130;&172;"}}},"vertices":[[0,0,0],[1000,0,0],[1000,1000,0],[0,1000,0]]}&lf;|all|complete|2|1|375 69 8
euro-without-its-last-byte|1000|64|-|&H;&lf;{"type":"CityJSONFeature","id":"b1","CityObjects":{"b1":{"type":"Building","geometry":[{"type":"MultiSurface","lod":"2.2","boundaries":[[[0,1,2,3]]]}],"attributes":{"a":"&226;&130;"}}},"vertices":[[0,0,0],[1000,0,0],[1000,1000,0],[0,1000,0]]}&lf;|&H;&lf;|line 2, byte 170: 3 not UTF-8|1|0|-
euro-at-the-end-without-its-last-byte|1000|64|-|&H;&lf;{"type":"CityJSONFeature","id":"b1","CityObjects":{"b1":{"type":"Building","geometry":[{"type":"MultiSurface","lod":"2.2","boundaries":[[[0,1,2,3]]]}],"attributes":{"a":"&226;&130;&lf;|&H;&lf;|line 2, byte 170: 3 not UTF-8|1|0|-
surrogate-in-bytes|1000|64|-|&H;&lf;{"a":"&237;&160;&128;"}&lf;|&H;&lf;|line 2, byte 6: 3 not UTF-8|1|0|-
too-long-form|1000|64|-|&H;&lf;{"a":"&192;&175;"}&lf;|&H;&lf;|line 2, byte 6: 3 not UTF-8|1|0|-
greatest-code-point|1000|64|-|&H;&lf;{"type":"CityJSONFeature","id":"b","CityObjects":{"b":{"type":"Building"}},"vertices":[],"a":"&244;&143;&191;&191;"}&lf;|all|complete|2|1|240 36 3
past-the-greatest-code-point|1000|64|-|&H;&lf;{"a":"&244;&144;&128;&128;"}&lf;|&H;&lf;|line 2, byte 6: 3 not UTF-8|1|0|-
blank-with-a-bad-byte|1000|64|-|&H;&lf;  &255;&lf;|&H;&lf;|line 2, byte 2: 3 not UTF-8|1|0|-
bad-byte-before-bad-syntax|1000|64|-|&H;&lf;}&255;&lf;|&H;&lf;|line 2, byte 1: 3 not UTF-8|1|0|-
bad-first-line|1000|64|-|&255;&H;&lf;||line 1, byte 0: 3 not UTF-8|0|0|-
"#;

#[test]
fn not_utf_8(rt: HostRuntime) -> Result<(), Fail> {
    check_rows(&rt, rt.alloc(), NOT_UTF_8)
}

/// 4: syntax.
const SYNTAX: &str = r#"
comma-before-a-brace|1000|64|-|&H;&lf;{"type":"CityJSONFeature",}&lf;|&H;&lf;|line 2, byte 26: 4 syntax|1|0|-
front-of-a-feature|1000|64|-|&H;&lf;{"type":"CityJSONFeature","id":"b1","CityObjects":{"b1":{"type":"Building","geometry":[{"type":"Mult&lf;|&H;&lf;|line 2, byte 100: 4 syntax|1|0|-
zero-before-a-digit|1000|64|-|&H;&lf;01&lf;|&H;&lf;|line 2, byte 1: 4 syntax|1|0|-
minus-alone|1000|64|-|&H;&lf;-&lf;|&H;&lf;|line 2, byte 1: 4 syntax|1|0|-
comma-before-a-bracket|1000|64|-|&H;&lf;[1,]&lf;|&H;&lf;|line 2, byte 3: 4 syntax|1|0|-
escape-of-no-letter|1000|64|-|&H;&lf;"\q"&lf;|&H;&lf;|line 2, byte 2: 4 syntax|1|0|-
word-cut-by-a-brace|1000|64|-|&H;&lf;tru}&lf;|&H;&lf;|line 2, byte 3: 4 syntax|1|0|-
text-after-a-text|1000|64|-|&H;&lf;{} x&lf;|&H;&lf;|line 2, byte 3: 4 syntax|1|0|-
array-not-closed|1000|64|-|&H;&lf;[1&lf;|&H;&lf;|line 2, byte 2: 4 syntax|1|0|-
plus-before-a-digit|1000|64|-|&H;&lf;+1&lf;|&H;&lf;|line 2, byte 0: 4 syntax|1|0|-
point-without-digits|1000|64|-|&H;&lf;[1.]&lf;|&H;&lf;|line 2, byte 3: 4 syntax|1|0|-
exponent-without-digits|1000|64|-|&H;&lf;[1e]&lf;|&H;&lf;|line 2, byte 3: 4 syntax|1|0|-
control-character-in-a-string|1000|64|-|&H;&lf;["&31;"]&lf;|&H;&lf;|line 2, byte 2: 4 syntax|1|0|-
single-quotes|1000|64|-|&H;&lf;['a']&lf;|&H;&lf;|line 2, byte 1: 4 syntax|1|0|-
name-without-quotes|1000|64|-|&H;&lf;{a:1}&lf;|&H;&lf;|line 2, byte 1: 4 syntax|1|0|-
half-an-escape|1000|64|-|&H;&lf;["\u12G4"]&lf;|&H;&lf;|line 2, byte 6: 4 syntax|1|0|-
byte-order-mark|1000|64|-|&239;&187;&191;&H;&lf;||line 1, byte 0: 4 syntax|0|0|-
record-separator|1000|64|-|&30;&H;&lf;||line 1, byte 0: 4 syntax|0|0|-
comment|1000|64|-|&H;&lf;// no&lf;|&H;&lf;|line 2, byte 0: 4 syntax|1|0|-
"#;

#[test]
fn syntax(rt: HostRuntime) -> Result<(), Fail> {
    check_rows(&rt, rt.alloc(), SYNTAX)
}

/// 5: nested too deep.
const NESTED_TOO_DEEP: &str = r#"
deepest-allowed|2000|1024|-|&H;&lf;[[[[[[[[[[[[[[[[[[[[[[[[[[[[[[[[[[[[[[[[[[[[[[[[[[[[[[[[[[[[[[[[[[[[[[[[[[[[[[[[[[[[[[[[[[[[[[[[[[[[[[[[[[[[[[[[[[[[[[[[[[[[[[[[[[[[[[[[[[[[[[[[[[[[[[[[[[[[[[[[[[[[[[[[[[[[[[[[[[[[[[[[[[[[[[[[[[[[[[[[[[[[[[[[[[[[[[[[[[[[[[[[[[[[[[[[[[[[[[[[[[[[[[[[[[[[[[[[[[[[[[[[[[[[[[[[[[[[[[[[[[[[[[[[[[[[[[[[[[[[[[[[[[[[[[[[[[[[[[[[[[[[[[[[[[[[[[[[[[[[[[[[[[[[[[[[[[[[[[[[[[[[[[[[[[[[[[[[[[[[[[[[[[[[[[[[[[[[[[[[[[[[[[[[[[[[[[[[[[[[[[[[[[[[[[[[[[[[[[[[[[[[[[[[[[[[[[[[[[[[[[[[[[[[[[[[[[[[[[[[[[[[[[[[[[[[[[[[[[[[[[[[[[[[[[[[[[[[[[[[[[[[[[[[[[[[[[[[[[[[[[[[[[[[[[[[[[[[[[[[[[[[[[[[[[[[[[[[[[[[[[[[[[[[[[[[[[[[[[[[[[[[[[[[[[[[[[[[[[[[[[[[[[[[[[[[[[[[[[[[[[[[[[[[[[[[[[[[[[[[[[[[[[[[[[[[[[[[[[[[[[[[[[[[[[[[[[[[[[[[[[[[[[[[[[[[[[[[[[[[[[[[[[[[[[[[[[[[[[[[[[[[[[[[[[[[[[[[[[[[[[[[[[[[[[[[[[[[[[[[[[[[[[[[[[[[[[[[[[[[[[[[[[[[[[[[[[[[[[[[[[[[[[[[[[[[[[[[[[[[[[[[[[[[[[[[[[[[[[[[[[[[[[[[[[[[[[[[[[[[[[[[[[[[[[[[[[[[[[[[[[[[[[[[[[[[[[[[[[[[[[[[[[[[[[[[[[[[[[[[[[[[[[[[[[[[[[[[[[[[[[[[[[[[[[[[[[[[[[[[[[[[[[[[[[[[[[[[[[[[[[[[[[[[[[[[[[[[[[[[[[[[&lf;|&H;&lf;|line 2, byte 1024: 4 syntax|1|0|-
one-deeper-than-allowed|2000|1024|-|&H;&lf;[[[[[[[[[[[[[[[[[[[[[[[[[[[[[[[[[[[[[[[[[[[[[[[[[[[[[[[[[[[[[[[[[[[[[[[[[[[[[[[[[[[[[[[[[[[[[[[[[[[[[[[[[[[[[[[[[[[[[[[[[[[[[[[[[[[[[[[[[[[[[[[[[[[[[[[[[[[[[[[[[[[[[[[[[[[[[[[[[[[[[[[[[[[[[[[[[[[[[[[[[[[[[[[[[[[[[[[[[[[[[[[[[[[[[[[[[[[[[[[[[[[[[[[[[[[[[[[[[[[[[[[[[[[[[[[[[[[[[[[[[[[[[[[[[[[[[[[[[[[[[[[[[[[[[[[[[[[[[[[[[[[[[[[[[[[[[[[[[[[[[[[[[[[[[[[[[[[[[[[[[[[[[[[[[[[[[[[[[[[[[[[[[[[[[[[[[[[[[[[[[[[[[[[[[[[[[[[[[[[[[[[[[[[[[[[[[[[[[[[[[[[[[[[[[[[[[[[[[[[[[[[[[[[[[[[[[[[[[[[[[[[[[[[[[[[[[[[[[[[[[[[[[[[[[[[[[[[[[[[[[[[[[[[[[[[[[[[[[[[[[[[[[[[[[[[[[[[[[[[[[[[[[[[[[[[[[[[[[[[[[[[[[[[[[[[[[[[[[[[[[[[[[[[[[[[[[[[[[[[[[[[[[[[[[[[[[[[[[[[[[[[[[[[[[[[[[[[[[[[[[[[[[[[[[[[[[[[[[[[[[[[[[[[[[[[[[[[[[[[[[[[[[[[[[[[[[[[[[[[[[[[[[[[[[[[[[[[[[[[[[[[[[[[[[[[[[[[[[[[[[[[[[[[[[[[[[[[[[[[[[[[[[[[[[[[[[[[[[[[[[[[[[[[[[[[[[[[[[[[[[[[[[[[[[[[[[[[[[[[[[[[[[[[[[[[[[[[[[[[[[[[[[[[[[[[[[[[[[[[[[[[[[[[[[[[[[[[[[[[[[[[[[[[[[[[[[[[[[[[[[[[[[[[[[[[[[[[[[[[[[[[[[[[[[[[[[[[[[[[[[[[[[[[[[[[[[[[[[[[[[[[[[[[[[[[[[[[[[[[[[[[[[[[[[[[[[[[[[[[[[[[[[&lf;|&H;&lf;|line 2, byte 1024: 5 nested too deep|1|0|-
one-deeper-than-64|1000|64|-|&H;&lf;[[[[[[[[[[[[[[[[[[[[[[[[[[[[[[[[[[[[[[[[[[[[[[[[[[[[[[[[[[[[[[[[[&lf;|&H;&lf;|line 2, byte 64: 5 nested too deep|1|0|-
feature-at-its-depth|1000|8|-|&H;&lf;&F;&lf;|all|complete|2|1|350 65 8
feature-past-its-depth|1000|7|-|&H;&lf;&F;&lf;|&H;&lf;|line 2, byte 137: 5 nested too deep|1|0|-
header-at-its-depth|140|3|-|&H;&lf;|all|complete|1|0|140 21 3
header-past-its-depth|140|2|-|&H;&lf;||line 1, byte 56: 5 nested too deep|0|0|-
too-deep-before-syntax|1000|3|-|&H;&lf;[[[[}&lf;|&H;&lf;|line 2, byte 3: 5 nested too deep|1|0|-
"#;

#[test]
fn nested_too_deep(rt: HostRuntime) -> Result<(), Fail> {
    check_rows(&rt, rt.alloc(), NESTED_TOO_DEEP)
}

/// 10: member missing.
const MEMBER_MISSING: &str = r#"
feature-as-the-first-line|1000|64|-|&F;&lf;||line 1, byte 0: 10 member missing|0|0|-
second-header|1000|64|-|&H;&lf;&H;&lf;|&H;&lf;|line 2, byte 0: 10 member missing|1|0|-
empty-object-as-the-first-line|1000|64|-|{}&lf;||line 1, byte 0: 10 member missing|0|0|-
no-lod|1000|64|-|&H;&lf;{"type":"CityJSONFeature","id":"b1","CityObjects":{"b1":{"type":"Building","geometry":[{"type":"MultiSurface","boundaries":[[[0,1,2,3]]]}]}},"vertices":[[0,0,0],[1000,0,0],[1000,1000,0],[0,1000,0]]}&lf;|&H;&lf;|line 2, byte 87: 10 member missing|1|0|-
no-lod-and-a-bad-index|1000|64|-|&H;&lf;{"type":"CityJSONFeature","id":"b1","CityObjects":{"b1":{"type":"Building","geometry":[{"type":"MultiSurface","boundaries":[[[0,1,2,4]]]}]}},"vertices":[[0,0,0],[1000,0,0],[1000,1000,0],[0,1000,0]]}&lf;|&H;&lf;|line 2, byte 87: 10 member missing|1|0|-
part-without-parents|1000|64|-|&H;&lf;{"type":"CityJSONFeature","id":"b","CityObjects":{"b":{"type":"BuildingPart"}},"vertices":[]}&lf;|&H;&lf;|line 2, byte 54: 10 member missing|1|0|-
city-object-without-type|1000|64|-|&H;&lf;{"type":"CityJSONFeature","id":"b","CityObjects":{"b":{}},"vertices":[]}&lf;|&H;&lf;|line 2, byte 54: 10 member missing|1|0|-
no-boundaries|1000|64|-|&H;&lf;{"type":"CityJSONFeature","id":"b","CityObjects":{"b":{"type":"Building","geometry":[{"type":"Solid","lod":"1"}]}},"vertices":[[0,0,0],[1,0,0],[0,1,0]]}&lf;|&H;&lf;|line 2, byte 85: 10 member missing|1|0|-
semantics-without-values|1000|64|-|&H;&lf;{"type":"CityJSONFeature","id":"b","CityObjects":{"b":{"type":"Building","geometry":[{"type":"Solid","lod":"1","boundaries":[],"semantics":{"surfaces":[]}}]}},"vertices":[[0,0,0],[1,0,0],[0,1,0]]}&lf;|&H;&lf;|line 2, byte 139: 10 member missing|1|0|-
instance-without-matrix|1000|64|-|{"type":"CityJSON","version":"2.0","transform":{"scale":[0.001,0.001,0.001],"translate":[1000.0,2000.0,0.0]},"CityObjects":{},"vertices":[],"geometry-templates":{"templates":[{"type":"MultiSurface","lod":"1","boundaries":[[[0,1,2]]]}],"vertices-templates":[[0.0,0.0,0.0],[1.0,0.0,0.0],[0.0,1.0,0.0]]}}&lf;{"type":"CityJSONFeature","id":"b","CityObjects":{"b":{"type":"PlantCover","geometry":[{"type":"GeometryInstance","template":0,"boundaries":[0]}]}},"vertices":[[0,0,0]]}&lf;|{"type":"CityJSON","version":"2.0","transform":{"scale":[0.001,0.001,0.001],"translate":[1000.0,2000.0,0.0]},"CityObjects":{},"vertices":[],"geometry-templates":{"templates":[{"type":"MultiSurface","lod":"1","boundaries":[[[0,1,2]]]}],"vertices-templates":[[0.0,0.0,0.0],[1.0,0.0,0.0],[0.0,1.0,0.0]]}}&lf;|line 2, byte 87: 10 member missing|1|0|-
"#;

#[test]
fn member_missing(rt: HostRuntime) -> Result<(), Fail> {
    check_rows(&rt, rt.alloc(), MEMBER_MISSING)
}

/// 11: duplicate name.
const DUPLICATE_NAME: &str = r#"
one-name-twice|1000|64|-|&H;&lf;{"type":"CityJSONFeature","id":"b","CityObjects":{"b":{"type":"Building"},"b":{"type":"Building"}},"vertices":[]}&lf;|&H;&lf;|line 2, byte 74: 11 duplicate name|1|0|-
one-name-twice-by-an-escape|1000|64|-|&H;&lf;{"type":"CityJSONFeature","id":"b","CityObjects":{"b":{"type":"Building"},"\u0062":{"type":"Building"}},"vertices":[]}&lf;|&H;&lf;|line 2, byte 74: 11 duplicate name|1|0|-
one-name-twice-in-attributes|1000|64|-|&H;&lf;{"type":"CityJSONFeature","id":"b","CityObjects":{"b":{"type":"Building","attributes":{"a":1,"a":2}}},"vertices":[]}&lf;|all|complete|2|1|256 40 4
one-name-twice-in-the-root|1000|64|-|&H;&lf;{"type":"CityJSONFeature","id":"b","CityObjects":{"b":{"type":"Building"}},"vertices":[],"a":1,"a":2}&lf;|&H;&lf;|line 2, byte 95: 11 duplicate name|1|0|-
one-name-twice-in-a-geometry|1000|64|-|&H;&lf;{"type":"CityJSONFeature","id":"b","CityObjects":{"b":{"type":"Building","geometry":[{"type":"Solid","lod":"1","boundaries":[],"lod":"2"}]}},"vertices":[[0,0,0],[1,0,0],[0,1,0]]}&lf;|&H;&lf;|line 2, byte 127: 11 duplicate name|1|0|-
one-name-twice-in-a-transform|1000|64|-|{"type":"CityJSON","version":"2.0","transform":{"a":1,"a":2,"scale":[0.001,0.001,0.001],"translate":[1000.0,2000.0,0.0]},"CityObjects":{},"vertices":[]}&lf;||line 1, byte 54: 11 duplicate name|0|0|-
names-that-differ-in-case|1000|64|-|&H;&lf;{"type":"CityJSONFeature","id":"b","CityObjects":{"b":{"type":"Building"},"B":{"type":"Building"}},"vertices":[]}&lf;|all|complete|2|1|253 38 3
"#;

#[test]
fn duplicate_name(rt: HostRuntime) -> Result<(), Fail> {
    check_rows(&rt, rt.alloc(), DUPLICATE_NAME)
}

/// 12: wrong kind.
const WRONG_KIND: &str = r#"
an-array|1000|64|-|&H;&lf;[]&lf;|&H;&lf;|line 2, byte 0: 12 wrong kind|1|0|-
null|1000|64|-|&H;&lf;null&lf;|&H;&lf;|line 2, byte 0: 12 wrong kind|1|0|-
lod-that-is-a-number|1000|64|-|&H;&lf;{"type":"CityJSONFeature","id":"b1","CityObjects":{"b1":{"type":"Building","geometry":[{"type":"MultiSurface","lod":2.2,"boundaries":[[[0,1,2,4]]]}]}},"vertices":[[0,0,0],[1000,0,0],[1000,1000,0],[0,1000,0]]}&lf;|&H;&lf;|line 2, byte 116: 12 wrong kind|1|0|-
vertex-that-is-a-number|1000|64|-|&H;&lf;{"type":"CityJSONFeature","id":"b","CityObjects":{"b":{"type":"Building"}},"vertices":[3]}&lf;|&H;&lf;|line 2, byte 87: 12 wrong kind|1|0|-
children-that-are-null|1000|64|-|&H;&lf;{"type":"CityJSONFeature","id":"b","CityObjects":{"b":{"type":"Building","children":null}},"vertices":[]}&lf;|&H;&lf;|line 2, byte 84: 12 wrong kind|1|0|-
child-that-is-a-number|1000|64|-|&H;&lf;{"type":"CityJSONFeature","id":"b","CityObjects":{"b":{"type":"Building","children":[3]}},"vertices":[]}&lf;|&H;&lf;|line 2, byte 85: 12 wrong kind|1|0|-
city-object-that-is-a-text|1000|64|-|&H;&lf;{"type":"CityJSONFeature","id":"b","CityObjects":{"b":"x"},"vertices":[]}&lf;|&H;&lf;|line 2, byte 54: 12 wrong kind|1|0|-
index-that-is-a-text|1000|64|-|&H;&lf;{"type":"CityJSONFeature","id":"b1","CityObjects":{"b1":{"type":"Building","geometry":[{"type":"MultiSurface","lod":"2.2","boundaries":[[[0,1,2,"3"]]]}]}},"vertices":[[0,0,0],[1000,0,0],[1000,1000,0],[0,1000,0]]}&lf;|&H;&lf;|line 2, byte 144: 12 wrong kind|1|0|-
semantics-that-are-null|1000|64|-|&H;&lf;{"type":"CityJSONFeature","id":"b","CityObjects":{"b":{"type":"Building","geometry":[{"type":"Solid","lod":"1","boundaries":[],"semantics":null}]}},"vertices":[[0,0,0],[1,0,0],[0,1,0]]}&lf;|&H;&lf;|line 2, byte 139: 12 wrong kind|1|0|-
header-that-is-a-number|1000|64|-|1&lf;||line 1, byte 0: 12 wrong kind|0|0|-
header-that-is-an-array|1000|64|-|[]&lf;||line 1, byte 0: 12 wrong kind|0|0|-
"#;

#[test]
fn wrong_kind(rt: HostRuntime) -> Result<(), Fail> {
    check_rows(&rt, rt.alloc(), WRONG_KIND)
}

/// 13: number out of range.
const NUMBER_OUT_OF_RANGE: &str = r#"
index-of-37-digits|1000|64|-|&H;&lf;{"type":"CityJSONFeature","id":"b1","CityObjects":{"b1":{"type":"Building","geometry":[{"type":"MultiSurface","lod":"2.2","boundaries":[[[0,1,2,1111111111111111111111111111111111111]]]}]}},"vertices":[[0,0,0],[1000,0,0],[1000,1000,0],[0,1000,0]]}&lf;|&H;&lf;|line 2, byte 144: 13 number out of range|1|0|-
index-of-36-digits|1000|64|-|&H;&lf;{"type":"CityJSONFeature","id":"b1","CityObjects":{"b1":{"type":"Building","geometry":[{"type":"MultiSurface","lod":"2.2","boundaries":[[[0,1,2,111111111111111111111111111111111111]]]}]}},"vertices":[[0,0,0],[1000,0,0],[1000,1000,0],[0,1000,0]]}&lf;|&H;&lf;|line 2, byte 144: 18 not a whole number|1|0|-
scale-of-37-digits|1000|64|-|{"type":"CityJSON","version":"2.0","transform":{"scale":[0.1111111111111111111111111111111111111,0.001,0.001],"translate":[1000.0,2000.0,0.0]},"CityObjects":{},"vertices":[]}&lf;||line 1, byte 57: 13 number out of range|0|0|-
scale-of-36-digits|1000|64|-|{"type":"CityJSON","version":"2.0","transform":{"scale":[0.111111111111111111111111111111111111,0.001,0.001],"translate":[1000.0,2000.0,0.0]},"CityObjects":{},"vertices":[]}&lf;|all|complete|1|0|173 21 3
power-past-a-million|1000|64|-|{"type":"CityJSON","version":"2.0","transform":{"scale":[1e1000001,0.001,0.001],"translate":[1000.0,2000.0,0.0]},"CityObjects":{},"vertices":[]}&lf;||line 1, byte 57: 13 number out of range|0|0|-
power-of-a-million|1000|64|-|{"type":"CityJSON","version":"2.0","transform":{"scale":[1e1000000,0.001,0.001],"translate":[1000.0,2000.0,0.0]},"CityObjects":{},"vertices":[]}&lf;|all|complete|1|0|144 21 3
power-past-minus-a-million|1000|64|-|{"type":"CityJSON","version":"2.0","transform":{"scale":[1e-1000001,0.001,0.001],"translate":[1000.0,2000.0,0.0]},"CityObjects":{},"vertices":[]}&lf;||line 1, byte 57: 13 number out of range|0|0|-
unread-number-of-any-size|1000|64|-|&H;&lf;{"type":"CityJSONFeature","id":"b","CityObjects":{"b":{"type":"Building"}},"vertices":[],"a":1e9999999}&lf;|all|complete|2|1|243 36 3
"#;

#[test]
fn number_out_of_range(rt: HostRuntime) -> Result<(), Fail> {
    check_rows(&rt, rt.alloc(), NUMBER_OUT_OF_RANGE)
}

/// 14, 15: type and version.
const TYPE_AND_VERSION: &str = r#"
header-of-type-feature|1000|64|-|{"type":"CityJSONFeature","version":"2.0","transform":{"scale":[0.001,0.001,0.001],"translate":[1000.0,2000.0,0.0]},"CityObjects":{},"vertices":[]}&lf;||line 1, byte 8: 14 wrong type|0|0|-
feature-of-type-header|1000|64|-|&H;&lf;{"type":"CityJSON","id":"b","CityObjects":{"b":{"type":"Building"}},"vertices":[]}&lf;|&H;&lf;|line 2, byte 8: 14 wrong type|1|0|-
type-in-small-letters|1000|64|-|&H;&lf;{"type":"cityjsonfeature","id":"b","CityObjects":{"b":{"type":"Building"}},"vertices":[]}&lf;|&H;&lf;|line 2, byte 8: 14 wrong type|1|0|-
type-by-an-escape|1000|64|-|&H;&lf;{"type":"\u0043ityJSONFeature","id":"b","CityObjects":{"b":{"type":"Building"}},"vertices":[]}&lf;|all|complete|2|1|234 34 3
version-1.1|1000|64|-|{"type":"CityJSON","version":"1.1","transform":{"scale":[0.001,0.001,0.001],"translate":[1000.0,2000.0,0.0]},"CityObjects":{},"vertices":[]}&lf;||line 1, byte 29: 15 wrong version|0|0|-
version-2.0.1|1000|64|-|{"type":"CityJSON","version":"2.0.1","transform":{"scale":[0.001,0.001,0.001],"translate":[1000.0,2000.0,0.0]},"CityObjects":{},"vertices":[]}&lf;||line 1, byte 29: 15 wrong version|0|0|-
version-2|1000|64|-|{"type":"CityJSON","version":"2","transform":{"scale":[0.001,0.001,0.001],"translate":[1000.0,2000.0,0.0]},"CityObjects":{},"vertices":[]}&lf;||line 1, byte 29: 15 wrong version|0|0|-
version-by-an-escape|1000|64|-|{"type":"CityJSON","version":"2.\u0030","transform":{"scale":[0.001,0.001,0.001],"translate":[1000.0,2000.0,0.0]},"CityObjects":{},"vertices":[]}&lf;|all|complete|1|0|145 21 3
"#;

#[test]
fn type_and_version(rt: HostRuntime) -> Result<(), Fail> {
    check_rows(&rt, rt.alloc(), TYPE_AND_VERSION)
}

/// 16: not empty.
const NOT_EMPTY: &str = r#"
header-with-a-city-object|1000|64|-|{"type":"CityJSON","version":"2.0","transform":{"scale":[0.001,0.001,0.001],"translate":[1000.0,2000.0,0.0]},"CityObjects":{"a":{}},"vertices":[]}&lf;||line 1, byte 123: 16 not empty|0|0|-
header-with-a-vertex|1000|64|-|{"type":"CityJSON","version":"2.0","transform":{"scale":[0.001,0.001,0.001],"translate":[1000.0,2000.0,0.0]},"CityObjects":{},"vertices":[0]}&lf;||line 1, byte 137: 16 not empty|0|0|-
header-with-a-whole-vertex|1000|64|-|{"type":"CityJSON","version":"2.0","transform":{"scale":[0.001,0.001,0.001],"translate":[1000.0,2000.0,0.0]},"CityObjects":{},"vertices":[[0,0,0]]}&lf;||line 1, byte 137: 16 not empty|0|0|-
"#;

#[test]
fn not_empty(rt: HostRuntime) -> Result<(), Fail> {
    check_rows(&rt, rt.alloc(), NOT_EMPTY)
}

/// 17: not three items.
const NOT_THREE_ITEMS: &str = r#"
scale-of-two|1000|64|-|{"type":"CityJSON","version":"2.0","transform":{"scale":[1,1],"translate":[1000.0,2000.0,0.0]},"CityObjects":{},"vertices":[]}&lf;||line 1, byte 56: 17 not three items|0|0|-
scale-of-four|1000|64|-|{"type":"CityJSON","version":"2.0","transform":{"scale":[1,1,1,1],"translate":[1000.0,2000.0,0.0]},"CityObjects":{},"vertices":[]}&lf;||line 1, byte 56: 17 not three items|0|0|-
vertex-of-two|1000|64|-|&H;&lf;{"type":"CityJSONFeature","id":"b","CityObjects":{"b":{"type":"Building"}},"vertices":[[0,0]]}&lf;|&H;&lf;|line 2, byte 87: 17 not three items|1|0|-
vertex-of-four|1000|64|-|&H;&lf;{"type":"CityJSONFeature","id":"b","CityObjects":{"b":{"type":"Building"}},"vertices":[[0,0,0,0]]}&lf;|&H;&lf;|line 2, byte 87: 17 not three items|1|0|-
template-vertex-of-two|1000|64|-|{"type":"CityJSON","version":"2.0","transform":{"scale":[0.001,0.001,0.001],"translate":[1000.0,2000.0,0.0]},"CityObjects":{},"vertices":[],"geometry-templates":{"templates":[{"type":"MultiSurface","lod":"1","boundaries":[[[0,1,2]]]}],"vertices-templates":[[0,0,0],[0,0],[0,0,0]]}}&lf;||line 1, byte 265: 17 not three items|0|0|-
"#;

#[test]
fn not_three_items(rt: HostRuntime) -> Result<(), Fail> {
    check_rows(&rt, rt.alloc(), NOT_THREE_ITEMS)
}

/// 18: not a whole number.
const NOT_A_WHOLE_NUMBER: &str = r#"
coordinate-of-a-half|1000|64|-|&H;&lf;{"type":"CityJSONFeature","id":"b","CityObjects":{"b":{"type":"Building"}},"vertices":[[0,0,0.5]]}&lf;|&H;&lf;|line 2, byte 92: 18 not a whole number|1|0|-
coordinate-of-10-18|1000|64|-|&H;&lf;{"type":"CityJSONFeature","id":"b","CityObjects":{"b":{"type":"Building"}},"vertices":[[0,0,1000000000000000000]]}&lf;|&H;&lf;|line 2, byte 92: 18 not a whole number|1|0|-
coordinate-below-10-18|1000|64|-|&H;&lf;{"type":"CityJSONFeature","id":"b","CityObjects":{"b":{"type":"Building"}},"vertices":[[0,0,-999999999999999999]]}&lf;|all|complete|2|1|254 38 3
index-of-one-and-a-half|1000|64|-|&H;&lf;{"type":"CityJSONFeature","id":"b1","CityObjects":{"b1":{"type":"Building","geometry":[{"type":"MultiSurface","lod":"2.2","boundaries":[[[0,1,2,1.5]]]}]}},"vertices":[[0,0,0],[1000,0,0],[1000,1000,0],[0,1000,0]]}&lf;|&H;&lf;|line 2, byte 144: 18 not a whole number|1|0|-
index-of-1e18|1000|64|-|&H;&lf;{"type":"CityJSONFeature","id":"b1","CityObjects":{"b1":{"type":"Building","geometry":[{"type":"MultiSurface","lod":"2.2","boundaries":[[[0,1,2,1e18]]]}]}},"vertices":[[0,0,0],[1000,0,0],[1000,1000,0],[0,1000,0]]}&lf;|&H;&lf;|line 2, byte 144: 18 not a whole number|1|0|-
index-with-a-point|1000|64|-|&H;&lf;{"type":"CityJSONFeature","id":"b1","CityObjects":{"b1":{"type":"Building","geometry":[{"type":"MultiSurface","lod":"2.2","boundaries":[[[0,1,2,3.0]]]}]}},"vertices":[[0,0,0],[1000,0,0],[1000,1000,0],[0,1000,0]]}&lf;|all|complete|2|1|352 65 8
index-with-an-exponent|1000|64|-|&H;&lf;{"type":"CityJSONFeature","id":"b1","CityObjects":{"b1":{"type":"Building","geometry":[{"type":"MultiSurface","lod":"2.2","boundaries":[[[0,1,2,3e0]]]}]}},"vertices":[[0,0,0],[1000,0,0],[1000,1000,0],[0,1000,0]]}&lf;|all|complete|2|1|352 65 8
index-of-minus-zero|1000|64|-|&H;&lf;{"type":"CityJSONFeature","id":"b1","CityObjects":{"b1":{"type":"Building","geometry":[{"type":"MultiSurface","lod":"2.2","boundaries":[[[0,1,2,-0]]]}]}},"vertices":[[0,0,0],[1000,0,0],[1000,1000,0],[0,1000,0]]}&lf;|all|complete|2|1|351 65 8
"#;

#[test]
fn not_a_whole_number(rt: HostRuntime) -> Result<(), Fail> {
    check_rows(&rt, rt.alloc(), NOT_A_WHOLE_NUMBER)
}

/// 19: unknown object type.
const UNKNOWN_OBJECT_TYPE: &str = r#"
type-of-an-extension|1000|64|-|&H;&lf;{"type":"CityJSONFeature","id":"b","CityObjects":{"b":{"type":"+Shed"}},"vertices":[]}&lf;|&H;&lf;|line 2, byte 62: 19 unknown object type|1|0|-
type-in-another-case|1000|64|-|&H;&lf;{"type":"CityJSONFeature","id":"b","CityObjects":{"b":{"type":"building"}},"vertices":[]}&lf;|&H;&lf;|line 2, byte 62: 19 unknown object type|1|0|-
type-with-a-space|1000|64|-|&H;&lf;{"type":"CityJSONFeature","id":"b","CityObjects":{"b":{"type":"Building "}},"vertices":[]}&lf;|&H;&lf;|line 2, byte 62: 19 unknown object type|1|0|-
type-that-is-empty|1000|64|-|&H;&lf;{"type":"CityJSONFeature","id":"b","CityObjects":{"b":{"type":""}},"vertices":[]}&lf;|&H;&lf;|line 2, byte 62: 19 unknown object type|1|0|-
"#;

#[test]
fn unknown_object_type(rt: HostRuntime) -> Result<(), Fail> {
    check_rows(&rt, rt.alloc(), UNKNOWN_OBJECT_TYPE)
}

/// 19: types of extensions.
const TYPES_OF_EXTENSIONS: &str = r#"
known-of-an-extension|1000|64|extensions|&H;&lf;{"type":"CityJSONFeature","id":"b","CityObjects":{"b":{"type":"+Shed"}},"vertices":[]}&lf;|all|complete|2|1|226 34 3
unknown-of-an-extension|1000|64|-|&H;&lf;{"type":"CityJSONFeature","id":"b","CityObjects":{"b":{"type":"+Shed"}},"vertices":[]}&lf;|&H;&lf;|line 2, byte 62: 19 unknown object type|1|0|-
known-of-a-sign-alone|1000|64|extensions|&H;&lf;{"type":"CityJSONFeature","id":"b","CityObjects":{"b":{"type":"+"}},"vertices":[]}&lf;|all|complete|2|1|222 34 3
unknown-of-a-sign-alone|1000|64|-|&H;&lf;{"type":"CityJSONFeature","id":"b","CityObjects":{"b":{"type":"+"}},"vertices":[]}&lf;|&H;&lf;|line 2, byte 62: 19 unknown object type|1|0|-
known-of-two-signs|1000|64|extensions|&H;&lf;{"type":"CityJSONFeature","id":"b","CityObjects":{"b":{"type":"++"}},"vertices":[]}&lf;|all|complete|2|1|223 34 3
unknown-of-two-signs|1000|64|-|&H;&lf;{"type":"CityJSONFeature","id":"b","CityObjects":{"b":{"type":"++"}},"vertices":[]}&lf;|&H;&lf;|line 2, byte 62: 19 unknown object type|1|0|-
known-of-a-sign-by-an-escape|1000|64|extensions|&H;&lf;{"type":"CityJSONFeature","id":"b","CityObjects":{"b":{"type":"\u002bShed"}},"vertices":[]}&lf;|all|complete|2|1|231 34 3
unknown-of-a-sign-by-an-escape|1000|64|-|&H;&lf;{"type":"CityJSONFeature","id":"b","CityObjects":{"b":{"type":"\u002bShed"}},"vertices":[]}&lf;|&H;&lf;|line 2, byte 62: 19 unknown object type|1|0|-
known-of-a-sign-by-an-escape-in-capitals|1000|64|extensions|&H;&lf;{"type":"CityJSONFeature","id":"b","CityObjects":{"b":{"type":"\u002BShed"}},"vertices":[]}&lf;|all|complete|2|1|231 34 3
unknown-of-a-sign-by-an-escape-in-capitals|1000|64|-|&H;&lf;{"type":"CityJSONFeature","id":"b","CityObjects":{"b":{"type":"\u002BShed"}},"vertices":[]}&lf;|&H;&lf;|line 2, byte 62: 19 unknown object type|1|0|-
known-of-a-sign-before-a-type|1000|64|extensions|&H;&lf;{"type":"CityJSONFeature","id":"b","CityObjects":{"b":{"type":"+Building"}},"vertices":[]}&lf;|all|complete|2|1|230 34 3
unknown-of-a-sign-before-a-type|1000|64|-|&H;&lf;{"type":"CityJSONFeature","id":"b","CityObjects":{"b":{"type":"+Building"}},"vertices":[]}&lf;|&H;&lf;|line 2, byte 62: 19 unknown object type|1|0|-
known-of-a-sign-before-a-part|1000|64|extensions|&H;&lf;{"type":"CityJSONFeature","id":"b","CityObjects":{"b":{"type":"+BuildingPart"}},"vertices":[]}&lf;|all|complete|2|1|234 34 3
unknown-of-a-sign-before-a-part|1000|64|-|&H;&lf;{"type":"CityJSONFeature","id":"b","CityObjects":{"b":{"type":"+BuildingPart"}},"vertices":[]}&lf;|&H;&lf;|line 2, byte 62: 19 unknown object type|1|0|-
known-of-a-sign-before-a-space|1000|64|extensions|&H;&lf;{"type":"CityJSONFeature","id":"b","CityObjects":{"b":{"type":"+ "}},"vertices":[]}&lf;|all|complete|2|1|223 34 3
unknown-of-a-sign-before-a-space|1000|64|-|&H;&lf;{"type":"CityJSONFeature","id":"b","CityObjects":{"b":{"type":"+ "}},"vertices":[]}&lf;|&H;&lf;|line 2, byte 62: 19 unknown object type|1|0|-
known-of-a-sign-before-a-quote|1000|64|extensions|&H;&lf;{"type":"CityJSONFeature","id":"b","CityObjects":{"b":{"type":"+\""}},"vertices":[]}&lf;|all|complete|2|1|224 34 3
unknown-of-a-sign-before-a-quote|1000|64|-|&H;&lf;{"type":"CityJSONFeature","id":"b","CityObjects":{"b":{"type":"+\""}},"vertices":[]}&lf;|&H;&lf;|line 2, byte 62: 19 unknown object type|1|0|-
known-of-a-sign-before-a-letter-of-two-bytes|1000|64|extensions|&H;&lf;{"type":"CityJSONFeature","id":"b","CityObjects":{"b":{"type":"+&195;&169;"}},"vertices":[]}&lf;|all|complete|2|1|224 34 3
unknown-of-a-sign-before-a-letter-of-two-bytes|1000|64|-|&H;&lf;{"type":"CityJSONFeature","id":"b","CityObjects":{"b":{"type":"+&195;&169;"}},"vertices":[]}&lf;|&H;&lf;|line 2, byte 62: 19 unknown object type|1|0|-
known-of-a-sign-before-half-a-pair|1000|64|extensions|&H;&lf;{"type":"CityJSONFeature","id":"b","CityObjects":{"b":{"type":"+\ud800"}},"vertices":[]}&lf;|all|complete|2|1|228 34 3
unknown-of-a-sign-before-half-a-pair|1000|64|-|&H;&lf;{"type":"CityJSONFeature","id":"b","CityObjects":{"b":{"type":"+\ud800"}},"vertices":[]}&lf;|&H;&lf;|line 2, byte 62: 19 unknown object type|1|0|-
known-of-a-sign-before-a-group|1000|64|extensions|&H;&lf;{"type":"CityJSONFeature","id":"b","CityObjects":{"b":{"type":"+CityObjectGroup"}},"vertices":[]}&lf;|all|complete|2|1|237 34 3
unknown-of-a-sign-before-a-group|1000|64|-|&H;&lf;{"type":"CityJSONFeature","id":"b","CityObjects":{"b":{"type":"+CityObjectGroup"}},"vertices":[]}&lf;|&H;&lf;|line 2, byte 62: 19 unknown object type|1|0|-
extended-of-no-sign|1000|64|extensions|&H;&lf;{"type":"CityJSONFeature","id":"b","CityObjects":{"b":{"type":"Shed"}},"vertices":[]}&lf;|&H;&lf;|line 2, byte 62: 19 unknown object type|1|0|-
extended-of-no-letters|1000|64|extensions|&H;&lf;{"type":"CityJSONFeature","id":"b","CityObjects":{"b":{"type":""}},"vertices":[]}&lf;|&H;&lf;|line 2, byte 62: 19 unknown object type|1|0|-
extended-of-a-space-before-the-sign|1000|64|extensions|&H;&lf;{"type":"CityJSONFeature","id":"b","CityObjects":{"b":{"type":" +Shed"}},"vertices":[]}&lf;|&H;&lf;|line 2, byte 62: 19 unknown object type|1|0|-
extended-of-a-sign-at-the-end|1000|64|extensions|&H;&lf;{"type":"CityJSONFeature","id":"b","CityObjects":{"b":{"type":"Shed+"}},"vertices":[]}&lf;|&H;&lf;|line 2, byte 62: 19 unknown object type|1|0|-
extended-of-a-spelled-escape|1000|64|extensions|&H;&lf;{"type":"CityJSONFeature","id":"b","CityObjects":{"b":{"type":"\\u002bShed"}},"vertices":[]}&lf;|&H;&lf;|line 2, byte 62: 19 unknown object type|1|0|-
extended-of-a-minus|1000|64|extensions|&H;&lf;{"type":"CityJSONFeature","id":"b","CityObjects":{"b":{"type":"-Shed"}},"vertices":[]}&lf;|&H;&lf;|line 2, byte 62: 19 unknown object type|1|0|-
extended-of-a-wide-sign|1000|64|extensions|&H;&lf;{"type":"CityJSONFeature","id":"b","CityObjects":{"b":{"type":"&239;&188;&139;Shed"}},"vertices":[]}&lf;|&H;&lf;|line 2, byte 62: 19 unknown object type|1|0|-
extended-of-a-small-letter|1000|64|extensions|&H;&lf;{"type":"CityJSONFeature","id":"b","CityObjects":{"b":{"type":"building"}},"vertices":[]}&lf;|&H;&lf;|line 2, byte 62: 19 unknown object type|1|0|-
extended-of-a-sign-behind-no-break-space|1000|64|extensions|&H;&lf;{"type":"CityJSONFeature","id":"b","CityObjects":{"b":{"type":"\u00a0+Shed"}},"vertices":[]}&lf;|&H;&lf;|line 2, byte 62: 19 unknown object type|1|0|-
extended-type-that-is-a-number|1000|64|extensions|&H;&lf;{"type":"CityJSONFeature","id":"b","CityObjects":{"b":{"type":3}},"vertices":[]}&lf;|&H;&lf;|line 2, byte 62: 12 wrong kind|1|0|-
extended-type-that-is-a-null|1000|64|extensions|&H;&lf;{"type":"CityJSONFeature","id":"b","CityObjects":{"b":{"type":null}},"vertices":[]}&lf;|&H;&lf;|line 2, byte 62: 12 wrong kind|1|0|-
extended-type-that-is-a-array|1000|64|extensions|&H;&lf;{"type":"CityJSONFeature","id":"b","CityObjects":{"b":{"type":["+Shed"]}},"vertices":[]}&lf;|&H;&lf;|line 2, byte 62: 12 wrong kind|1|0|-
extended-type-that-is-a-truth|1000|64|extensions|&H;&lf;{"type":"CityJSONFeature","id":"b","CityObjects":{"b":{"type":true}},"vertices":[]}&lf;|&H;&lf;|line 2, byte 62: 12 wrong kind|1|0|-
extended-of-no-type|1000|64|extensions|&H;&lf;{"type":"CityJSONFeature","id":"b","CityObjects":{"b":{}},"vertices":[]}&lf;|&H;&lf;|line 2, byte 54: 10 member missing|1|0|-
extended-of-two-types|1000|64|extensions|&H;&lf;{"type":"CityJSONFeature","id":"b","CityObjects":{"b":{"type":"+Shed","type":"+Shed"}},"vertices":[]}&lf;|&H;&lf;|line 2, byte 70: 11 duplicate name|1|0|-
extension-of-no-parents|1000|64|extensions|&H;&lf;{"type":"CityJSONFeature","id":"b","CityObjects":{"b":{"type":"+Shed","parents":[]}},"vertices":[]}&lf;|all|complete|2|1|239 36 4
extension-of-a-parent-elsewhere|1000|64|extensions|&H;&lf;{"type":"CityJSONFeature","id":"b","CityObjects":{"b":{"type":"+Shed","parents":["q"]}},"vertices":[]}&lf;|all|complete|2|1|242 37 4
extension-of-null-for-parents|1000|64|extensions|&H;&lf;{"type":"CityJSONFeature","id":"b","CityObjects":{"b":{"type":"+Shed","parents":null}},"vertices":[]}&lf;|&H;&lf;|line 2, byte 80: 12 wrong kind|1|0|-
extension-of-a-lost-child|1000|64|extensions|&H;&lf;{"type":"CityJSONFeature","id":"b","CityObjects":{"b":{"type":"+Shed","children":["q"]}},"vertices":[]}&lf;|&H;&lf;|line 2, byte 82: 21 child not found|1|0|-
extension-of-itself-as-child|1000|64|extensions|&H;&lf;{"type":"CityJSONFeature","id":"b","CityObjects":{"b":{"type":"+Shed","children":["b"]}},"vertices":[]}&lf;|&H;&lf;|line 2, byte 82: 22 link not mutual|1|0|-
extension-of-itself-as-parent|1000|64|extensions|&H;&lf;{"type":"CityJSONFeature","id":"b","CityObjects":{"b":{"type":"+Shed","parents":["b"]}},"vertices":[]}&lf;|&H;&lf;|line 2, byte 81: 22 link not mutual|1|0|-
extension-named-as-a-group-of-a-lost-child|1000|64|extensions|&H;&lf;{"type":"CityJSONFeature","id":"b","CityObjects":{"b":{"type":"+CityObjectGroup","children":["q"]}},"vertices":[]}&lf;|&H;&lf;|line 2, byte 93: 21 child not found|1|0|-
extension-over-a-part|1000|64|extensions|&H;&lf;{"type":"CityJSONFeature","id":"b","CityObjects":{"b":{"type":"+Shed","children":["p"]},"p":{"type":"BuildingPart","parents":["b"]}},"vertices":[]}&lf;|all|complete|2|1|287 44 4
extension-over-a-part-of-another|1000|64|extensions|&H;&lf;{"type":"CityJSONFeature","id":"b","CityObjects":{"b":{"type":"+Shed","children":["p"]},"p":{"type":"BuildingPart","parents":["q"]}},"vertices":[]}&lf;|&H;&lf;|line 2, byte 82: 22 link not mutual|1|0|-
extension-over-one-of-an-extension|1000|64|extensions|&H;&lf;{"type":"CityJSONFeature","id":"b","CityObjects":{"b":{"type":"+Shed","children":["p"]},"p":{"type":"+Part","parents":["b"]}},"vertices":[]}&lf;|all|complete|2|1|280 44 4
extension-over-one-that-does-not-list-it|1000|64|extensions|&H;&lf;{"type":"CityJSONFeature","id":"b","CityObjects":{"b":{"type":"+Shed","children":["p"]},"p":{"type":"+Part"}},"vertices":[]}&lf;|&H;&lf;|line 2, byte 82: 22 link not mutual|1|0|-
extension-over-a-road-that-lists-it|1000|64|extensions|&H;&lf;{"type":"CityJSONFeature","id":"b","CityObjects":{"b":{"type":"+Shed","children":["p"]},"p":{"type":"Road","parents":["b"]}},"vertices":[]}&lf;|all|complete|2|1|279 44 4
part-of-an-extension-elsewhere|1000|64|extensions|&H;&lf;{"type":"CityJSONFeature","id":"b","CityObjects":{"b":{"type":"BuildingPart","parents":["q"]},"c":{"type":"+Shed"}},"vertices":[]}&lf;|&H;&lf;|line 2, byte 54: 23 no parent in the feature|1|0|-
extension-in-a-building|1000|64|extensions|&H;&lf;{"type":"CityJSONFeature","id":"b","CityObjects":{"b":{"type":"Building","children":["p"]},"p":{"type":"+Part","parents":["b"]}},"vertices":[]}&lf;|all|complete|2|1|283 44 4
extension-apart|1000|64|extensions tree|&H;&lf;{"type":"CityJSONFeature","id":"b","CityObjects":{"b":{"type":"Building"},"c":{"type":"+Shed"}},"vertices":[]}&lf;|&H;&lf;|line 2, byte 78: 31 not reached from the main object|1|0|-
extension-apart-and-no-tree-asked|1000|64|extensions|&H;&lf;{"type":"CityJSONFeature","id":"b","CityObjects":{"b":{"type":"Building"},"c":{"type":"+Shed"}},"vertices":[]}&lf;|all|complete|2|1|250 38 3
extension-apart-and-unknown|1000|64|tree|&H;&lf;{"type":"CityJSONFeature","id":"b","CityObjects":{"b":{"type":"Building"},"c":{"type":"+Shed"}},"vertices":[]}&lf;|&H;&lf;|line 2, byte 78: 31 not reached from the main object|1|0|-
extension-of-an-index-too-great|1000|64|extensions|&H;&lf;{"type":"CityJSONFeature","id":"b","CityObjects":{"b":{"type":"+Shed","geometry":[{"type":"MultiPoint","lod":"1","boundaries":[0]}]}},"vertices":[]}&lf;|&H;&lf;|line 2, byte 127: 25 vertex index out of range|1|0|-
extension-of-a-cone|1000|64|extensions|&H;&lf;{"type":"CityJSONFeature","id":"b","CityObjects":{"b":{"type":"+Shed","geometry":[{"type":"+Cone"}]}},"vertices":[]}&lf;|&H;&lf;|line 2, byte 90: 24 unknown geometry type|1|0|-
semantics-of-an-extension|1000|64|extensions|&H;&lf;{"type":"CityJSONFeature","id":"b","CityObjects":{"b":{"type":"Building","geometry":[{"type":"Solid","lod":"1","boundaries":[[[[0,1,2]],[[0,2,1]]]],"semantics":{"surfaces":[{"type":"+Roof"}],"values":null}}]}},"vertices":[[0,0,0],[1,0,0],[0,1,0]]}&lf;|all|complete|2|1|387 75 9
extension-among-others|1000|64|extensions|&H;&lf;&F;&lf;{"type":"CityJSONFeature","id":"b1","CityObjects":{"b1":{"type":"+Shed","geometry":[{"type":"MultiSurface","lod":"2.2","boundaries":[[[0,1,2,3]]]}]}},"vertices":[[0,0,0],[1000,0,0],[1000,1000,0],[0,1000,0]]}&lf;&F;&lf;|all|complete|4|3|350 65 8
extension-among-others-and-unknown|1000|64|-|&H;&lf;&F;&lf;{"type":"CityJSONFeature","id":"b1","CityObjects":{"b1":{"type":"+Shed","geometry":[{"type":"MultiSurface","lod":"2.2","boundaries":[[[0,1,2,3]]]}]}},"vertices":[[0,0,0],[1000,0,0],[1000,1000,0],[0,1000,0]]}&lf;&F;&lf;|&H;&lf;&F;&lf;|line 3, byte 64: 19 unknown object type|2|1|-
extension-asked-for-by-its-id|1000|64|extensions id=b1|&H;&lf;&F;&lf;{"type":"CityJSONFeature","id":"b1","CityObjects":{"b1":{"type":"+Shed","geometry":[{"type":"MultiSurface","lod":"2.2","boundaries":[[[0,1,2,3]]]}]}},"vertices":[[0,0,0],[1000,0,0],[1000,1000,0],[0,1000,0]]}&lf;|all|complete|3|2|350 65 8
extension-asked-for-by-its-lod|1000|64|extensions lod=2.2|&H;&lf;{"type":"CityJSONFeature","id":"b1","CityObjects":{"b1":{"type":"+Shed","geometry":[{"type":"MultiSurface","lod":"2.2","boundaries":[[[0,1,2,3]]]}]}},"vertices":[[0,0,0],[1000,0,0],[1000,1000,0],[0,1000,0]]}&lf;|all|complete|2|1|347 65 8
extension-asked-for-by-another-lod|1000|64|extensions lod=1|&H;&lf;{"type":"CityJSONFeature","id":"b1","CityObjects":{"b1":{"type":"+Shed","geometry":[{"type":"MultiSurface","lod":"2.2","boundaries":[[[0,1,2,3]]]}]}},"vertices":[[0,0,0],[1000,0,0],[1000,1000,0],[0,1000,0]]}&lf;|&H;&lf;|complete|2|0|347 65 8
extension-beside-what-is-asked-for|1000|64|extensions type=Building|&H;&lf;&F;&lf;{"type":"CityJSONFeature","id":"b1","CityObjects":{"b1":{"type":"+Shed","geometry":[{"type":"MultiSurface","lod":"2.2","boundaries":[[[0,1,2,3]]]}]}},"vertices":[[0,0,0],[1000,0,0],[1000,1000,0],[0,1000,0]]}&lf;|&H;&lf;&F;&lf;|complete|3|1|350 65 8
extension-asked-for-by-its-type|1000|64|extensions type=+Shed|&H;&lf;&F;&lf;{"type":"CityJSONFeature","id":"b1","CityObjects":{"b1":{"type":"+Shed","geometry":[{"type":"MultiSurface","lod":"2.2","boundaries":[[[0,1,2,3]]]}]}},"vertices":[[0,0,0],[1000,0,0],[1000,1000,0],[0,1000,0]]}&lf;|&H;&lf;{"type":"CityJSONFeature","id":"b1","CityObjects":{"b1":{"type":"+Shed","geometry":[{"type":"MultiSurface","lod":"2.2","boundaries":[[[0,1,2,3]]]}]}},"vertices":[[0,0,0],[1000,0,0],[1000,1000,0],[0,1000,0]]}&lf;|complete|3|1|350 65 8
extension-asked-for-by-an-escape|1000|64|extensions type=+Shed|&H;&lf;{"type":"CityJSONFeature","id":"b","CityObjects":{"b":{"type":"\u002bShed"}},"vertices":[]}&lf;|all|complete|2|1|231 34 3
extension-asked-for-beside-a-type|1000|64|extensions type=+Hut type=+Shed type=Building|&H;&lf;&F;&lf;{"type":"CityJSONFeature","id":"b1","CityObjects":{"b1":{"type":"+Shed","geometry":[{"type":"MultiSurface","lod":"2.2","boundaries":[[[0,1,2,3]]]}]}},"vertices":[[0,0,0],[1000,0,0],[1000,1000,0],[0,1000,0]]}&lf;|all|complete|3|2|350 65 8
extension-asked-for-by-another|1000|64|extensions type=+She type=+shed type=Road|&H;&lf;{"type":"CityJSONFeature","id":"b1","CityObjects":{"b1":{"type":"+Shed","geometry":[{"type":"MultiSurface","lod":"2.2","boundaries":[[[0,1,2,3]]]}]}},"vertices":[[0,0,0],[1000,0,0],[1000,1000,0],[0,1000,0]]}&lf;|&H;&lf;|complete|2|0|347 65 8
extension-left-out-by-its-type|1000|64|extensions exclude type=+Shed|&H;&lf;&F;&lf;{"type":"CityJSONFeature","id":"b1","CityObjects":{"b1":{"type":"+Shed","geometry":[{"type":"MultiSurface","lod":"2.2","boundaries":[[[0,1,2,3]]]}]}},"vertices":[[0,0,0],[1000,0,0],[1000,1000,0],[0,1000,0]]}&lf;|&H;&lf;&F;&lf;|complete|3|1|350 65 8
extension-in-a-box|1000|64|extensions bbox=1001,2001,1005,2005|&H;&lf;{"type":"CityJSONFeature","id":"b1","CityObjects":{"b1":{"type":"+Shed","geometry":[{"type":"MultiSurface","lod":"2.2","boundaries":[[[0,1,2,3]]]}]}},"vertices":[[0,0,0],[1000,0,0],[1000,1000,0],[0,1000,0]]}&lf;|all|complete|2|1|347 65 8
extension-that-is-left-out|1000|64|extensions exclude type=Building|&H;&lf;&F;&lf;{"type":"CityJSONFeature","id":"b1","CityObjects":{"b1":{"type":"+Shed","geometry":[{"type":"MultiSurface","lod":"2.2","boundaries":[[[0,1,2,3]]]}]}},"vertices":[[0,0,0],[1000,0,0],[1000,1000,0],[0,1000,0]]}&lf;|&H;&lf;{"type":"CityJSONFeature","id":"b1","CityObjects":{"b1":{"type":"+Shed","geometry":[{"type":"MultiSurface","lod":"2.2","boundaries":[[[0,1,2,3]]]}]}},"vertices":[[0,0,0],[1000,0,0],[1000,1000,0],[0,1000,0]]}&lf;|complete|3|1|350 65 8
extensions-and-an-empty-stream|1000|64|extensions||all|line 1, byte 0: 1 no header line|0|0|-
extensions-and-no-feature|1000|64|extensions|&H;&lf;|all|complete|1|0|140 21 3
extensions-and-members-of-the-header|1000|64|extensions|{"type":"CityJSON","version":"2.0","transform":{"scale":[0.001,0.001,0.001],"translate":[1000.0,2000.0,0.0]},"CityObjects":{},"vertices":[],"+census":3,"extensions":{"Noise":{}}}&lf;|all|complete|1|0|178 27 3
extensions-and-a-type-of-the-header|1000|64|extensions|{"type":"+CityJSON","version":"2.0","transform":{"scale":[0.001,0.001,0.001],"translate":[1000.0,2000.0,0.0]},"CityObjects":{},"vertices":[]}&lf;||line 1, byte 8: 14 wrong type|0|0|-
extensions-and-a-type-of-the-feature|1000|64|extensions|&H;&lf;{"type":"+CityJSONFeature","id":"b","CityObjects":{"b":{"type":"Building"}},"vertices":[]}&lf;|&H;&lf;|line 2, byte 8: 14 wrong type|1|0|-
"#;

#[test]
fn types_of_extensions(rt: HostRuntime) -> Result<(), Fail> {
    check_rows(&rt, rt.alloc(), TYPES_OF_EXTENSIONS)
}

/// 20: id not among the city objects.
const ID_NOT_AMONG_THE_CITY_OBJECTS: &str = r#"
id-of-no-city-object|1000|64|-|&H;&lf;{"type":"CityJSONFeature","id":"b","CityObjects":{"c":{"type":"Building"}},"vertices":[]}&lf;|&H;&lf;|line 2, byte 31: 20 id not among the city objects|1|0|-
id-and-no-city-objects|1000|64|-|&H;&lf;{"type":"CityJSONFeature","id":"b","CityObjects":{},"vertices":[]}&lf;|&H;&lf;|line 2, byte 31: 20 id not among the city objects|1|0|-
id-in-another-case|1000|64|-|&H;&lf;{"type":"CityJSONFeature","id":"B","CityObjects":{"b":{"type":"Building"}},"vertices":[]}&lf;|&H;&lf;|line 2, byte 31: 20 id not among the city objects|1|0|-
id-by-an-escape|1000|64|-|&H;&lf;{"type":"CityJSONFeature","id":"\u0062","CityObjects":{"b":{"type":"Building"}},"vertices":[]}&lf;|all|complete|2|1|234 34 3
"#;

#[test]
fn id_not_among_the_city_objects(rt: HostRuntime) -> Result<(), Fail> {
    check_rows(&rt, rt.alloc(), ID_NOT_AMONG_THE_CITY_OBJECTS)
}

/// 21, 22, 23: links.
const LINKS: &str = r#"
child-that-is-not-there|1000|64|-|&H;&lf;{"type":"CityJSONFeature","id":"b","CityObjects":{"b":{"type":"Building","children":["q"]}},"vertices":[]}&lf;|&H;&lf;|line 2, byte 85: 21 child not found|1|0|-
second-child-that-is-not-there|1000|64|-|&H;&lf;{"type":"CityJSONFeature","id":"b","CityObjects":{"b":{"type":"Building","children":["p","q"]},"p":{"type":"BuildingPart","parents":["b"]}},"vertices":[]}&lf;|&H;&lf;|line 2, byte 89: 21 child not found|1|0|-
child-in-another-case|1000|64|-|&H;&lf;{"type":"CityJSONFeature","id":"b","CityObjects":{"b":{"type":"Building","children":["B"]}},"vertices":[]}&lf;|&H;&lf;|line 2, byte 85: 21 child not found|1|0|-
child-of-a-group-that-is-not-there|1000|64|-|&H;&lf;{"type":"CityJSONFeature","id":"b","CityObjects":{"b":{"type":"CityObjectGroup","children":["q"]}},"vertices":[]}&lf;|all|complete|2|1|253 37 4
parent-that-does-not-list-it|1000|64|-|&H;&lf;{"type":"CityJSONFeature","id":"b","CityObjects":{"b":{"type":"Building"},"p":{"type":"BuildingPart","parents":["b"]}},"vertices":[]}&lf;|&H;&lf;|line 2, byte 112: 22 link not mutual|1|0|-
child-that-does-not-list-it|1000|64|-|&H;&lf;{"type":"CityJSONFeature","id":"b","CityObjects":{"b":{"type":"Building","children":["p"]},"p":{"type":"Building"}},"vertices":[]}&lf;|&H;&lf;|line 2, byte 85: 22 link not mutual|1|0|-
group-that-does-not-list-it|1000|64|-|&H;&lf;{"type":"CityJSONFeature","id":"b","CityObjects":{"b":{"type":"Building","parents":["g"]},"g":{"type":"CityObjectGroup"}},"vertices":[]}&lf;|&H;&lf;|line 2, byte 84: 22 link not mutual|1|0|-
parent-of-another-feature|1000|64|-|&H;&lf;{"type":"CityJSONFeature","id":"b","CityObjects":{"b":{"type":"Building","parents":["g"]}},"vertices":[]}&lf;|all|complete|2|1|245 37 4
child-and-parent-of-itself|1000|64|-|&H;&lf;{"type":"CityJSONFeature","id":"b","CityObjects":{"b":{"type":"Building","children":["b"],"parents":["b"]}},"vertices":[]}&lf;|all|complete|2|1|262 40 4
links-by-escapes|1000|64|-|&H;&lf;{"type":"CityJSONFeature","id":"b","CityObjects":{"b":{"type":"Building","children":["\u0070"]},"p":{"type":"BuildingPart","parents":["\u0062"]}},"vertices":[]}&lf;|all|complete|2|1|300 44 4
part-of-another-feature|1000|64|-|&H;&lf;{"type":"CityJSONFeature","id":"b","CityObjects":{"b":{"type":"BuildingPart","parents":["g"]}},"vertices":[]}&lf;|&H;&lf;|line 2, byte 54: 23 no parent in the feature|1|0|-
part-of-no-parents|1000|64|-|&H;&lf;{"type":"CityJSONFeature","id":"b","CityObjects":{"b":{"type":"BuildingPart","parents":[]}},"vertices":[]}&lf;|&H;&lf;|line 2, byte 54: 23 no parent in the feature|1|0|-
part-of-a-number|1000|64|-|&H;&lf;{"type":"CityJSONFeature","id":"b","CityObjects":{"b":{"type":"BuildingPart","parents":[3]}},"vertices":[]}&lf;|&H;&lf;|line 2, byte 54: 23 no parent in the feature|1|0|-
part-of-a-second-parent|1000|64|-|&H;&lf;{"type":"CityJSONFeature","id":"b","CityObjects":{"b":{"type":"Building","children":["p"]},"p":{"type":"BuildingPart","parents":["g","b"]}},"vertices":[]}&lf;|all|complete|2|1|294 45 4
"#;

#[test]
fn links(rt: HostRuntime) -> Result<(), Fail> {
    check_rows(&rt, rt.alloc(), LINKS)
}

/// 24: unknown geometry type.
const UNKNOWN_GEOMETRY_TYPE: &str = r#"
geometry-of-a-cone|1000|64|-|&H;&lf;{"type":"CityJSONFeature","id":"b","CityObjects":{"b":{"type":"Building","geometry":[{"type":"Cone"}]}},"vertices":[]}&lf;|&H;&lf;|line 2, byte 93: 24 unknown geometry type|1|0|-
geometry-in-another-case|1000|64|-|&H;&lf;{"type":"CityJSONFeature","id":"b","CityObjects":{"b":{"type":"Building","geometry":[{"type":"solid"}]}},"vertices":[]}&lf;|&H;&lf;|line 2, byte 93: 24 unknown geometry type|1|0|-
geometry-with-no-name|1000|64|-|&H;&lf;{"type":"CityJSONFeature","id":"b","CityObjects":{"b":{"type":"Building","geometry":[{"type":""}]}},"vertices":[]}&lf;|&H;&lf;|line 2, byte 93: 24 unknown geometry type|1|0|-
template-of-a-cone|1000|64|-|{"type":"CityJSON","version":"2.0","transform":{"scale":[0.001,0.001,0.001],"translate":[1000.0,2000.0,0.0]},"CityObjects":{},"vertices":[],"geometry-templates":{"templates":[{"type":"Cone"}],"vertices-templates":[[0.0,0.0,0.0],[1.0,0.0,0.0],[0.0,1.0,0.0]]}}&lf;||line 1, byte 183: 24 unknown geometry type|0|0|-
"#;

#[test]
fn unknown_geometry_type(rt: HostRuntime) -> Result<(), Fail> {
    check_rows(&rt, rt.alloc(), UNKNOWN_GEOMETRY_TYPE)
}

/// 25: vertex index out of range.
const VERTEX_INDEX_OUT_OF_RANGE: &str = r#"
index-past-the-vertices|1000|64|-|&H;&lf;{"type":"CityJSONFeature","id":"b1","CityObjects":{"b1":{"type":"Building","geometry":[{"type":"MultiSurface","lod":"2.2","boundaries":[[[0,1,2,4]]]}]}},"vertices":[[0,0,0],[1000,0,0],[1000,1000,0],[0,1000,0]]}&lf;|&H;&lf;|line 2, byte 144: 25 vertex index out of range|1|0|-
index-below-zero|1000|64|-|&H;&lf;{"type":"CityJSONFeature","id":"b1","CityObjects":{"b1":{"type":"Building","geometry":[{"type":"MultiSurface","lod":"2.2","boundaries":[[[0,1,2,-1]]]}]}},"vertices":[[0,0,0],[1000,0,0],[1000,1000,0],[0,1000,0]]}&lf;|&H;&lf;|line 2, byte 144: 25 vertex index out of range|1|0|-
index-before-the-lod|1000|64|-|&H;&lf;{"type":"CityJSONFeature","id":"b1","CityObjects":{"b1":{"type":"Building","geometry":[{"type":"MultiSurface","boundaries":[[[0,1,2,4]]],"lod":2.2}]}},"vertices":[[0,0,0],[1000,0,0],[1000,1000,0],[0,1000,0]]}&lf;|&H;&lf;|line 2, byte 132: 25 vertex index out of range|1|0|-
index-of-a-template|1000|64|-|{"type":"CityJSON","version":"2.0","transform":{"scale":[0.001,0.001,0.001],"translate":[1000.0,2000.0,0.0]},"CityObjects":{},"vertices":[],"geometry-templates":{"templates":[{"type":"MultiSurface","lod":"1","boundaries":[[[0,1,3]]]}],"vertices-templates":[[0.0,0.0,0.0],[1.0,0.0,0.0],[0.0,1.0,0.0]]}}&lf;||line 1, byte 228: 25 vertex index out of range|0|0|-
index-of-an-instance|1000|64|-|{"type":"CityJSON","version":"2.0","transform":{"scale":[0.001,0.001,0.001],"translate":[1000.0,2000.0,0.0]},"CityObjects":{},"vertices":[],"geometry-templates":{"templates":[{"type":"MultiSurface","lod":"1","boundaries":[[[0,1,2]]]}],"vertices-templates":[[0.0,0.0,0.0],[1.0,0.0,0.0],[0.0,1.0,0.0]]}}&lf;{"type":"CityJSONFeature","id":"b","CityObjects":{"b":{"type":"SolitaryVegetationObject","geometry":[{"type":"GeometryInstance","template":0,"boundaries":[1],"transformationMatrix":[1,0,0,0,0,1,0,0,0,0,1,0,0,0,0,1]}]}},"vertices":[[0,0,0]]}&lf;|{"type":"CityJSON","version":"2.0","transform":{"scale":[0.001,0.001,0.001],"translate":[1000.0,2000.0,0.0]},"CityObjects":{},"vertices":[],"geometry-templates":{"templates":[{"type":"MultiSurface","lod":"1","boundaries":[[[0,1,2]]]}],"vertices-templates":[[0.0,0.0,0.0],[1.0,0.0,0.0],[0.0,1.0,0.0]]}}&lf;|line 2, byte 155: 25 vertex index out of range|1|0|-
index-with-no-vertices|1000|64|-|&H;&lf;{"type":"CityJSONFeature","id":"b","CityObjects":{"b":{"type":"Building","geometry":[{"type":"MultiPoint","lod":"1","boundaries":[0]}]}},"vertices":[]}&lf;|&H;&lf;|line 2, byte 130: 25 vertex index out of range|1|0|-
"#;

#[test]
fn vertex_index_out_of_range(rt: HostRuntime) -> Result<(), Fail> {
    check_rows(&rt, rt.alloc(), VERTEX_INDEX_OUT_OF_RANGE)
}

/// 26, 27: semantics.
const SEMANTICS: &str = r#"
values-of-null|1000|64|-|&H;&lf;{"type":"CityJSONFeature","id":"b","CityObjects":{"b":{"type":"Building","geometry":[{"type":"Solid","lod":"1","boundaries":[[[[0,1,2]],[[0,2,1]]]],"semantics":{"surfaces":[{"type":"RoofSurface"}],"values":null}}]}},"vertices":[[0,0,0],[1,0,0],[0,1,0]]}&lf;|all|complete|2|1|393 75 9
values-of-null-shell|1000|64|-|&H;&lf;{"type":"CityJSONFeature","id":"b","CityObjects":{"b":{"type":"Building","geometry":[{"type":"Solid","lod":"1","boundaries":[[[[0,1,2]],[[0,2,1]]]],"semantics":{"surfaces":[{"type":"RoofSurface"}],"values":[null]}}]}},"vertices":[[0,0,0],[1,0,0],[0,1,0]]}&lf;|all|complete|2|1|395 76 9
values-of-null-surface|1000|64|-|&H;&lf;{"type":"CityJSONFeature","id":"b","CityObjects":{"b":{"type":"Building","geometry":[{"type":"Solid","lod":"1","boundaries":[[[[0,1,2]],[[0,2,1]]]],"semantics":{"surfaces":[{"type":"RoofSurface"}],"values":[[0,null]]}}]}},"vertices":[[0,0,0],[1,0,0],[0,1,0]]}&lf;|all|complete|2|1|399 78 9
values-of-no-shell|1000|64|-|&H;&lf;{"type":"CityJSONFeature","id":"b","CityObjects":{"b":{"type":"Building","geometry":[{"type":"Solid","lod":"1","boundaries":[[[[0,1,2]],[[0,2,1]]]],"semantics":{"surfaces":[{"type":"RoofSurface"}],"values":[]}}]}},"vertices":[[0,0,0],[1,0,0],[0,1,0]]}&lf;|&H;&lf;|line 2, byte 206: 26 semantics count|1|0|-
values-of-one-surface-of-two|1000|64|-|&H;&lf;{"type":"CityJSONFeature","id":"b","CityObjects":{"b":{"type":"Building","geometry":[{"type":"Solid","lod":"1","boundaries":[[[[0,1,2]],[[0,2,1]]]],"semantics":{"surfaces":[{"type":"RoofSurface"}],"values":[[0]]}}]}},"vertices":[[0,0,0],[1,0,0],[0,1,0]]}&lf;|&H;&lf;|line 2, byte 207: 26 semantics count|1|0|-
values-of-three-surfaces-of-two|1000|64|-|&H;&lf;{"type":"CityJSONFeature","id":"b","CityObjects":{"b":{"type":"Building","geometry":[{"type":"Solid","lod":"1","boundaries":[[[[0,1,2]],[[0,2,1]]]],"semantics":{"surfaces":[{"type":"RoofSurface"}],"values":[[0,0,0]]}}]}},"vertices":[[0,0,0],[1,0,0],[0,1,0]]}&lf;|&H;&lf;|line 2, byte 207: 26 semantics count|1|0|-
value-past-the-surfaces|1000|64|-|&H;&lf;{"type":"CityJSONFeature","id":"b","CityObjects":{"b":{"type":"Building","geometry":[{"type":"Solid","lod":"1","boundaries":[[[[0,1,2]],[[0,2,1]]]],"semantics":{"surfaces":[{"type":"RoofSurface"}],"values":[[0,1]]}}]}},"vertices":[[0,0,0],[1,0,0],[0,1,0]]}&lf;|&H;&lf;|line 2, byte 210: 27 semantics index out of range|1|0|-
value-below-zero|1000|64|-|&H;&lf;{"type":"CityJSONFeature","id":"b","CityObjects":{"b":{"type":"Building","geometry":[{"type":"Solid","lod":"1","boundaries":[[[[0,1,2]],[[0,2,1]]]],"semantics":{"surfaces":[{"type":"RoofSurface"}],"values":[[0,-1]]}}]}},"vertices":[[0,0,0],[1,0,0],[0,1,0]]}&lf;|&H;&lf;|line 2, byte 210: 27 semantics index out of range|1|0|-
value-of-no-surfaces|1000|64|-|&H;&lf;{"type":"CityJSONFeature","id":"b","CityObjects":{"b":{"type":"Building","geometry":[{"type":"Solid","lod":"1","boundaries":[[[[0,1,2]],[[0,2,1]]]],"semantics":{"surfaces":[],"values":[[0,null]]}}]}},"vertices":[[0,0,0],[1,0,0],[0,1,0]]}&lf;|&H;&lf;|line 2, byte 186: 27 semantics index out of range|1|0|-
value-of-the-last-surface|1000|64|-|&H;&lf;{"type":"CityJSONFeature","id":"b","CityObjects":{"b":{"type":"Building","geometry":[{"type":"Solid","lod":"1","boundaries":[[[[0,1,2]],[[0,2,1]]]],"semantics":{"surfaces":[{"type":"RoofSurface"},{"type":"WallSurface"}],"values":[[0,1]]}}]}},"vertices":[[0,0,0],[1,0,0],[0,1,0]]}&lf;|all|complete|2|1|419 81 9
"#;

#[test]
fn semantics(rt: HostRuntime) -> Result<(), Fail> {
    check_rows(&rt, rt.alloc(), SEMANTICS)
}

/// 28, 29: templates and instances.
const TEMPLATES_AND_INSTANCES: &str = r#"
instance-of-a-template|1000|64|-|{"type":"CityJSON","version":"2.0","transform":{"scale":[0.001,0.001,0.001],"translate":[1000.0,2000.0,0.0]},"CityObjects":{},"vertices":[],"geometry-templates":{"templates":[{"type":"MultiSurface","lod":"1","boundaries":[[[0,1,2]]]}],"vertices-templates":[[0.0,0.0,0.0],[1.0,0.0,0.0],[0.0,1.0,0.0]]}}&lf;{"type":"CityJSONFeature","id":"b","CityObjects":{"b":{"type":"SolitaryVegetationObject","geometry":[{"type":"GeometryInstance","template":0,"boundaries":[0],"transformationMatrix":[1,0,0,0,0,1,0,0,0,0,1,0,0,0,0,1]}]}},"vertices":[[0,0,0]]}&lf;|all|complete|2|1|541 96 7
instance-asked-for-by-its-lod|1000|64|lod=1|{"type":"CityJSON","version":"2.0","transform":{"scale":[0.001,0.001,0.001],"translate":[1000.0,2000.0,0.0]},"CityObjects":{},"vertices":[],"geometry-templates":{"templates":[{"type":"MultiSurface","lod":"1","boundaries":[[[0,1,2]]]}],"vertices-templates":[[0.0,0.0,0.0],[1.0,0.0,0.0],[0.0,1.0,0.0]]}}&lf;{"type":"CityJSONFeature","id":"b","CityObjects":{"b":{"type":"SolitaryVegetationObject","geometry":[{"type":"GeometryInstance","template":0,"boundaries":[0],"transformationMatrix":[1,0,0,0,0,1,0,0,0,0,1,0,0,0,0,1]}]}},"vertices":[[0,0,0]]}&lf;|all|complete|2|1|541 96 7
instance-of-another-lod|1000|64|lod=2|{"type":"CityJSON","version":"2.0","transform":{"scale":[0.001,0.001,0.001],"translate":[1000.0,2000.0,0.0]},"CityObjects":{},"vertices":[],"geometry-templates":{"templates":[{"type":"MultiSurface","lod":"1","boundaries":[[[0,1,2]]]}],"vertices-templates":[[0.0,0.0,0.0],[1.0,0.0,0.0],[0.0,1.0,0.0]]}}&lf;{"type":"CityJSONFeature","id":"b","CityObjects":{"b":{"type":"SolitaryVegetationObject","geometry":[{"type":"GeometryInstance","template":0,"boundaries":[0],"transformationMatrix":[1,0,0,0,0,1,0,0,0,0,1,0,0,0,0,1]}]}},"vertices":[[0,0,0]]}&lf;|{"type":"CityJSON","version":"2.0","transform":{"scale":[0.001,0.001,0.001],"translate":[1000.0,2000.0,0.0]},"CityObjects":{},"vertices":[],"geometry-templates":{"templates":[{"type":"MultiSurface","lod":"1","boundaries":[[[0,1,2]]]}],"vertices-templates":[[0.0,0.0,0.0],[1.0,0.0,0.0],[0.0,1.0,0.0]]}}&lf;|complete|2|0|541 96 7
templates-after-other-lines|1000|64|-|{"type":"CityJSON","version":"2.0","transform":{"scale":[0.001,0.001,0.001],"translate":[1000.0,2000.0,0.0]},"CityObjects":{},"vertices":[],"geometry-templates":{"templates":[{"type":"MultiSurface","lod":"1","boundaries":[[[0,1,2]]]}],"vertices-templates":[[0.0,0.0,0.0],[1.0,0.0,0.0],[0.0,1.0,0.0]]}}&lf;&F;&lf;{"type":"CityJSONFeature","id":"b","CityObjects":{"b":{"type":"SolitaryVegetationObject","geometry":[{"type":"GeometryInstance","template":0,"boundaries":[0],"transformationMatrix":[1,0,0,0,0,1,0,0,0,0,1,0,0,0,0,1]}]}},"vertices":[[0,0,0]]}&lf;&F;&lf;{"type":"CityJSONFeature","id":"b","CityObjects":{"b":{"type":"SolitaryVegetationObject","geometry":[{"type":"GeometryInstance","template":0,"boundaries":[0],"transformationMatrix":[1,0,0,0,0,1,0,0,0,0,1,0,0,0,0,1]}]}},"vertices":[[0,0,0]]}&lf;{"type":"CityJSONFeature","id":"b","CityObjects":{"b":{"type":"SolitaryVegetationObject","geometry":[{"type":"GeometryInstance","template":1,"boundaries":[0],"transformationMatrix":[1,0,0,0,0,1,0,0,0,0,1,0,0,0,0,1]}]}},"vertices":[[0,0,0]]}&lf;&F;&lf;|{"type":"CityJSON","version":"2.0","transform":{"scale":[0.001,0.001,0.001],"translate":[1000.0,2000.0,0.0]},"CityObjects":{},"vertices":[],"geometry-templates":{"templates":[{"type":"MultiSurface","lod":"1","boundaries":[[[0,1,2]]]}],"vertices-templates":[[0.0,0.0,0.0],[1.0,0.0,0.0],[0.0,1.0,0.0]]}}&lf;&F;&lf;{"type":"CityJSONFeature","id":"b","CityObjects":{"b":{"type":"SolitaryVegetationObject","geometry":[{"type":"GeometryInstance","template":0,"boundaries":[0],"transformationMatrix":[1,0,0,0,0,1,0,0,0,0,1,0,0,0,0,1]}]}},"vertices":[[0,0,0]]}&lf;&F;&lf;{"type":"CityJSONFeature","id":"b","CityObjects":{"b":{"type":"SolitaryVegetationObject","geometry":[{"type":"GeometryInstance","template":0,"boundaries":[0],"transformationMatrix":[1,0,0,0,0,1,0,0,0,0,1,0,0,0,0,1]}]}},"vertices":[[0,0,0]]}&lf;|line 6, byte 139: 28 template index out of range|5|4|-
template-past-the-list|1000|64|-|{"type":"CityJSON","version":"2.0","transform":{"scale":[0.001,0.001,0.001],"translate":[1000.0,2000.0,0.0]},"CityObjects":{},"vertices":[],"geometry-templates":{"templates":[{"type":"MultiSurface","lod":"1","boundaries":[[[0,1,2]]]}],"vertices-templates":[[0.0,0.0,0.0],[1.0,0.0,0.0],[0.0,1.0,0.0]]}}&lf;{"type":"CityJSONFeature","id":"b","CityObjects":{"b":{"type":"SolitaryVegetationObject","geometry":[{"type":"GeometryInstance","template":1,"boundaries":[0],"transformationMatrix":[1,0,0,0,0,1,0,0,0,0,1,0,0,0,0,1]}]}},"vertices":[[0,0,0]]}&lf;|{"type":"CityJSON","version":"2.0","transform":{"scale":[0.001,0.001,0.001],"translate":[1000.0,2000.0,0.0]},"CityObjects":{},"vertices":[],"geometry-templates":{"templates":[{"type":"MultiSurface","lod":"1","boundaries":[[[0,1,2]]]}],"vertices-templates":[[0.0,0.0,0.0],[1.0,0.0,0.0],[0.0,1.0,0.0]]}}&lf;|line 2, byte 139: 28 template index out of range|1|0|-
template-below-zero|1000|64|-|{"type":"CityJSON","version":"2.0","transform":{"scale":[0.001,0.001,0.001],"translate":[1000.0,2000.0,0.0]},"CityObjects":{},"vertices":[],"geometry-templates":{"templates":[{"type":"MultiSurface","lod":"1","boundaries":[[[0,1,2]]]}],"vertices-templates":[[0.0,0.0,0.0],[1.0,0.0,0.0],[0.0,1.0,0.0]]}}&lf;{"type":"CityJSONFeature","id":"b","CityObjects":{"b":{"type":"SolitaryVegetationObject","geometry":[{"type":"GeometryInstance","template":-1,"boundaries":[0],"transformationMatrix":[1,0,0,0,0,1,0,0,0,0,1,0,0,0,0,1]}]}},"vertices":[[0,0,0]]}&lf;|{"type":"CityJSON","version":"2.0","transform":{"scale":[0.001,0.001,0.001],"translate":[1000.0,2000.0,0.0]},"CityObjects":{},"vertices":[],"geometry-templates":{"templates":[{"type":"MultiSurface","lod":"1","boundaries":[[[0,1,2]]]}],"vertices-templates":[[0.0,0.0,0.0],[1.0,0.0,0.0],[0.0,1.0,0.0]]}}&lf;|line 2, byte 139: 28 template index out of range|1|0|-
template-of-no-list|1000|64|-|&H;&lf;{"type":"CityJSONFeature","id":"b","CityObjects":{"b":{"type":"SolitaryVegetationObject","geometry":[{"type":"GeometryInstance","template":0,"boundaries":[0],"transformationMatrix":[1,0,0,0,0,1,0,0,0,0,1,0,0,0,0,1]}]}},"vertices":[[0,0,0]]}&lf;|&H;&lf;|line 2, byte 139: 28 template index out of range|1|0|-
template-that-is-an-instance|1000|64|-|{"type":"CityJSON","version":"2.0","transform":{"scale":[0.001,0.001,0.001],"translate":[1000.0,2000.0,0.0]},"CityObjects":{},"vertices":[],"geometry-templates":{"templates":[{"type":"GeometryInstance"}],"vertices-templates":[[0.0,0.0,0.0],[1.0,0.0,0.0],[0.0,1.0,0.0]]}}&lf;||line 1, byte 183: 29 bad instance|0|0|-
matrix-of-15|1000|64|-|{"type":"CityJSON","version":"2.0","transform":{"scale":[0.001,0.001,0.001],"translate":[1000.0,2000.0,0.0]},"CityObjects":{},"vertices":[],"geometry-templates":{"templates":[{"type":"MultiSurface","lod":"1","boundaries":[[[0,1,2]]]}],"vertices-templates":[[0.0,0.0,0.0],[1.0,0.0,0.0],[0.0,1.0,0.0]]}}&lf;{"type":"CityJSONFeature","id":"b","CityObjects":{"b":{"type":"SolitaryVegetationObject","geometry":[{"type":"GeometryInstance","template":0,"boundaries":[0],"transformationMatrix":[1,0,0,0,0,1,0,0,0,0,1,0,0,0,0]}]}},"vertices":[[0,0,0]]}&lf;|{"type":"CityJSON","version":"2.0","transform":{"scale":[0.001,0.001,0.001],"translate":[1000.0,2000.0,0.0]},"CityObjects":{},"vertices":[],"geometry-templates":{"templates":[{"type":"MultiSurface","lod":"1","boundaries":[[[0,1,2]]]}],"vertices-templates":[[0.0,0.0,0.0],[1.0,0.0,0.0],[0.0,1.0,0.0]]}}&lf;|line 2, byte 181: 29 bad instance|1|0|-
matrix-of-17|1000|64|-|{"type":"CityJSON","version":"2.0","transform":{"scale":[0.001,0.001,0.001],"translate":[1000.0,2000.0,0.0]},"CityObjects":{},"vertices":[],"geometry-templates":{"templates":[{"type":"MultiSurface","lod":"1","boundaries":[[[0,1,2]]]}],"vertices-templates":[[0.0,0.0,0.0],[1.0,0.0,0.0],[0.0,1.0,0.0]]}}&lf;{"type":"CityJSONFeature","id":"b","CityObjects":{"b":{"type":"SolitaryVegetationObject","geometry":[{"type":"GeometryInstance","template":0,"boundaries":[0],"transformationMatrix":[1,0,0,0,0,1,0,0,0,0,1,0,0,0,0,1,0]}]}},"vertices":[[0,0,0]]}&lf;|{"type":"CityJSON","version":"2.0","transform":{"scale":[0.001,0.001,0.001],"translate":[1000.0,2000.0,0.0]},"CityObjects":{},"vertices":[],"geometry-templates":{"templates":[{"type":"MultiSurface","lod":"1","boundaries":[[[0,1,2]]]}],"vertices-templates":[[0.0,0.0,0.0],[1.0,0.0,0.0],[0.0,1.0,0.0]]}}&lf;|line 2, byte 181: 29 bad instance|1|0|-
instance-at-no-vertex|1000|64|-|{"type":"CityJSON","version":"2.0","transform":{"scale":[0.001,0.001,0.001],"translate":[1000.0,2000.0,0.0]},"CityObjects":{},"vertices":[],"geometry-templates":{"templates":[{"type":"MultiSurface","lod":"1","boundaries":[[[0,1,2]]]}],"vertices-templates":[[0.0,0.0,0.0],[1.0,0.0,0.0],[0.0,1.0,0.0]]}}&lf;{"type":"CityJSONFeature","id":"b","CityObjects":{"b":{"type":"SolitaryVegetationObject","geometry":[{"type":"GeometryInstance","template":0,"boundaries":[],"transformationMatrix":[1,0,0,0,0,1,0,0,0,0,1,0,0,0,0,1]}]}},"vertices":[[0,0,0]]}&lf;|{"type":"CityJSON","version":"2.0","transform":{"scale":[0.001,0.001,0.001],"translate":[1000.0,2000.0,0.0]},"CityObjects":{},"vertices":[],"geometry-templates":{"templates":[{"type":"MultiSurface","lod":"1","boundaries":[[[0,1,2]]]}],"vertices-templates":[[0.0,0.0,0.0],[1.0,0.0,0.0],[0.0,1.0,0.0]]}}&lf;|line 2, byte 154: 29 bad instance|1|0|-
instance-at-two-vertices|1000|64|-|{"type":"CityJSON","version":"2.0","transform":{"scale":[0.001,0.001,0.001],"translate":[1000.0,2000.0,0.0]},"CityObjects":{},"vertices":[],"geometry-templates":{"templates":[{"type":"MultiSurface","lod":"1","boundaries":[[[0,1,2]]]}],"vertices-templates":[[0.0,0.0,0.0],[1.0,0.0,0.0],[0.0,1.0,0.0]]}}&lf;{"type":"CityJSONFeature","id":"b","CityObjects":{"b":{"type":"SolitaryVegetationObject","geometry":[{"type":"GeometryInstance","template":0,"boundaries":[0,0],"transformationMatrix":[1,0,0,0,0,1,0,0,0,0,1,0,0,0,0,1]}]}},"vertices":[[0,0,0]]}&lf;|{"type":"CityJSON","version":"2.0","transform":{"scale":[0.001,0.001,0.001],"translate":[1000.0,2000.0,0.0]},"CityObjects":{},"vertices":[],"geometry-templates":{"templates":[{"type":"MultiSurface","lod":"1","boundaries":[[[0,1,2]]]}],"vertices-templates":[[0.0,0.0,0.0],[1.0,0.0,0.0],[0.0,1.0,0.0]]}}&lf;|line 2, byte 154: 29 bad instance|1|0|-
"#;

#[test]
fn templates_and_instances(rt: HostRuntime) -> Result<(), Fail> {
    check_rows(&rt, rt.alloc(), TEMPLATES_AND_INSTANCES)
}

/// 30: boxes.
const BOXES: &str = r#"
translate-too-fine|1000|64|bbox=0,0,1,1|{"type":"CityJSON","version":"2.0","transform":{"scale":[0.001,0.001,0.001],"translate":[1e-19,2000.0,0.0]},"CityObjects":{},"vertices":[]}&lf;&F;&lf;||line 1, byte 89: 30 transform not fixed|0|0|-
translate-just-not-too-fine|1000|64|bbox=0,2000,0.000000000000000001,2001|{"type":"CityJSON","version":"2.0","transform":{"scale":[0.001,0.001,0.001],"translate":[1e-18,2000.0,0.0]},"CityObjects":{},"vertices":[]}&lf;&F;&lf;|all|complete|2|1|349 65 8
translate-too-fine-and-no-box|1000|64|-|{"type":"CityJSON","version":"2.0","transform":{"scale":[0.001,0.001,0.001],"translate":[1e-19,2000.0,0.0]},"CityObjects":{},"vertices":[]}&lf;|all|complete|1|0|139 21 3
scale-too-great|1000|64|bbox=0,0,1,1|{"type":"CityJSON","version":"2.0","transform":{"scale":[1e18,0.001,0.001],"translate":[1000.0,2000.0,0.0]},"CityObjects":{},"vertices":[]}&lf;&F;&lf;||line 1, byte 57: 30 transform not fixed|0|0|-
second-scale-too-fine|1000|64|bbox=0,0,1,1|{"type":"CityJSON","version":"2.0","transform":{"scale":[0.001,0.0000000000000000001,0.001],"translate":[1000.0,2000.0,0.0]},"CityObjects":{},"vertices":[]}&lf;&F;&lf;||line 1, byte 63: 30 transform not fixed|0|0|-
third-scale-too-fine|1000|64|bbox=1001,2001,1005,2005|{"type":"CityJSON","version":"2.0","transform":{"scale":[0.001,0.001,1e-19],"translate":[1000.0,2000.0,0.0]},"CityObjects":{},"vertices":[]}&lf;&F;&lf;|all|complete|2|1|350 65 8
box-that-touches-a-corner|1000|64|bbox=1001,2001,1005,2005|&H;&lf;&F;&lf;|all|complete|2|1|350 65 8
box-just-beside-a-corner|1000|64|bbox=1001.000000000000000001,2001,1005,2005|&H;&lf;&F;&lf;|&H;&lf;|complete|2|0|350 65 8
box-and-a-scale-below-zero|1000|64|bbox=999,2000,999,2000|{"type":"CityJSON","version":"2.0","transform":{"scale":[-0.001,0.001,0.001],"translate":[1000.0,2000.0,0.0]},"CityObjects":{},"vertices":[]}&lf;&F;&lf;|all|complete|2|1|351 65 8
box-on-the-wrong-side|1000|64|bbox=1000.5,2000,1001,2001|{"type":"CityJSON","version":"2.0","transform":{"scale":[-0.001,0.001,0.001],"translate":[1000.0,2000.0,0.0]},"CityObjects":{},"vertices":[]}&lf;&F;&lf;|{"type":"CityJSON","version":"2.0","transform":{"scale":[-0.001,0.001,0.001],"translate":[1000.0,2000.0,0.0]},"CityObjects":{},"vertices":[]}&lf;|complete|2|0|351 65 8
box-and-a-product-too-great|1000|64|bbox=0,0,999999999999999999,0|{"type":"CityJSON","version":"2.0","transform":{"scale":[999999999999999999,999999999999999999,1],"translate":[0,0,0]},"CityObjects":{},"vertices":[]}&lf;{"type":"CityJSONFeature","id":"b","CityObjects":{"b":{"type":"Building"}},"vertices":[[999999999999999999,0,0]]}&lf;|{"type":"CityJSON","version":"2.0","transform":{"scale":[999999999999999999,999999999999999999,1],"translate":[0,0,0]},"CityObjects":{},"vertices":[]}&lf;|complete|2|0|263 38 3
box-between-two-products|1000|64|bbox=0,0,999999999999999999,0|{"type":"CityJSON","version":"2.0","transform":{"scale":[999999999999999999,999999999999999999,1],"translate":[0,0,0]},"CityObjects":{},"vertices":[]}&lf;{"type":"CityJSONFeature","id":"b","CityObjects":{"b":{"type":"Building"}},"vertices":[[-999999999999999999,0,0],[999999999999999999,0,0]]}&lf;|all|complete|2|1|289 42 3
"#;

#[test]
fn boxes(rt: HostRuntime) -> Result<(), Fail> {
    check_rows(&rt, rt.alloc(), BOXES)
}

/// 31: city objects apart.
const CITY_OBJECTS_APART: &str = r#"
one-apart|1000|64|tree|&H;&lf;{"type":"CityJSONFeature","id":"b","CityObjects":{"b":{"type":"Building"},"c":{"type":"Building"}},"vertices":[]}&lf;|&H;&lf;|line 2, byte 78: 31 not reached from the main object|1|0|-
one-apart-and-no-tree-asked|1000|64|-|&H;&lf;{"type":"CityJSONFeature","id":"b","CityObjects":{"b":{"type":"Building"},"c":{"type":"Building"}},"vertices":[]}&lf;|all|complete|2|1|253 38 3
one-apart-before-the-main-one|1000|64|tree|&H;&lf;{"type":"CityJSONFeature","id":"b","CityObjects":{"c":{"type":"Building"},"b":{"type":"Building"}},"vertices":[]}&lf;|&H;&lf;|line 2, byte 54: 31 not reached from the main object|1|0|-
one-apart-of-an-unknown-type|1000|64|tree|&H;&lf;{"type":"CityJSONFeature","id":"b","CityObjects":{"b":{"type":"Building"},"c":{"type":"Shed"}},"vertices":[]}&lf;|&H;&lf;|line 2, byte 78: 31 not reached from the main object|1|0|-
one-apart-asked-for-by-its-type|1000|64|tree type=Road|&H;&lf;{"type":"CityJSONFeature","id":"b","CityObjects":{"b":{"type":"Building"},"c":{"type":"Road"}},"vertices":[]}&lf;|&H;&lf;|line 2, byte 78: 31 not reached from the main object|1|0|-
a-circle-apart|1000|64|tree|&H;&lf;{"type":"CityJSONFeature","id":"b","CityObjects":{"b":{"type":"Building"},"c":{"type":"Building","children":["d"],"parents":["d"]},"d":{"type":"Building","children":["c"],"parents":["c"]}},"vertices":[]}&lf;|&H;&lf;|line 2, byte 78: 31 not reached from the main object|1|0|-
a-group-apart|1000|64|tree|&H;&lf;{"type":"CityJSONFeature","id":"b","CityObjects":{"b":{"type":"Building"},"g":{"type":"CityObjectGroup","children":["b"]}},"vertices":[]}&lf;|&H;&lf;|line 2, byte 78: 31 not reached from the main object|1|0|-
a-chain-from-the-end|1000|64|tree|&H;&lf;{"type":"CityJSONFeature","id":"b","CityObjects":{"q":{"type":"BuildingPart","parents":["p"]},"p":{"type":"BuildingPart","parents":["b"],"children":["q"]},"b":{"type":"Building","children":["p"]}},"vertices":[]}&lf;|all|complete|2|1|351 54 4
a-child-by-an-escape|1000|64|tree|&H;&lf;{"type":"CityJSONFeature","id":"b","CityObjects":{"b":{"type":"Building","children":["\u0070"]},"p":{"type":"BuildingPart","parents":["b"]}},"vertices":[]}&lf;|all|complete|2|1|295 44 4
"#;

#[test]
fn city_objects_apart(rt: HostRuntime) -> Result<(), Fail> {
    check_rows(&rt, rt.alloc(), CITY_OBJECTS_APART)
}

/// Ids, types and LoDs.
const IDS_TYPES_AND_LODS: &str = r#"
asked-for-by-its-id|1000|64|id=b1|&H;&lf;&F;&lf;|all|complete|2|1|350 65 8
asked-for-by-another-id|1000|64|id=b2|&H;&lf;&F;&lf;|&H;&lf;|complete|2|0|350 65 8
asked-for-by-one-of-two-ids|1000|64|id=b2 id=b1|&H;&lf;&F;&lf;|all|complete|2|1|350 65 8
asked-for-by-its-type|1000|64|type=Building|&H;&lf;&F;&lf;|all|complete|2|1|350 65 8
asked-for-by-its-lod|1000|64|lod=2.2|&H;&lf;&F;&lf;|all|complete|2|1|350 65 8
asked-for-by-a-front-of-its-lod|1000|64|lod=2|&H;&lf;&F;&lf;|&H;&lf;|complete|2|0|350 65 8
asked-for-by-its-lod-and-another-id|1000|64|lod=2.2 id=b2|&H;&lf;&F;&lf;|&H;&lf;|complete|2|0|350 65 8
"#;

#[test]
fn ids_types_and_lods(rt: HostRuntime) -> Result<(), Fail> {
    check_rows(&rt, rt.alloc(), IDS_TYPES_AND_LODS)
}
