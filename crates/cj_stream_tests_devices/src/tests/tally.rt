//! What is tallied of a stream.
use super::calls::check_bytes;
use super::steps::{Opening, Step, check_steps};
use cj_budget::Limits;
use cj_feature::{CityObject, Feature, Header};
use cj_stream::{
    End, LineSink, NoReports, ObjectType, Options, Outcome, Query, TallySink, WriteFault,
};
use cj_stream_testkit::{FEATURE, Reading, SlowReader, joined, ran, ran_to};
use std::alloc::{AllocError, Global};
use std::process::Abort;
use std::test::Fail;

/// A header with a template whose LoD has the class 3.
const TEMPLATES: &str =
    r#"{"type":"CityJSON","version":"2.0","transform":{"scale":[0.001,0.001,0.002],"translate":[1000.0,2000.0,0.0]},"CityObjects":{},"vertices":[],"geometry-templates":{"templates":[{"type":"MultiSurface","lod":"\u0033.1","boundaries":[[[0,1,2]]]}],"vertices-templates":[[0.0,0.0,0.0],[1.0,0.0,0.0],[0.0,1.0,0.0]]}}"#;

/// A feature with an instance of the template, and with LoDs of the classes 4 and other.
const TREE: &str =
    r#"{"type":"CityJSONFeature","id":"t","CityObjects":{"t":{"type":"SolitaryVegetationObject","geometry":[{"type":"GeometryInstance","template":0,"boundaries":[0],"transformationMatrix":[1,0,0,0,0,1,0,0,0,0,1,0,0,0,0,1]},{"type":"MultiPoint","lod":"\u0034.2","boundaries":[0]},{"type":"MultiPoint","lod":"5","boundaries":[0]},{"type":"MultiPoint","lod":"","boundaries":[0]}]},"p":{"type":"BuildingPart","parents":["b"]},"b":{"type":"Building","children":["p"]}},"vertices":[[-1,2e1,3.0],[0,0,-7]]}"#;

/// The tally of this header, the feature of the rows, and that one.
const TALLY: &str = "features 2
lods 0 0 1 1 1 2
-1 to 1000
0 to 1000
-7 to 3
1e-3
1e-3
2e-3
1e3
2e3
0e0
";

/// After each feature, the counts so far of the types of its city objects.
const TYPES: &str = " 1 1 1 2";

/// The tally of nothing.
const NOTHING: &str = "features 0\nlods 0 0 0 0 0 0\n";

/// Adds the counts by class, on one line.
fn add_lods(alloc: Global, tally: &TallySink, text: &mut String) -> Result<(), AllocError> {
    text.push_str("lods")?;
    for class in 0u8..6 {
        let count = format!(in alloc; " {}", tally.by_lod(class))?;
        text.push_str(&count)?;
    }
    text.push_str("\n")
}

/// Adds the range of each axis that has one, on one line.
fn add_ranges(alloc: Global, tally: &TallySink, text: &mut String) -> Result<(), AllocError> {
    for axis in 0usize..3 {
        if let Some((least, greatest)) = tally.range(axis) {
            let line = format!(in alloc; "{least} to {greatest}\n")?;
            text.push_str(&line)?;
        }
    }
    Ok(())
}

/// Adds the numbers of the transform, if there is one.
fn add_transform(alloc: Global, tally: &TallySink, text: &mut String) -> Result<(), AllocError> {
    if let Some(numbers) = tally.scale() {
        for number in numbers {
            let part = format!(in alloc; "{}e{}\n", number.coefficient(), number.power())?;
            text.push_str(&part)?;
        }
    }
    if let Some(numbers) = tally.translate() {
        for number in numbers {
            let part = format!(in alloc; "{}e{}\n", number.coefficient(), number.power())?;
            text.push_str(&part)?;
        }
    }
    Ok(())
}

/// Returns a tally as a text.
fn report(alloc: Global, tally: &TallySink) -> Result<String, AllocError> {
    let mut text = format!(in alloc; "features {}\n", tally.features())?;
    add_lods(alloc, tally, &mut text)?;
    add_ranges(alloc, tally, &mut text)?;
    add_transform(alloc, tally, &mut text)?;
    Ok(text)
}

/// Returns the header, the feature of the rows, and the one with an instance.
fn sample(alloc: Global) -> Result<Vec<u8>, Fail> {
    Ok(joined(
        alloc,
        &[
            TEMPLATES.as_bytes(),
            b"\n",
            FEATURE,
            b"\n",
            TREE.as_bytes(),
            b"\n",
        ],
    )?)
}

/// Tallies, and notes after each feature the counts of the types of its city objects. It never
/// fails: if memory is refused, it notes that it has lost something.
#[derive(Drop)]
struct TypesSink {
    alloc: Global,
    tally: TallySink,
    notes: String,
    lost: bool,
}

/// Returns the count of the type of this city object.
fn type_note(alloc: Global, tally: &TallySink, object: CityObject) -> Result<String, AllocError> {
    match object.object_type {
        Some(object_type) => format!(in alloc; " {}", tally.by_type(object_type)),
        None => format!(in alloc; " +{}", tally.of_extensions()),
    }
}

fn types_note(alloc: Global, tally: &TallySink, feature: &Feature) -> Result<String, AllocError> {
    let mut notes = String::new(alloc);
    for object in feature.objects() {
        notes.push_str(&type_note(alloc, tally, object)?)?;
    }
    Ok(notes)
}

impl LineSink for TypesSink {
    ghost use Rattle.std.specs.Prelude.{⊤};

    ghost law = { record { takes = λ a i b. ⊤; leaves = λ a i b. ⊤; failures = λ s. 0 } };

    fn header(&mut self, _header: &Header<'_>, _lf: bool) -> Result<(), WriteFault> {
        Ok(())
    }

    fn put(&mut self, feature: &Feature<'_>, lf: bool) -> Result<(), WriteFault> {
        self.lost = self.lost || self.tally.put(feature, lf).is_err();
        let taken = match types_note(self.alloc, &self.tally, feature) {
            Ok(text) => self.notes.push_str(&text).is_ok(),
            Err(AllocError) => false,
        };
        self.lost = self.lost || !taken;
        Ok(())
    }
}

/// Tallies the stream cut in two at this place.
fn check_cut(rt: &impl Abort, alloc: Global, text: &[u8], at: usize) -> Result<(), Fail> {
    assert!(rt; at <= text.len());
    let steps = [
        Step::Feed(&text[..at], Ok(())),
        Step::Feed(&text[at..], Ok(())),
        Step::Finish(End::Complete),
    ];
    let mut tally = TallySink::new();
    check_steps(rt, alloc, &Opening::usual(), &steps, &mut tally)?;
    let told = report(alloc, &tally)?;
    check_bytes(rt, told.as_bytes(), TALLY.as_bytes(), "pieces", at as u64);
    Ok(())
}

#[test]
fn a_stream_is_tallied(rt: HostRuntime) -> Result<(), Fail> {
    let text = sample(rt.alloc())?;
    let mut tally = TallySink::new();
    let _ = ran_to(rt.alloc(), &text, 100, &mut tally);
    let told = report(rt.alloc(), &tally)?;
    check_bytes(&rt, told.as_bytes(), TALLY.as_bytes(), "stream", 0);
    Ok(())
}

/// Returns the tally of the header of the sample and of one feature.
fn tally_of(alloc: Global, feature: &[u8]) -> Result<TallySink, Fail> {
    let text = joined(alloc, &[TEMPLATES.as_bytes(), b"\n", feature, b"\n"])?;
    let mut tally = TallySink::new();
    let _ = ran_to(alloc, &text, 100, &mut tally);
    Ok(tally)
}

#[test]
fn parts_are_tallied(rt: HostRuntime) -> Result<(), Fail> {
    let first = tally_of(rt.alloc(), FEATURE)?;
    let second = tally_of(rt.alloc(), TREE.as_bytes())?;
    let told = report(rt.alloc(), &first.then(&second))?;
    check_bytes(&rt, told.as_bytes(), TALLY.as_bytes(), "parts", 0);
    Ok(())
}

#[test]
fn pieces_are_tallied(rt: HostRuntime) -> Result<(), Fail> {
    let text = sample(rt.alloc())?;
    check_cut(&rt, rt.alloc(), &text, 300)
}

#[test]
fn nothing_is_tallied(rt: HostRuntime) -> Result<(), Fail> {
    let told = report(rt.alloc(), &TallySink::new())?;
    check_bytes(&rt, told.as_bytes(), NOTHING.as_bytes(), "nothing", 0);
    Ok(())
}

#[test]
fn city_objects_are_tallied_by_type(rt: HostRuntime) -> Result<(), Fail> {
    let text = sample(rt.alloc())?;
    let mut sink = TypesSink {
        alloc: rt.alloc(),
        tally: TallySink::new(),
        notes: String::new(rt.alloc()),
        lost: false,
    };
    let _ = ran_to(rt.alloc(), &text, 100, &mut sink);
    assert!(&rt; !sink.lost);
    check_bytes(&rt, sink.notes.as_bytes(), TYPES.as_bytes(), "types", 0);
    Ok(())
}

/// A header without templates.
const PLAIN: &str =
    r#"{"type":"CityJSON","version":"2.0","transform":{"scale":[1,1,1],"translate":[0,0,0]},"CityObjects":{},"vertices":[]}"#;

/// Two features of that header, and the ranges of their vertices.
struct RangeRow {
    name: &'static str,
    first: &'static str,
    second: &'static str,
    ranges: &'static str,
}

/// In the second feature the vertices are at the start of the line.
const RANGES: [RangeRow; 22] = [
    RangeRow {
        name: "no vertex",
        first: "[]",
        second: "[]",
        ranges: "",
    },
    RangeRow {
        name: "one vertex, after none",
        first: "[]",
        second: "[[1,20,300]]",
        ranges: "1 to 1\n20 to 20\n300 to 300\n",
    },
    RangeRow {
        name: "none, after one vertex",
        first: "[[1,20,300]]",
        second: "[]",
        ranges: "1 to 1\n20 to 20\n300 to 300\n",
    },
    RangeRow {
        name: "a feature inside the earlier one",
        first: "[[0,0,0],[9,10,11]]",
        second: "[[0,10,1],[9,0,2]]",
        ranges: "0 to 9\n0 to 10\n0 to 11\n",
    },
    RangeRow {
        name: "less on x",
        first: "[[5,5,5],[9,9,9]]",
        second: "[[4,6,7]]",
        ranges: "4 to 9\n5 to 9\n5 to 9\n",
    },
    RangeRow {
        name: "more on x",
        first: "[[5,5,5],[9,9,9]]",
        second: "[[10,6,7]]",
        ranges: "5 to 10\n5 to 9\n5 to 9\n",
    },
    RangeRow {
        name: "less on y",
        first: "[[5,5,5],[9,9,9]]",
        second: "[[6,4,7]]",
        ranges: "5 to 9\n4 to 9\n5 to 9\n",
    },
    RangeRow {
        name: "more on y",
        first: "[[5,5,5],[9,9,9]]",
        second: "[[6,10,7]]",
        ranges: "5 to 9\n5 to 10\n5 to 9\n",
    },
    RangeRow {
        name: "less on z",
        first: "[[5,5,5],[9,9,9]]",
        second: "[[6,7,4]]",
        ranges: "5 to 9\n5 to 9\n4 to 9\n",
    },
    RangeRow {
        name: "more on z",
        first: "[[5,5,5],[9,9,9]]",
        second: "[[6,7,10]]",
        ranges: "5 to 9\n5 to 9\n5 to 10\n",
    },
    RangeRow {
        name: "a minus",
        first: "[[1,-2,3],[4,5,6]]",
        second: "[[7,8,9],[10,11,-12]]",
        ranges: "1 to 10\n-2 to 11\n-12 to 9\n",
    },
    RangeRow {
        name: "eight digits, then nine",
        first: "[[99999999,12345678,87654321]]",
        second: "[[100000000,12345679,87654320],[3,20000000,90000000]]",
        ranges: "3 to 100000000\n12345678 to 20000000\n87654320 to 90000000\n",
    },
    RangeRow {
        name: "nine digits, then eight",
        first: "[[0,123456789,1],[10000000,2,3]]",
        second: "[[0,3,2]]",
        ranges: "0 to 10000000\n2 to 123456789\n1 to 3\n",
    },
    RangeRow {
        name: "other spellings",
        first: "[[1e1,2.0,3]]",
        second: "[[4,50E-1,6],[1E+2,0,-0]]",
        ranges: "4 to 100\n0 to 5\n0 to 6\n",
    },
    RangeRow {
        name: "0 alone",
        first: "[]",
        second: "[[0,0,0]]",
        ranges: "0 to 0\n0 to 0\n0 to 0\n",
    },
    RangeRow {
        name: "a minus on x of the first vertex",
        first: "[[-1,2,3],[4,5,6]]",
        second: "[]",
        ranges: "-1 to 4\n2 to 5\n3 to 6\n",
    },
    RangeRow {
        name: "a minus on y of the only vertex",
        first: "[[1,-2,3]]",
        second: "[]",
        ranges: "1 to 1\n-2 to -2\n3 to 3\n",
    },
    RangeRow {
        name: "a minus on z of the only vertex",
        first: "[[1,2,-3]]",
        second: "[]",
        ranges: "1 to 1\n2 to 2\n-3 to -3\n",
    },
    RangeRow {
        name: "a minus on z of the last vertex, more on x and less on y",
        first: "[[5,5,5],[6,4,-7]]",
        second: "[]",
        ranges: "5 to 6\n4 to 5\n-7 to 5\n",
    },
    RangeRow {
        name: "nine digits in the second vertex",
        first: "[[1,2,3],[4,123456789,6]]",
        second: "[[0,7,8]]",
        ranges: "0 to 4\n2 to 123456789\n3 to 8\n",
    },
    RangeRow {
        name: "less than 0 before, more on z",
        first: "[[-5,-5,-5],[9,9,9]]",
        second: "[[0,9,10]]",
        ranges: "-5 to 9\n-5 to 9\n-5 to 10\n",
    },
    RangeRow {
        name: "1 before, then 0",
        first: "[[1,1,1]]",
        second: "[[1,0,1]]",
        ranges: "1 to 1\n0 to 1\n1 to 1\n",
    },
];

/// Tallies two features with these vertices.
fn check_ranges(rt: &impl Abort, alloc: Global, row: &RangeRow) -> Result<(), Fail> {
    let text = joined(
        alloc,
        &[
            PLAIN.as_bytes(),
            br#"
{"type":"CityJSONFeature","id":"a","CityObjects":{"a":{"type":"Road"}},"vertices":"#,
            row.first.as_bytes(),
            br#"}
{"vertices":"#,
            row.second.as_bytes(),
            br#","type":"CityJSONFeature","id":"a","CityObjects":{"a":{"type":"Road"}}}"#,
        ],
    )?;
    let mut tally = TallySink::new();
    let _ = ran_to(alloc, &text, 100, &mut tally);
    assert!(rt; tally.features() == 2);
    let mut told = String::new(alloc);
    add_ranges(alloc, &tally, &mut told)?;
    check_bytes(rt, told.as_bytes(), row.ranges.as_bytes(), row.name, 0);
    Ok(())
}

#[test]
fn ranges_are_widened(rt: HostRuntime) -> Result<(), Fail> {
    for row in &RANGES {
        check_ranges(&rt, rt.alloc(), row)?;
    }
    Ok(())
}

/// A feature beside no templates. Its LoDs have the classes 2, 0, other and 1.
const OWN: &str =
    r#"{"type":"CityJSONFeature","id":"t","CityObjects":{"t":{"type":"Road","geometry":[{"type":"MultiPoint","lod":"2.2","boundaries":[0]},{"lod":"\u0030","boundaries":[0],"type":"MultiPoint"}]},"u":{"geometry":[],"type":"Tunnel"},"v":{"type":"Bridge"},"w":{"geometry":[{"type":"MultiPoint","boundaries":[0],"lod":"9"},{"type":"MultiPoint","lod":"1","boundaries":[0]}],"type":"Road"}},"vertices":[[1,2,3]]}"#;

/// The tally of that feature, twice.
const OWN_TALLY: &str =
    "features 2\nlods 2 2 2 0 0 2\n1 to 1\n2 to 2\n3 to 3\n1e0\n1e0\n1e0\n0e0\n0e0\n0e0\n";

#[test]
fn own_lods_are_tallied(rt: HostRuntime) -> Result<(), Fail> {
    let own = OWN.as_bytes();
    let text = joined(rt.alloc(), &[PLAIN.as_bytes(), b"\n", own, b"\n", own])?;
    let mut tally = TallySink::new();
    let _ = ran_to(rt.alloc(), &text, 100, &mut tally);
    let told = report(rt.alloc(), &tally)?;
    check_bytes(&rt, told.as_bytes(), OWN_TALLY.as_bytes(), "own", 0);
    assert!(&rt; tally.by_type(ObjectType::Road) == 4 && tally.by_type(ObjectType::Tunnel) == 2);
    Ok(())
}

/// A feature with three city objects of extensions, and one of the table.
const SHEDS: &str =
    r#"{"type":"CityJSONFeature","id":"s","CityObjects":{"s":{"type":"+Shed"},"t":{"type":"\u002bShed"},"b":{"type":"Bridge"},"u":{"type":"+Bridge"}},"vertices":[]}"#;

/// Tallies this feature, twice. Types of extensions are known, or not.
fn sheds(alloc: Global, extensions: bool, tally: &mut TallySink) -> Result<Outcome, Fail> {
    let own = SHEDS.as_bytes();
    let text = joined(alloc, &[PLAIN.as_bytes(), b"\n", own, b"\n", own])?;
    let query = Query::all(alloc);
    let reading = Reading {
        options: Options::new().extensions(extensions),
        ..Reading::usual(Limits::usual(), &query)
    };
    let mut reader = SlowReader::new(&text, 100);
    Ok(ran(alloc, &mut reader, tally, &mut NoReports, &reading))
}

#[test]
fn types_of_extensions_are_tallied(rt: HostRuntime) -> Result<(), Fail> {
    let mut tally = TallySink::new();
    let outcome = sheds(rt.alloc(), true, &mut tally)?;
    assert!(&rt; outcome.kept == 2 && tally.of_extensions() == 6);
    assert!(&rt; tally.by_type(ObjectType::Bridge) == 2 && tally.types()[33] == 6);
    Ok(())
}

#[test]
fn unknown_types_are_not_tallied(rt: HostRuntime) -> Result<(), Fail> {
    let mut tally = TallySink::new();
    let outcome = sheds(rt.alloc(), false, &mut tally)?;
    assert!(&rt; outcome.kept == 0 && tally.of_extensions() == 0);
    assert!(&rt; tally.by_type(ObjectType::Bridge) == 0);
    Ok(())
}
