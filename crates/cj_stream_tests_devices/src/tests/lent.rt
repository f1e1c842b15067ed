//! What a sink borrows: the header, and each feature by itself, with the contents of their lines.
use super::calls::{check_at, check_bytes};
use cj_feature::{Feature, Header};
use cj_stream::{CountSink, End, IgnoreSink, LineSink, WriteFault};
use cj_stream_testkit::{FEATURE, STREAM, held, joined, outcome, ran_to};
use std::alloc::{AllocError, Global};
use std::process::Abort;
use std::test::Fail;

/// A feature of three vertices, with a part and its parent. Only the part has geometries.
const PARTS: &[u8] =
    b"{\"type\":\"CityJSONFeature\",\"id\":\"\\u0070\",\"CityObjects\":{\"q\":{\"type\":\"Building\",\"children\":[\"p\"]},\"p\":{\"type\":\"BuildingPart\",\"parents\":[\"q\"],\"geometry\":[{\"type\":\"MultiPoint\",\"lod\":\"0\",\"boundaries\":[2]},{\"type\":\"MultiSurface\",\"lod\":\"1\",\"boundaries\":[[[0,1,2]]]}]}},\"vertices\":[[-1,2,3],[4e0,5.0,6],[7,8,9]]}";

/// Notes what it borrows. It never fails: if memory is refused, it notes that it has lost
/// something.
#[derive(Drop)]
struct NoteSink {
    alloc: Global,
    notes: String,
    lost: bool,
}

impl NoteSink {
    fn note(&mut self, note: Result<String, AllocError>) {
        let taken = match note {
            Ok(text) => self.notes.push_str(&text).is_ok(),
            Err(AllocError) => false,
        };
        self.lost = self.lost || !taken;
    }
}

/// Returns the header's scale and translation, each number by its coefficient and power of ten.
fn header_note(alloc: Global, header: &Header, lf: bool) -> Result<String, AllocError> {
    let mut note = String::from_str(alloc, "header")?;
    for number in header.scale() {
        let text = format!(in alloc; " {}e{}", number.coefficient(), number.power())?;
        note.push_str(&text)?;
    }
    for number in header.translate() {
        let text = format!(in alloc; " {}e{}", number.coefficient(), number.power())?;
        note.push_str(&text)?;
    }
    let last = format!(in alloc; " lf {lf}\n")?;
    note.push_str(&last)?;
    Ok(note)
}

/// Returns the types of the city objects.
fn objects_note(alloc: Global, feature: &Feature) -> Result<String, AllocError> {
    let mut note = String::new(alloc);
    let mut count = 0u64;
    for object in feature.objects() {
        count = count.saturating_add(1);
        note.push_str(" ")?;
        match object.object_type {
            Some(object_type) => note.push_str(object_type.name())?,
            None => note.push_str("+")?,
        }
    }
    format!(in alloc; " objects {count}{note}")
}

/// Returns how many geometries there are.
fn geometries_note(alloc: Global, feature: &Feature) -> Result<String, AllocError> {
    let mut count = 0u64;
    for _geometry in feature.geometries() {
        count = count.saturating_add(1);
    }
    format!(in alloc; " geometries {count}")
}

fn vertices_note(alloc: Global, feature: &Feature) -> Result<String, AllocError> {
    let mut note = String::from_str(alloc, " vertices")?;
    for [x, y, z] in feature.vertices() {
        let text = format!(in alloc; " {x},{y},{z}")?;
        note.push_str(&text)?;
    }
    Ok(note)
}

/// Returns the feature's id as it is spelled, its city objects, geometries and vertices.
fn feature_note(alloc: Global, feature: &Feature, lf: bool) -> Result<String, AllocError> {
    let id = String::from_utf8_lossy(alloc, feature.id().bytes())?;
    let objects = objects_note(alloc, feature)?;
    let geometries = geometries_note(alloc, feature)?;
    let vertices = vertices_note(alloc, feature)?;
    format!(in alloc; "feature {id}{objects}{geometries}{vertices} lf {lf}\n")
}

impl LineSink for NoteSink {
    ghost use Rattle.std.specs.Prelude.{⊤};

    ghost law = { record { takes = λ a i b. ⊤; leaves = λ a i b. ⊤; failures = λ s. 0 } };

    fn header(&mut self, header: &Header<'_>, lf: bool) -> Result<(), WriteFault> {
        self.note(header_note(self.alloc, header, lf));
        Ok(())
    }

    fn put(&mut self, feature: &Feature<'_>, lf: bool) -> Result<(), WriteFault> {
        self.note(feature_note(self.alloc, feature, lf));
        Ok(())
    }
}

fn check_notes(rt: &impl Abort, alloc: Global, text: &[u8], step: usize, wanted: &str) {
    let mut sink = NoteSink {
        alloc,
        notes: String::new(alloc),
        lost: false,
    };
    let _ = ran_to(alloc, text, step, &mut sink);
    assert!(rt; !sink.lost);
    check_bytes(
        rt,
        sink.notes.as_bytes(),
        wanted.as_bytes(),
        "notes",
        step as u64,
    );
}

/// What the sink borrows of the header and both features.
const NOTES: &str = r#"header 1e-3 1e-3 1e-3 1e3 2e3 0e0 lf true
feature "b1" objects 1 Building geometries 1 vertices 0,0,0 1000,0,0 1000,1000,0 0,1000,0 lf true
feature "\u0070" objects 2 Building BuildingPart geometries 2 vertices -1,2,3 4,5,6 7,8,9 lf false
"#;

/// What the sink borrows of the second feature is of its own line, not of the first one's.
#[test]
fn a_sink_is_lent_the_header_and_each_feature(rt: HostRuntime) -> Result<(), Fail> {
    let text = joined(rt.alloc(), &[STREAM, PARTS])?;
    check_notes(&rt, rt.alloc(), &text, 8_192, NOTES);
    check_notes(&rt, rt.alloc(), &text, 1, NOTES);
    Ok(())
}

#[test]
fn a_sink_counts_headers_and_features(rt: HostRuntime) -> Result<(), Fail> {
    let text = joined(rt.alloc(), &[STREAM, b"\n", FEATURE, b"\n"])?;
    let mut sink = CountSink {
        headers: 0,
        features: 0,
    };
    let told = ran_to(rt.alloc(), &text, 100, &mut sink);
    let wanted = outcome(4, 2, held(350, 65, 8), End::Complete);
    check_at(&rt, told, wanted, "counts", 0);
    assert_eq!(&rt;
        sink,
        CountSink {
            headers: 1,
            features: 2
        }
    );
    Ok(())
}

#[test]
fn a_sink_ignores_what_it_is_lent(rt: HostRuntime) {
    let told = ran_to(rt.alloc(), &STREAM[..351], 100, &mut IgnoreSink);
    let wanted = outcome(2, 1, held(350, 65, 8), End::Complete);
    check_at(&rt, told, wanted, "ignored", 0);
}
