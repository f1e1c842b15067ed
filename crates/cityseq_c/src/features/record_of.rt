//! The record of a feature: where it is in a part, and what is in it.
ghost use Rattle.std.specs.Prelude.{◌≡◌, ◌≤◌, Bool, IfSome, get_or, length, nat_lt, option_map, sum};
ghost use Rattle.std.specs.List.{flat_map};
ghost use Rattle.cj_spans.specs.View.{line_of, tree};
ghost use Rattle.cj_feature.specs.View.{feature_header, feature_line, feature_tree};
ghost use Rattle.cj_feature.specs.Meaning.CityObject.{object_geometries};
ghost use Rattle.cj_stream.specs.Meaning.Criteria.{objects_of};
ghost use Rattle.cj_stream.specs.Item.{feature_item};
ghost use Rattle.cj_stream.specs.Tallied.{capped, lod_classes, type_numbers};
ghost use Rattle.cityseq_c.specs.Features.{HasSpan, IsRecordOf, attributes_in, bits, is_among};
ghost use Rattle.cityseq_c.specs.Features.{main_object as main_object_in};

use crate::tally::{Range, range_of};
use cj_stream::{Feature, LOD_CLASSES, Node, TYPE_SLOTS, count_lods, slot_of, widen_all};

/// A kept feature, as C has it.
#[repr(C)]
#[derive(Clone, Copy, Debug)]
pub struct FeatureRecord {
    /// The number of its line in the header and the part, from 1.
    pub line: u64,
    /// Where its line begins in the part, in bytes from 0.
    pub begin: u64,
    /// The number of bytes of its line, without LF.
    pub length: u64,
    /// Where the string of its id begins in the line, in bytes from 0.
    pub id_begin: u64,
    /// The number of bytes of that string, with quotes and escapes.
    pub id_length: u64,
    /// Where the attributes of its main city object begin in the line, in bytes from 0. 0 if it has
    /// none.
    pub attributes_begin: u64,
    /// The number of bytes of these attributes. 0 if there are none.
    pub attributes_length: u64,
    /// The number of its city objects.
    pub objects: u64,
    /// The number of their geometries.
    pub geometries: u64,
    /// Bit n is set if a city object has the type of number n. The last one is for types of
    /// extensions.
    pub types: u64,
    /// Bit n is set if a geometry has an LoD of class n: 0 to 4, and 5 for any other.
    pub lods: u64,
    /// Its vertices on x, y and z, as the feature has them.
    pub ranges: [Range; 3],
}

/// Returns the number of city objects of a feature, and the number whose bit n is set if one of
/// them has the type of number n, of which the last is that of types of extensions. The count stops
/// at 2^64 - 1.
fn tally_objects(feature: &Feature) -> (u64, u64)
    ensures count { result.0 ≡ capped (length (objects_of (feature_tree feature.now))) }
    ensures types { result.1 ≡ bits (is_among (type_numbers (feature_tree feature.now))) TYPE_SLOTS }
{
    let mut count = 0u64;
    let mut types = 0u64;
    for object in feature.objects() {
        count = count.saturating_add(1);
        types |= 1 << slot_of(object.object_type);
    }
    (count, types)
}

/// Returns the sum of some counts. It stops at 2^64 - 1.
fn sum_of(counts: &[u64]) -> u64
    ensures { result ≡ capped (sum counts.now) }
{
    let mut total = 0u64;
    for count in counts {
        total = total.saturating_add(*count);
    }
    total
}

/// Returns the number whose bit n is set if the count at n is not 0.
fn bits_of(counts: &[u64]) -> u64
    requires { length counts.now ≤ 63 }
    ensures { result ≡ bits (λ n. nat_lt 0 (get_or counts.now n 0)) (length counts.now) }
{
    let mut bits = 0u64;
    let mut bit = 1u64;
    for count in counts {
        if *count > 0 {
            bits += bit;
        }
        bit *= 2;
    }
    bits
}

/// Returns the number of geometries of a feature, and the number whose bit n is set if one of them
/// has an LoD of class n. The count stops at 2^64 - 1.
fn tally_geometries(feature: &Feature) -> (u64, u64)
    ensures count { result.0 ≡ capped (length (flat_map object_geometries (objects_of (feature_tree feature.now)))) }
    ensures lods { result.1
        ≡ bits (is_among (lod_classes (feature_header feature.now) (feature_tree feature.now))) LOD_CLASSES }
{
    let mut counts = [0; LOD_CLASSES];
    count_lods(&mut counts, feature);
    (sum_of(&counts), bits_of(&counts))
}

/// Returns the main city object of a feature: the first one with the id of the feature.
fn main_object<'a>(feature: &Feature<'a>) -> Option<Node<'a>>
    ensures tree { option_map tree result ≡ main_object_in (feature_tree feature.now) }
    ensures line { IfSome result (λ n. line_of n ≡ feature_line feature.now) }
{
    let id = feature.id();
    for object in feature.objects() {
        if object.id.same_text(id) {
            return Some(object.node);
        }
    }
    None
}

/// Returns the attributes of the main city object of a feature. None if it has none.
fn attributes_of<'a>(feature: &Feature<'a>) -> Option<Node<'a>>
    ensures tree { option_map tree result ≡ attributes_in (feature_tree feature.now) }
    ensures line { IfSome result (λ n. line_of n ≡ feature_line feature.now) }
{
    match main_object(feature) {
        Some(object) => object.get("attributes"),
        None => None,
    }
}

/// Returns where the attributes of the main city object of a feature begin in the line, and how
/// many bytes they have. Both are 0 if there are none.
fn attributes_span(feature: &Feature) -> (u64, u64)
    ensures { HasSpan (feature_line feature.now) (attributes_in (feature_tree feature.now)) result.0 result.1 }
{
    match attributes_of(feature) {
        Some(attributes) => (attributes.start(), attributes.bytes().len() as u64),
        None => (0, 0),
    }
}

impl FeatureRecord {
    /// Returns the record of a feature. Its line has this number and begins at this byte of the
    /// part.
    pub fn of(line: u64, begin: u64, feature: &Feature) -> FeatureRecord
        ensures { (lf : Bool)
            → IsRecordOf (record { line = line; begin = begin; item = feature_item feature.now lf }) result }
    {
        let id = feature.id();
        let (attributes_begin, attributes_length) = attributes_span(feature);
        let (objects, types) = tally_objects(feature);
        let (geometries, lods) = tally_geometries(feature);
        let mut ranges = [None; 3];
        widen_all(&mut ranges, feature);
        let [x, y, z] = ranges;
        FeatureRecord {
            line,
            begin,
            length: feature.bytes().len() as u64,
            id_begin: id.start(),
            id_length: id.bytes().len() as u64,
            attributes_begin,
            attributes_length,
            objects,
            geometries,
            types,
            lods,
            ranges: [range_of(x), range_of(y), range_of(z)],
        }
    }
}
