//! Whether a feature has one of some ids, types or LoDs.
ghost use Rattle.std.specs.Prelude.{◌≡◌, codes, map, option_map, string_bytes};
ghost use Rattle.std.specs.Str.{chars};
ghost use Rattle.cj_spans.specs.Meaning.Parts.{member_of};
ghost use Rattle.cj_spans.specs.View.{tree};
ghost use Rattle.cj_feature.specs.HeaderView.{header_tree};
ghost use Rattle.cj_feature.specs.View.{feature_tree};
ghost use Rattle.cj_stream.specs.Meaning.Criteria.{there_is, is_one_of as is_one, has_id as id_holds};
ghost use Rattle.cj_stream.specs.Meaning.Criteria.{is_of_type as is_of, has_type as type_holds, has_lod as lod_holds};
ghost use Rattle.cj_stream.specs.Query.{types_of};

use crate::query::ids::Ids;
use crate::query::types::Types;
use cj_feature::{CityObject, Feature, Header};
use cj_geometry::{Lods, lod_of};
use cj_spans::Node;

/// Returns whether the text of a node is one of these.
fn is_one_of(texts: &[String], node: Node) -> bool
    ensures { result ≡ is_one (map string_bytes texts.now) (tree node.entry) }
{
    for text in texts {
        if node.text_is(text.as_str()) {
            return true;
        }
    }
    false
}

/// Returns whether the id of a feature is one of these.
pub fn has_id(ids: &Ids, feature: &Feature) -> bool
    ensures { result ≡ id_holds ids.now (feature_tree feature.now) }
{
    ids.has(feature.id())
}

/// Returns whether the type of a city object is one of these texts.
#[inline(never)]
fn has_type_text(texts: &[String], object: Node) -> bool
    ensures { result ≡ there_is (is_one (map string_bytes texts.now))
        (member_of (chars (codes "type")) (tree object.entry)) }
{
    match object.get("type") {
        Some(name) => is_one_of(texts, name),
        None => false,
    }
}

/// Returns whether the type of a city object is one of these. A type with a row needs no look at
/// texts, and without texts no type of an extension is looked at.
#[inline(always)]
fn is_of_type(types: &Types, object: CityObject) -> bool
    ensures { result ≡ is_of (types_of types.now) (tree object.entry.node) }
{
    match object.object_type {
        Some(object_type) => types.known[object_type.number() as usize],
        None => {
            !types.extensions.is_empty() && has_type_text(types.extensions.as_slice(), object.node)
        }
    }
}

/// Returns whether the type of some city object is one of these.
pub fn has_type(types: &Types, feature: &Feature) -> bool
    ensures { result ≡ type_holds (types_of types.now) (feature_tree feature.now) }
{
    for object in feature.objects() {
        if is_of_type(types, object) {
            return true;
        }
    }
    false
}

/// Returns whether there is an LoD, and it is one of these.
fn is_one_lod(lods: &[String], lod: Option<Node>) -> bool
    ensures { result ≡ there_is (is_one (map string_bytes lods.now)) (option_map tree lod.entry) }
{
    match lod {
        Some(lod) => is_one_of(lods, lod),
        None => false,
    }
}

/// Returns whether the LoD of some geometry is one of these. It looks up each LoD on its own.
fn has_lod_alone(lods: &[String], feature: &Feature, header: &Header) -> bool
    ensures { result ≡ lod_holds (map string_bytes lods.now) (header_tree header.now) (feature_tree feature.now) }
{
    let templates = header.templates();
    for geometry in feature.geometries() {
        if is_one_lod(lods, lod_of(geometry, templates)) {
            return true;
        }
    }
    false
}

/// Does the same, and keeps the results of earlier look-ups. They take some 8 KiB of the stack,
/// which takes time to fill.
#[inline(never)]
fn has_lod_together(lods: &[String], feature: &Feature, header: &Header) -> bool
    ensures { result ≡ lod_holds (map string_bytes lods.now) (header_tree header.now) (feature_tree feature.now) }
{
    let mut known = Lods::beside(header.templates());
    for geometry in feature.geometries() {
        if is_one_lod(lods, known.lod_of(geometry)) {
            return true;
        }
    }
    false
}

/// Returns whether the LoD of some geometry is one of these. An instance has the LoD of its
/// template.
pub fn has_lod(lods: &[String], feature: &Feature, header: &Header) -> bool
    ensures { result ≡ lod_holds (map string_bytes lods.now) (header_tree header.now) (feature_tree feature.now) }
{
    if header.templates().is_empty() {
        has_lod_alone(lods, feature, header)
    } else {
        has_lod_together(lods, feature, header)
    }
}
