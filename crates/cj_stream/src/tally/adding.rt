//! What a feature adds to a tally.
ghost use Rattle.std.specs.Prelude.{◌≡◌, ◌∷◌, [], ◌<◌, ◌⊎◌, ℕ, ℤ, List, Option, get_or, map, None, option_map, pos};
ghost use Rattle.std.specs.Prelude.{Some, IsTrue, codes};
ghost use Rattle.std.specs.List.{flat_map};
ghost use Rattle.std.specs.Str.{chars};
ghost use Rattle.cj_decimal.specs.Word.{IsWordOf};
ghost use Rattle.cj_spans.specs.Meaning.Parts.{member_of, items_if};
ghost use Rattle.cj_spans.specs.View.{tree};
ghost use Rattle.cj_geometry.specs.ObjectTypes.{row_at};
ghost use Rattle.cj_feature.specs.Meaning.CityObject.{object_geometries};
ghost use Rattle.cj_feature.specs.Axes.{number_on};
ghost use Rattle.cj_feature.specs.View.{feature_tree, feature_header};
ghost use Rattle.cj_feature.specs.Walks.{vertices_left};
ghost use Rattle.cj_stream.specs.Meaning.Criteria.{objects_of};
ghost use Rattle.cj_stream.specs.Parts.{wider as wider_range, WidensFront};
ghost use Rattle.cj_stream.specs.Tallied.{class_of as lod_class, type_numbers, lod_classes, numbers_on};
ghost use Rattle.cj_stream.specs.Tallied.{own_classes, row_number};
ghost use Rattle.cj_stream.specs.TallySink.{AreWordsOf, RisesBy, TakesNumber, TakesSome, Widens};

use super::joining::join_ranges;
use super::{LOD_CLASSES, TYPE_SLOTS};
use cj_decimal::word_value;
use cj_feature::{Feature, Vertices};
use cj_geometry::{Lods, ObjectType};
use cj_spans::Node;

/// The class of an LoD that does not begin with `0` to `4`, and of a missing LoD.
const OTHER: usize = 5;

/// The code points of `0` and `4`, the first characters of the other classes.
const FIRST: u32 = 48;

const LAST: u32 = 52;

/// Returns the class of an LoD, if there is one.
fn class_of(lod: Option<Node>) -> usize
    ensures class { result ≡ lod_class (option_map tree lod.entry) }
    ensures below { result < LOD_CLASSES }
{
    match lod {
        Some(node) => match node.first_code() {
            Some(code) if code >= FIRST && code <= LAST => (code - FIRST) as usize,
            _ => OTHER,
        },
        None => OTHER,
    }
}

/// Returns the number of the count of a type. That of types of extensions is the last.
#[inline(always)]
pub fn slot_of(object_type: Option<ObjectType>) -> usize
    ensures number { result ≡ row_number (option_map row_at object_type) }
    ensures below { result < TYPE_SLOTS }
{
    match object_type {
        Some(object_type) => object_type.number() as usize,
        None => ObjectType::COUNT,
    }
}

/// Counts the city objects of a feature by their types.
fn count_types(counts: &mut [u64; TYPE_SLOTS], feature: &Feature)
    ensures { RisesBy TYPE_SLOTS counts.old (type_numbers (feature_tree feature.now)) counts.new }
{
    for object in feature.objects() {
        let number = slot_of(object.object_type);
        counts[number] = counts[number].saturating_add(1);
    }
}

/// Counts the geometries of a city object by the classes of their own LoDs.
#[inline(always)]
fn count_own(counts: &mut [u64; LOD_CLASSES], object: Node)
    ensures { RisesBy LOD_CLASSES counts.old
        (own_classes (items_if (member_of (chars (codes "geometry")) (tree object.entry)))) counts.new }
{
    if let Some(list) = object.get("geometry") {
        for geometry in list.items() {
            let class = class_of(geometry.get("lod"));
            counts[class] = counts[class].saturating_add(1);
        }
    }
}

/// Counts the city objects of a feature by their types, and its geometries by the classes of their
/// own LoDs.
#[inline(always)]
fn count_plain(types: &mut [u64; TYPE_SLOTS], lods: &mut [u64; LOD_CLASSES], feature: &Feature)
    ensures types { RisesBy TYPE_SLOTS types.old (type_numbers (feature_tree feature.now)) types.new }
    ensures lods { RisesBy LOD_CLASSES lods.old
        (own_classes (flat_map object_geometries (objects_of (feature_tree feature.now)))) lods.new }
{
    for object in feature.objects() {
        let number = slot_of(object.object_type);
        types[number] = types[number].saturating_add(1);
        count_own(lods, object.node);
    }
}

/// Counts the geometries of a feature by LoD class, of which some may be instances. It keeps the
/// results of look-ups, which take some 8 KiB of the stack. That takes time to fill.
#[inline(never)]
fn count_together(counts: &mut [u64; LOD_CLASSES], feature: &Feature)
    ensures { RisesBy LOD_CLASSES counts.old (lod_classes (feature_header feature.now) (feature_tree feature.now))
        counts.new }
{
    let mut lods = Lods::beside(feature.templates());
    for geometry in feature.geometries() {
        let class = class_of(lods.lod_of(geometry));
        counts[class] = counts[class].saturating_add(1);
    }
}

/// Counts the geometries of a feature by the classes of their own LoDs.
fn count_alone(counts: &mut [u64; LOD_CLASSES], feature: &Feature)
    ensures { RisesBy LOD_CLASSES counts.old
        (own_classes (flat_map object_geometries (objects_of (feature_tree feature.now)))) counts.new }
{
    for geometry in feature.geometries() {
        let class = class_of(geometry.get("lod"));
        counts[class] = counts[class].saturating_add(1);
    }
}

/// Counts the geometries of a feature by LoD class, as [`crate::TallySink::by_lod`] does.
pub fn count_lods(counts: &mut [u64; LOD_CLASSES], feature: &Feature)
    ensures { RisesBy LOD_CLASSES counts.old (lod_classes (feature_header feature.now) (feature_tree feature.now))
        counts.new }
{
    if feature.has_own_lods() {
        count_alone(counts, feature);
    } else {
        count_together(counts, feature);
    }
}

/// Counts the city objects of a feature by their types, and its geometries by LoD class, as
/// [`crate::TallySink::by_lod`] does.
pub fn count_objects(
    types: &mut [u64; TYPE_SLOTS],
    lods: &mut [u64; LOD_CLASSES],
    feature: &Feature,
)
    ensures types { RisesBy TYPE_SLOTS types.old (type_numbers (feature_tree feature.now)) types.new }
    ensures lods { RisesBy LOD_CLASSES lods.old (lod_classes (feature_header feature.now) (feature_tree feature.now))
        lods.new }
{
    if feature.has_own_lods() {
        count_plain(types, lods, feature);
    } else {
        count_types(types, feature);
        count_together(lods, feature);
    }
}

/// Returns a range with one number more.
#[inline(always)]
fn widened(range: (i64, i64), number: i64) -> (i64, i64)
    ensures { Widens (Some range) (number ∷ []) (Some result) }
{
    let (least, greatest) = range;
    (least.min(number), greatest.max(number))
}

/// Returns a range with one number more. It may have none before.
fn begun(range: Option<(i64, i64)>, number: i64) -> (i64, i64)
    ensures { Widens range (number ∷ []) (Some result) }
{
    match range {
        Some(range) => widened(range, number),
        None => (number, number),
    }
}

/// Returns ranges on the axes, widened by vertices. A range that is never empty takes no test for
/// each vertex.
#[inline(always)]
fn widen_by(ranges: [(i64, i64); 3], vertices: Vertices) -> [(i64, i64); 3]
    ensures { (axis : ℕ) → axis < 3 → Widens (Some (get_or ranges axis (pos 0, pos 0)))
        (map (number_on axis) (vertices_left vertices.entry)) (Some (get_or result axis (pos 0, pos 0))) }
{
    let [mut on_x, mut on_y, mut on_z] = ranges;
    for [x, y, z] in vertices {
        on_x = widened(on_x, x);
        on_y = widened(on_y, y);
        on_z = widened(on_z, z);
    }
    [on_x, on_y, on_z]
}

/// Widens the ranges on the axes by the vertices that are left.
#[inline(never)]
fn widen_rest(ranges: &mut [Option<(i64, i64)>; 3], rest: Vertices)
    ensures { (axis : ℕ) → axis < 3 → Widens (get_or ranges.old axis None)
        (map (number_on axis) (vertices_left rest.entry)) (get_or ranges.new axis None) }
{
    let mut vertices = rest;
    match vertices.next() {
        Some(vertex) => {
            let [x, y, z] = vertex;
            let [on_x, on_y, on_z] = *ranges;
            let first = [begun(on_x, x), begun(on_y, y), begun(on_z, z)];
            let [on_x, on_y, on_z] = widen_by(first, vertices);
            *ranges = [Some(on_x), Some(on_y), Some(on_z)];
        }
        None => {}
    }
}

/// The words of no number. Each word is below the first and not below the second.
const NO_WORDS: (u64, u64) = (u64::MAX, 0);

/// Returns a range of words with one word more. Words have the order of their numbers.
#[inline(always)]
fn widened_words(range: (u64, u64), word: u64) -> (u64, u64)
    ensures { (n : ℕ) → IsWordOf word n → TakesNumber range (pos n) result }
{
    let (least, greatest) = range;
    (least.min(word), greatest.max(word))
}

/// Returns the range of the numbers that these words have. None for those of no number.
fn range_of_words(words: (u64, u64)) -> Option<(i64, i64)>
    requires { (r : Option (ℤ × ℤ)) × AreWordsOf words r }
    ensures { (r : Option (ℤ × ℤ)) → AreWordsOf words r → result ≡ r }
{
    if words.0 == u64::MAX {
        return None;
    }
    Some((word_value(words.0) as i64, word_value(words.1) as i64))
}

/// Returns whether a range has the numbers of these words. It may be false for the words of no
/// number.
///
/// No word has a number below 0. So most least numbers need not be computed.
#[inline(always)]
fn has_words(range: Option<(i64, i64)>, words: (u64, u64)) -> bool
    requires { (r : Option (ℤ × ℤ)) × AreWordsOf words r }
    ensures { IsTrue result → (r : Option (ℤ × ℤ)) → AreWordsOf words r → wider_range range r ≡ range }
{
    match range {
        Some((least, greatest)) => {
            word_value(words.1) as i64 <= greatest
                && (least <= 0 || (words.0 != u64::MAX && least <= word_value(words.0) as i64))
        }
        None => false,
    }
}

/// Joins the range of these words to another for each axis.
#[inline(never)]
fn join_words(ranges: &mut [Option<(i64, i64)>; 3], x: (u64, u64), y: (u64, u64), z: (u64, u64))
    requires on_x { (r : Option (ℤ × ℤ)) × AreWordsOf x r }
    requires on_y { (r : Option (ℤ × ℤ)) × AreWordsOf y r }
    requires on_z { (r : Option (ℤ × ℤ)) × AreWordsOf z r }
    ensures on_x { (r : Option (ℤ × ℤ)) → AreWordsOf x r
        → get_or ranges.new 0 None ≡ wider_range (get_or ranges.old 0 None) r }
    ensures on_y { (r : Option (ℤ × ℤ)) → AreWordsOf y r
        → get_or ranges.new 1 None ≡ wider_range (get_or ranges.old 1 None) r }
    ensures on_z { (r : Option (ℤ × ℤ)) → AreWordsOf z r
        → get_or ranges.new 2 None ≡ wider_range (get_or ranges.old 2 None) r }
{
    let words = [range_of_words(x), range_of_words(y), range_of_words(z)];
    *ranges = join_ranges(*ranges, words);
}

/// Does what [`join_words`] does. Most features are inside the earlier ones, and then it writes
/// nothing.
#[inline(always)]
fn join_to(ranges: &mut [Option<(i64, i64)>; 3], x: (u64, u64), y: (u64, u64), z: (u64, u64))
    requires on_x { (r : Option (ℤ × ℤ)) × AreWordsOf x r }
    requires on_y { (r : Option (ℤ × ℤ)) × AreWordsOf y r }
    requires on_z { (r : Option (ℤ × ℤ)) × AreWordsOf z r }
    ensures on_x { (r : Option (ℤ × ℤ)) → AreWordsOf x r
        → get_or ranges.new 0 None ≡ wider_range (get_or ranges.old 0 None) r }
    ensures on_y { (r : Option (ℤ × ℤ)) → AreWordsOf y r
        → get_or ranges.new 1 None ≡ wider_range (get_or ranges.old 1 None) r }
    ensures on_z { (r : Option (ℤ × ℤ)) → AreWordsOf z r
        → get_or ranges.new 2 None ≡ wider_range (get_or ranges.old 2 None) r }
{
    if !(has_words(ranges[0], x) && has_words(ranges[1], y) && has_words(ranges[2], z)) {
        join_words(ranges, x, y, z);
    }
}

/// Widens words by the next vertex's number on an axis, and returns true. It returns false at the
/// end, and if that number has a minus, more than eight digits, or another spelling.
#[inline(always)]
fn widen_on(words: &mut (u64, u64), vertices: &Vertices, axis: u32) -> bool
    requires { axis < 3 }
    ensures taken { IsTrue result → (v : List (Option ℤ)) × (vs : List (List (Option ℤ)))
        × (vertices_left vertices.now ≡ v ∷ vs) × TakesNumber words.old (number_on axis v) words.new }
    ensures kept { IsTrue result ⊎ (words.new ≡ words.old) }
{
    match vertices.next_word_on(axis) {
        Some(word) => {
            *words = widened_words(*words, word);
            true
        }
        None => false,
    }
}

/// Widens the words on the axes by the next vertex, goes past it, and returns true. If a number
/// cannot be read ([`widen_on`]), it returns false and stays. It may have widened the words by
/// those before.
///
/// Each number is read when the one before it is in the words. So no vertex takes registers, and
/// the loop over this has enough. A number may be taken twice, since that changes no range.
#[inline(always)]
fn widen_next(
    on_x: &mut (u64, u64),
    on_y: &mut (u64, u64),
    on_z: &mut (u64, u64),
    vertices: &mut Vertices,
) -> bool
    ensures gone { IsTrue result → (v : List (Option ℤ)) × (vertices_left vertices.old ≡ v ∷ vertices_left vertices.new)
        × TakesNumber on_x.old (number_on 0 v) on_x.new × TakesNumber on_y.old (number_on 1 v) on_y.new
        × TakesNumber on_z.old (number_on 2 v) on_z.new }
    ensures stays { IsTrue result ⊎ ((vertices.new ≡ vertices.old)
        × TakesSome on_x.old (map (number_on 0) (vertices_left vertices.old)) on_x.new
        × TakesSome on_y.old (map (number_on 1) (vertices_left vertices.old)) on_y.new
        × TakesSome on_z.old (map (number_on 2) (vertices_left vertices.old)) on_z.new) }
{
    if widen_on(on_x, vertices, 0) && widen_on(on_y, vertices, 1) && widen_on(on_z, vertices, 2) {
        vertices.go_past();
        return true;
    }
    false
}

/// Widens the ranges on the axes by the vertices at the front whose numbers all have few digits.
/// Returns the vertices after these. It computes the ends of a range, and not a number for each
/// vertex.
#[inline(always)]
fn widen_front<'a>(ranges: &mut [Option<(i64, i64)>; 3], vertices: Vertices<'a>) -> Vertices<'a>
    ensures { (axis : ℕ) → axis < 3
        → WidensFront (get_or ranges.old axis None) (map (number_on axis) (vertices_left vertices.entry))
        (get_or ranges.new axis None) (map (number_on axis) (vertices_left result)) }
{
    let mut on_x = NO_WORDS;
    let mut on_y = NO_WORDS;
    let mut on_z = NO_WORDS;
    let mut left = vertices;
    let mut going = true;
    while going {
        going = widen_next(&mut on_x, &mut on_y, &mut on_z, &mut left);
    }
    join_to(ranges, on_x, on_y, on_z);
    left
}

/// Widens the ranges on the axes by the vertices of a feature.
///
/// It looks at digits alone while it can. From the first vertex on that has a minus, more than
/// eight digits, or another spelling, it computes each number.
///
/// It is never inlined, so that its loop has the registers.
#[inline(never)]
pub fn widen_all(ranges: &mut [Option<(i64, i64)>; 3], feature: &Feature)
    ensures { (axis : ℕ) → axis < 3
        → Widens (get_or ranges.old axis None) (numbers_on axis (feature_tree feature.now))
        (get_or ranges.new axis None) }
{
    let rest = widen_front(ranges, feature.vertices());
    if !rest.is_at_end() {
        widen_rest(ranges, rest);
    }
}
