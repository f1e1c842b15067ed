//! Semantics: surfaces, and values that assign a surface to each part of the boundaries.
ghost use Rattle.std.specs.Prelude.{◌≡◌, ◌++◌, ◌<◌, ◌^◌, [], codes, length, nat_eq, option_map, take};
ghost use Rattle.std.specs.Prelude.{IsTrue};
ghost use Rattle.std.specs.List.{flat_map};
ghost use Rattle.std.specs.Str.{chars};
ghost use Rattle.cj_spans.specs.Meaning.Finding.{least};
ghost use Rattle.cj_spans.specs.Meaning.Parts.{items_of, member_of, items_if};
ghost use Rattle.cj_spans.specs.Meaning.Tree.{Tree, size};
ghost use Rattle.cj_spans.specs.View.{tree};
ghost use Rattle.cj_geometry.specs.Lone.{AreLone};
ghost use Rattle.cj_geometry.specs.Meaning.Rule.{needs};
ghost use Rattle.cj_geometry.specs.Meaning.Geometry.{other_count, entry, values, surface};
ghost use Rattle.cj_geometry.specs.Meaning.Geometry.{surfaces, count_of, semantics, semantics_if};
ghost use Rattle.cj_geometry.specs.ListSteps.{left_of, first_part, other_parts};

use crate::rule::{
    Bound, add, check_array, check_index_below, check_names, check_object, check_text_member,
    count_items, is_few_below, needed,
};
use cj_spans::{Items, Kind, Least, Node, Reason};

/// Returns a walk over the parts of a part, if there is one.
#[inline(always)]
fn walk(part: Option<Node>) -> Option<Items>
    ensures { left_of result ≡ items_if (option_map tree part.entry) }
{
    match part {
        Some(part) => Some(part.items()),
        None => None,
    }
}

/// Returns the next part, if there is one.
#[inline(always)]
fn next_part<'a>(parts: &mut Option<Items<'a>>) -> Option<Node<'a>>
    ensures part { option_map tree result ≡ first_part (left_of parts.old) }
    ensures left { left_of parts.new ≡ other_parts (left_of parts.old) }
{
    match parts {
        Some(items) => items.next(),
        None => None,
    }
}

/// Checks that an array and the part of the boundaries for it have equally many items, if the part
/// is an array too. `even` says whether they have.
fn check_evenness(node: Node, part: Option<Node>, even: bool, found: &mut Least)
    requires { even ≡ nat_eq (length (items_of (tree node))) (length (items_if (option_map tree part))) }
    ensures { found.new ≡ least found.old (other_count (tree node.entry) (option_map tree part.entry)) }
{
    let Some(part) = part else {
        return;
    };
    match part.kind() {
        Kind::Array => {
            if !even {
                add(node, Reason::SemanticsCount, found);
            }
        }
        _ => {}
    }
}

/// Returns how many parts a part has. 0 if there is none.
fn count_parts(part: Option<Node>) -> u64
    ensures { result ≡ length (items_if (option_map tree part.entry)) }
{
    match part {
        Some(part) => count_items(part),
        None => 0,
    }
}

/// Checks that the value is null, or an index of a surface.
#[inline(always)]
fn check_entry(node: Node, surfaces: Bound, found: &mut Least)
    ensures { found.new ≡ least found.old (entry surfaces.count (tree node.entry)) }
{
    match node.kind() {
        Kind::Null => {}
        _ => check_index_below(node, Reason::SemanticsIndex, surfaces, found),
    }
}

/// Returns whether the value is null, or an index of a surface of at most eight digits.
#[inline(always)]
fn is_entry(node: Node, surfaces: Bound) -> bool
    ensures single { IsTrue result → size (tree node.entry) ≡ 1 }
    ensures none { IsTrue result → entry surfaces.count (tree node.entry) ≡ [] }
{
    match node.kind() {
        Kind::Null => true,
        _ => is_few_below(node, surfaces),
    }
}

/// Returns how many items at the front of an array are such values, in the way of
/// [`count_indices`](crate::rule::count_indices). None of them has a finding.
#[inline(always)]
fn count_entries(node: Node, surfaces: Bound) -> u32
    ensures lone { AreLone result (items_of (tree node.entry)) }
    ensures none { flat_map (entry surfaces.count) (take result (items_of (tree node.entry))) ≡ [] }
    ensures few { length (items_of (tree node.entry)) < 2 ^ 63 }
{
    let mut items = node.items();
    let mut front = 0;
    while let Some(item) = items.next() {
        if !is_entry(item, surfaces) {
            break;
        }
        front += 1;
        items = node.items_behind(front);
    }
    front
}

/// Checks that the items are entries, as many as there are parts: the lowest level, with nearly all
/// of them.
///
/// It first counts the valid entries at the front, in a loop that does nothing else. The parts are
/// counted by a walk of their own.
#[tactic(auto, using(crate::proofs::Values::finding_steps))]
fn check_entries(node: Node, part: Option<Node>, surfaces: Bound, found: &mut Least)
    ensures { found.new
        ≡ least found.old
        (flat_map (entry surfaces.count) (items_of (tree node.entry)) ++ other_count (tree node.entry)
        (option_map tree part.entry)) }
{
    let front = count_entries(node, surfaces);
    let mut count = front as u64;
    for item in node.items_behind(front) {
        check_entry(item, surfaces, found);
        count += 1;
    }
    let even = count == count_parts(part);
    check_evenness(node, part, even, found);
}

/// Checks that the values have this depth, for a part of the boundaries, and below it indices of
/// surfaces.
fn check_values(node: Node, part: Option<Node>, depth: u8, surfaces: Bound, found: &mut Least)
    ensures { found.new ≡ least found.old (values surfaces.count depth (tree node.entry) (option_map tree part.entry)) }
{
    if depth == 0 {
        check_entry(node, surfaces, found);
        return;
    }
    match node.kind() {
        Kind::Null => {}
        Kind::Array => {
            if depth == 1 {
                check_entries(node, part, surfaces, found);
                return;
            }
            let mut parts = walk(part);
            let mut even = true;
            for item in node.items() {
                let beside = next_part(&mut parts);
                even &= beside.is_some();
                check_values(item, beside, depth - 1, surfaces, found);
            }
            even &= next_part(&mut parts).is_none();
            check_evenness(node, part, even, found);
        }
        _ => add(node, Reason::WrongKind, found),
    }
}

/// Checks that the value is an object with a type.
#[tactic(auto, using(crate::proofs::Values::finding_steps))]
fn check_surface(node: Node, found: &mut Least)
    ensures { found.new ≡ least found.old (surface (tree node.entry)) }
{
    if check_object(node, found) {
        check_names(node, found);
        check_text_member(node, "type", found);
    }
}

/// Checks that the value is an array of surfaces.
#[tactic(auto, using(crate::proofs::Values::finding_steps))]
fn check_surfaces(node: Node, found: &mut Least)
    ensures { found.new ≡ least found.old (surfaces (tree node.entry)) }
{
    if check_array(node, found) {
        for item in node.items() {
            check_surface(item, found);
        }
    }
}

/// Checks that the object has surfaces.
fn check_surfaces_member(object: Node, found: &mut Least)
    ensures { found.new ≡ least found.old (needs (chars (codes "surfaces")) surfaces (tree object.entry)) }
{
    if let Some(value) = needed(object, "surfaces", found) {
        check_surfaces(value, found);
    }
}

/// Returns how many surfaces the object has, if they are an array.
fn count_surfaces(object: Node) -> Option<u64>
    ensures { result ≡ count_of (member_of (chars (codes "surfaces")) (tree object.entry)) }
{
    match object.get("surfaces") {
        Some(value) => match value.kind() {
            Kind::Array => Some(count_items(value)),
            _ => None,
        },
        None => None,
    }
}

/// Checks that the object has values of this depth for the boundaries.
fn check_values_member(object: Node, boundaries: Option<Node>, depth: u8, found: &mut Least)
    ensures { found.new
        ≡ least found.old
        (needs (chars (codes "values"))
        (λ v. values (count_of (member_of (chars (codes "surfaces")) (tree object.entry))) depth v
        (option_map tree boundaries.entry)) (tree object.entry)) }
{
    if let Some(value) = needed(object, "values", found) {
        let surfaces = Bound::of(count_surfaces(object));
        check_values(value, boundaries, depth, surfaces, found);
    }
}

/// Checks that the value is a semantics object of this depth for the boundaries.
#[tactic(auto, using(crate::proofs::Values::finding_steps))]
fn check_semantics(node: Node, boundaries: Option<Node>, depth: u8, found: &mut Least)
    ensures { found.new ≡ least found.old (semantics depth (option_map tree boundaries.entry) (tree node.entry)) }
{
    if check_object(node, found) {
        check_names(node, found);
        check_surfaces_member(node, found);
        check_values_member(node, boundaries, depth, found);
    }
}

/// Checks the semantics of a geometry with these boundaries, if it has any and its type has values
/// of a depth.
pub fn check_semantics_if(
    semantics: Option<Node>,
    boundaries: Option<Node>,
    values: Option<u8>,
    found: &mut Least,
)
    ensures { (g : Tree) → option_map tree semantics.entry ≡ member_of (chars (codes "semantics")) g
        → option_map tree boundaries.entry ≡ member_of (chars (codes "boundaries")) g
        → found.new ≡ least found.old (semantics_if values g) }
{
    let Some(depth) = values else {
        return;
    };
    if let Some(value) = semantics {
        check_semantics(value, boundaries, depth, found);
    }
}
