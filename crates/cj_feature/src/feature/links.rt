//! Links between city objects: the children and the parents that each one lists (own, after
//! CityJSON 2.0, section 2).
ghost use Rattle.std.specs.Prelude.{◌≡◌, codes, option_map};
ghost use Rattle.std.specs.List.{flat_map, list_any};
ghost use Rattle.std.specs.Str.{chars};
ghost use Rattle.cj_spans.specs.Meaning.Finding.{least};
ghost use Rattle.cj_spans.specs.Meaning.Parts.{items_of, members_of};
ghost use Rattle.cj_spans.specs.View.{tree, trees};
ghost use Rattle.cj_feature.specs.inner.Part.{part_parents};
ghost use Rattle.cj_feature.specs.Meaning.Links.{is_known as is_known_in, has_item as has_item_of, lists as lists_of};
ghost use Rattle.cj_feature.specs.Meaning.Links.{listed_in, is_group as is_group_of, child, parent, children, parents};
ghost use Rattle.cj_feature.specs.Meaning.Links.{part, object_links, links};

use crate::feature::ids::is_known;
use crate::feature::objects::is_part;
use crate::feature::search::many_links::check_many_links;
use cj_geometry::ObjectType;
use cj_geometry::rule::add;
use cj_spans::{Kind, Least, Node, Reason};

/// Returns whether the city object has the text in its member of this name.
fn has_item(object: Node, list: &str, id: Node) -> bool
    ensures { result ≡ has_item_of (listed_in (chars list.now) (tree object.entry)) (tree id.entry) }
{
    let Some(value) = object.get(list) else {
        return false;
    };
    for item in value.items() {
        if item.same_text(id) {
            return true;
        }
    }
    false
}

/// Returns whether some city object of the name `from` lists `to` in its member of the name `list`.
fn lists(objects: Node, list: &str, from: Node, to: Node) -> bool
    ensures { result ≡ lists_of (chars list.now) (members_of (tree objects.entry)) (tree from.entry) (tree to.entry) }
{
    for (name, object) in objects.members() {
        if name.same_text(from) && has_item(object, list, to) {
            return true;
        }
    }
    false
}

/// Returns whether the city object is a group.
#[tactic(auto, unfolding(cj_geometry::specs::Meaning::ObjectTypes::object_types))]
pub fn is_group(object: Node) -> bool
    ensures { result ≡ is_group_of (tree object.entry) }
{
    match object.get("type") {
        Some(name) => name.text_is(ObjectType::CityObjectGroup.name()),
        None => false,
    }
}

/// A child is in the feature, and lists the city object of this name as a parent.
pub fn check_child(objects: Node, name: Node, item: Node, found: &mut Least)
    ensures { found.new
        ≡ least found.old (child (members_of (tree objects.entry)) (tree name.entry) (tree item.entry)) }
{
    match item.kind() {
        Kind::Text => {
            if !is_known(objects, item) {
                add(item, Reason::ChildNotFound, found);
            } else if !lists(objects, "parents", item, name) {
                add(item, Reason::LinkNotMutual, found);
            }
        }
        _ => {}
    }
}

/// A parent that is in the feature lists the city object of this name as a child.
pub fn check_parent(objects: Node, name: Node, item: Node, found: &mut Least)
    ensures { found.new
        ≡ least found.old (parent (members_of (tree objects.entry)) (tree name.entry) (tree item.entry)) }
{
    if is_known(objects, item) {
        if !lists(objects, "children", item, name) {
            add(item, Reason::LinkNotMutual, found);
        }
    }
}

/// The children of a city object. Those of a group are not checked, as they may be in other
/// features.
fn check_children(objects: Node, name: Node, object: Node, found: &mut Least)
    ensures { found.new
        ≡ least found.old (children (members_of (tree objects.entry)) (trees (name.entry, object.entry))) }
{
    let Some(value) = object.get("children") else {
        return;
    };
    if is_group(object) {
        return;
    }
    for item in value.items() {
        check_child(objects, name, item, found);
    }
}

/// The parents of a city object.
fn check_parents(objects: Node, name: Node, object: Node, found: &mut Least)
    ensures { found.new
        ≡ least found.old (parents (members_of (tree objects.entry)) (trees (name.entry, object.entry))) }
{
    let Some(value) = object.get("parents") else {
        return;
    };
    for item in value.items() {
        check_parent(objects, name, item, found);
    }
}

/// Returns whether an item of the array is an id in the feature.
fn has_known_item(objects: Node, array: Node) -> bool
    ensures { result ≡ list_any (is_known_in (members_of (tree objects.entry))) (items_of (tree array.entry)) }
{
    for item in array.items() {
        if is_known(objects, item) {
            return true;
        }
    }
    false
}

/// Returns the array of parents of a city object of the second level. Returns None if it has none,
/// and for any other city object.
pub fn parents_of_part<'a>(object: Node<'a>) -> Option<Node<'a>>
    ensures { option_map tree result ≡ part_parents (tree object.entry) }
{
    let Some(value) = object.get("parents") else {
        return None;
    };
    match value.kind() {
        Kind::Array if is_part(object) => Some(value),
        _ => None,
    }
}

/// At least one parent of a city object of the second level is in the feature.
fn check_part(objects: Node, name: Node, object: Node, found: &mut Least)
    ensures { found.new ≡ least found.old (part (members_of (tree objects.entry)) (trees (name.entry, object.entry))) }
{
    let Some(value) = parents_of_part(object) else {
        return;
    };
    if !has_known_item(objects, value) {
        add(object, Reason::NoParent, found);
    }
}

/// The links of a city object. If it lists no parents, nothing can be wrong with them.
#[tactic(auto, using(crate::proofs::Rules::finding_steps))]
fn check_object_links(objects: Node, name: Node, object: Node, found: &mut Least)
    ensures { found.new
        ≡ least found.old (object_links (members_of (tree objects.entry)) (trees (name.entry, object.entry))) }
{
    check_children(objects, name, object, found);
    if object.get("parents").is_none() {
        return;
    }
    check_parents(objects, name, object, found);
    check_part(objects, name, object, found);
}

/// If there are fewer city objects and items of their lists, they are searched one after another.
const FEW: usize = 64;

/// City objects of at most this number of bytes count as few.
const FEW_BYTES: usize = 1_000;

/// For city objects of at most this number of bytes, a search uses arrays of middle size. So a
/// short line uses little of the stack.
pub const SHORT: usize = 65_536;

/// Subtracts the number of items of a city object's list of this name from a count. Returns 0 if
/// there are more items.
fn count_items(object: Node, list: &str, count: usize) -> usize {
    let Some(value) = object.get(list) else {
        return count;
    };
    let mut left = count;
    for _ in value.items() {
        if left == 0 {
            return 0;
        }
        left -= 1;
    }
    left
}

/// Returns whether there are at least `count` city objects and items of their lists.
pub fn has_as_many(objects: Node, count: usize) -> bool {
    let mut left = count;
    for (_, object) in objects.members() {
        if left == 0 {
            return true;
        }
        left = count_items(object, "children", left - 1);
        left = count_items(object, "parents", left);
    }
    left == 0
}

/// Returns whether there are at least `FEW` city objects and items of their lists, in more than
/// `FEW_BYTES` bytes.
pub fn has_many(objects: Node) -> bool {
    objects.bytes().len() > FEW_BYTES && has_as_many(objects, FEW)
}

/// The links of few city objects.
fn check_few_links(objects: Node, found: &mut Least)
    ensures { let all = members_of (tree objects.entry) in
        found.new ≡ least found.old (flat_map (object_links all) all) }
{
    for (name, object) in objects.members() {
        check_object_links(objects, name, object, found);
    }
}

/// The links of the city objects, if there are any.
pub fn check_links(objects: Option<Node>, found: &mut Least)
    ensures { found.new ≡ least found.old (links (option_map tree objects.entry)) }
{
    let Some(objects) = objects else {
        return;
    };
    if has_many(objects) {
        check_many_links(objects, found);
    } else {
        check_few_links(objects, found);
    }
}
