//! Links between many city objects. The children of all are checked first, and then the parents of
//! all. Many questions are answered at once: whether a text is an id, and whether its city object
//! lists the current one.
ghost use Rattle.std.specs.Prelude.{◌≡◌, ◌<◌, ◌^◌, [], ◌++◌, true, codes};
ghost use Rattle.std.specs.List.{flat_map, list_any};
ghost use Rattle.std.specs.Str.{chars};
ghost use Rattle.cj_spans.specs.Meaning.Finding.{least};
ghost use Rattle.cj_spans.specs.Meaning.Parts.{items_of, members_of};
ghost use Rattle.cj_spans.specs.View.{tree, items_left, source_of, tree_in};
ghost use Rattle.cj_feature.specs.inner.Kin.{list_of, back_of, linked, all_linked};
ghost use Rattle.cj_feature.specs.Meaning.Links.{is_known as is_known_in, listed_in, children, parents, part};
ghost use Rattle.cj_feature.specs.Meaning.Links.{object_links};
ghost use Rattle.cj_feature.specs.inner.Questions.{noted_in, AreAnswered};

use crate::feature::ids::is_known;
use crate::feature::links::{SHORT, has_as_many, parents_of_part};
use crate::feature::search::hashed::short_hash_of;
use crate::feature::search::link::Link;
use crate::feature::search::noted::Noted;
use crate::feature::search::questions::{Ahead, LinkAnswer, Questions};
use cj_geometry::rule::{add, is_found_before};
use cj_spans::{Least, Members, Node, Reason};

/// The number of questions at once for fewer city objects and items of their lists. They use 34 KiB
/// of the stack.
const SOME_QUESTIONS: usize = 1_536;

/// The number of first texts that are kept then.
const SOME_KEPT: usize = 256;

/// The number of questions at once for city objects of at most `SHORT` bytes. They use 86 KiB of
/// the stack.
const MORE_QUESTIONS: usize = 4_096;

/// The number of first texts that are kept then.
const MORE_KEPT: usize = 512;

/// The number of questions at once for longer ones. They use 503 KiB of the stack.
const MANY_QUESTIONS: usize = 27_000;

/// The number of first texts that are kept then.
const MANY_KEPT: usize = 1_024;

/// A city object, by the number of its name in the line, and those after it.
#[derive(Clone, Copy)]
struct Current<'a> {
    number: u32,
    object: Node<'a>,
    later: Members<'a>,
}

/// Checks an item of the list of the current city object. Returns whether it is known to be an id
/// in the feature.
fn check_item<'a, const ROOM: usize, const KEPT: usize>(
    objects: Node<'a>,
    item: Node<'a>,
    ahead: Ahead<'a>,
    questions: &mut Questions<ROOM, KEPT>,
    found: &mut Least,
) -> bool
    requires { AreAnswered (back_of ahead.link) objects [] questions.old }
    ensures found { found.new
        ≡ least found.old (linked ahead.entry.link (members_of (tree objects.entry))
        (noted_in objects.entry ahead.entry.name) (tree item.entry)) }
    ensures known { result ≡ true → is_known_in (members_of (tree objects.entry)) (tree item.entry) ≡ true }
    ensures answered { AreAnswered (back_of ahead.entry.link) objects.entry [] questions.new }
{
    if is_found_before(*found, item) {
        return false;
    }
    let Ahead { link, name, .. } = ahead;
    match questions.answer(objects, item, ahead) {
        LinkAnswer::Listed => return true,
        LinkAnswer::Absent => link.check_absent(objects, name.node(objects), item, found),
        LinkAnswer::Unknown => link.check(objects, name.node(objects), item, found),
    }
    false
}

/// Checks the items of a list, which are ahead. Returns whether one of them is known to be an id in
/// the feature.
fn check_items<'a, const ROOM: usize, const KEPT: usize>(
    objects: Node<'a>,
    list: Ahead<'a>,
    questions: &mut Questions<ROOM, KEPT>,
    found: &mut Least,
) -> bool
    requires { AreAnswered (back_of list.link) objects [] questions.old }
    ensures found { found.new
        ≡ least found.old (flat_map (linked list.entry.link (members_of (tree objects.entry))
        (noted_in objects.entry list.entry.name)) (items_left list.entry.items)) }
    ensures known { result ≡ true
        → list_any (is_known_in (members_of (tree objects.entry))) (items_left list.entry.items) ≡ true }
    ensures answered { AreAnswered (back_of list.entry.link) objects.entry [] questions.new }
{
    let Ahead { link, name, .. } = list;
    let (mut items, later) = (list.items, list.later);
    let mut known = false;
    while let Some(item) = items.next() {
        let ahead = Ahead {
            link,
            name,
            items,
            later,
        };
        if check_item(objects, item, ahead, questions, found) {
            known = true;
        }
    }
    known
}

/// Checks the children or the parents of a city object. Returns whether one of them is known to be
/// an id in the feature.
///
/// It is inlined, since most city objects have no such list.
#[inline(always)]
fn check_list<'a, const ROOM: usize, const KEPT: usize>(
    link: Link,
    objects: Node<'a>,
    current: Current<'a>,
    questions: &mut Questions<ROOM, KEPT>,
    found: &mut Least,
) -> bool
    requires { AreAnswered (back_of link) objects [] questions.old }
    ensures found { found.new
        ≡ least found.old (all_linked link (members_of (tree objects.entry))
        (tree_in (source_of objects.entry) current.entry.number, tree current.entry.object)) }
    ensures known { result ≡ true → list_any (is_known_in (members_of (tree objects.entry)))
        (listed_in (list_of link) (tree current.entry.object)) ≡ true }
    ensures answered { AreAnswered (back_of link) objects.entry [] questions.new }
{
    let Current { number, later, .. } = current;
    let Some(value) = current.object.get(link.list()) else {
        return false;
    };
    if link.is_exempt(current.object) {
        return false;
    }
    let short_hash = short_hash_of(objects.at(number));
    let list = Ahead {
        link,
        name: Noted { short_hash, number },
        items: value.items(),
        later,
    };
    check_items(objects, list, questions, found)
}

/// The children of all city objects.
#[tactic(auto, using(crate::proofs::Rules::finding_steps))]
fn check_all_children<'a, const ROOM: usize, const KEPT: usize>(
    objects: Node<'a>,
    questions: &mut Questions<ROOM, KEPT>,
    found: &mut Least,
)
    requires { AreAnswered (chars (codes "parents")) objects [] questions.old }
    ensures { let all = members_of (tree objects.entry) in found.new ≡ least found.old (flat_map (children all) all) }
{
    let mut later = objects.members();
    while let Some((name, object)) = later.next() {
        let current = Current {
            number: name.number(),
            object,
            later,
        };
        check_list(Link::Child, objects, current, questions, found);
    }
}

/// Returns whether a parent of the current city object is an id in the feature.
#[tactic(auto, using(crate::proofs::Questions::lists_known))]
fn is_known_parent<'a, const ROOM: usize, const KEPT: usize>(
    objects: Node<'a>,
    item: Node<'a>,
    ahead: Ahead<'a>,
    questions: &mut Questions<ROOM, KEPT>,
) -> bool
    requires { AreAnswered (back_of ahead.link) objects [] questions.old }
    ensures known { result ≡ is_known_in (members_of (tree objects.entry)) (tree item.entry) }
    ensures answered { AreAnswered (back_of ahead.entry.link) objects.entry [] questions.new }
{
    match questions.answer(objects, item, ahead) {
        LinkAnswer::Listed => true,
        LinkAnswer::Absent => false,
        LinkAnswer::Unknown => is_known(objects, item),
    }
}

/// Returns whether an item of the array of parents is an id in the feature.
fn has_known_item<'a, const ROOM: usize, const KEPT: usize>(
    objects: Node<'a>,
    name: Noted,
    array: Node<'a>,
    later: Members<'a>,
    questions: &mut Questions<ROOM, KEPT>,
) -> bool
    requires { AreAnswered (chars (codes "children")) objects [] questions.old }
    ensures known { result ≡ list_any (is_known_in (members_of (tree objects.entry))) (items_of (tree array.entry)) }
    ensures answered { AreAnswered (chars (codes "children")) objects.entry [] questions.new }
{
    let mut items = array.items();
    while let Some(item) = items.next() {
        let ahead = Ahead {
            link: Link::Parent,
            name,
            items,
            later,
        };
        if is_known_parent(objects, item, ahead, questions) {
            return true;
        }
    }
    false
}

/// At least one parent of a city object of the second level is in the feature.
fn check_part<'a, const ROOM: usize, const KEPT: usize>(
    objects: Node<'a>,
    current: Current<'a>,
    questions: &mut Questions<ROOM, KEPT>,
    found: &mut Least,
)
    requires { AreAnswered (chars (codes "children")) objects [] questions.old }
    ensures found { found.new
        ≡ least found.old (part (members_of (tree objects.entry))
        (tree_in (source_of objects.entry) current.entry.number, tree current.entry.object)) }
    ensures answered { AreAnswered (chars (codes "children")) objects.entry [] questions.new }
{
    let (number, object) = (current.number, current.object);
    if is_found_before(*found, object) {
        return;
    }
    let Some(value) = parents_of_part(object) else {
        return;
    };
    let short_hash = short_hash_of(objects.at(number));
    let name = Noted { short_hash, number };
    if !has_known_item(objects, name, value, current.later, questions) {
        add(object, Reason::NoParent, found);
    }
}

/// The parents of all city objects.
#[tactic(auto, using(crate::proofs::Rules::finding_steps, crate::proofs::Questions::known_part))]
fn check_all_parents<'a, const ROOM: usize, const KEPT: usize>(
    objects: Node<'a>,
    questions: &mut Questions<ROOM, KEPT>,
    found: &mut Least,
)
    requires { AreAnswered (chars (codes "children")) objects [] questions.old }
    ensures { let all = members_of (tree objects.entry) in
        found.new ≡ least found.old (flat_map (λ m. parents all m ++ part all m) all) }
{
    let mut later = objects.members();
    while let Some((name, object)) = later.next() {
        let current = Current {
            number: name.number(),
            object,
            later,
        };
        if !check_list(Link::Parent, objects, current, questions, found) {
            check_part(objects, current, questions, found);
        }
    }
}

/// The links of many city objects, with at most `ROOM` questions at once.
///
/// It is never inlined, so that fewer links use none of its stack.
#[cold]
#[inline(never)]
fn check_by<const ROOM: usize, const KEPT: usize>(objects: Node, found: &mut Least)
    requires room { 0 < ROOM × ROOM < 2 ^ 32 }
    requires kept { 0 < KEPT × KEPT < 2 ^ 32 }
    ensures { let all = members_of (tree objects.entry) in
        found.new ≡ least found.old (flat_map (object_links all) all) }
{
    let mut questions: Questions<ROOM, KEPT> = Questions::new();
    check_all_children(objects, &mut questions, found);
    questions.clear();
    check_all_parents(objects, &mut questions, found);
}

/// The links of many city objects. The capacity for questions is enough for all of them, or large.
#[cold]
#[inline(never)]
pub fn check_many_links(objects: Node, found: &mut Least)
    ensures { let all = members_of (tree objects.entry) in
        found.new ≡ least found.old (flat_map (object_links all) all) }
{
    if !has_as_many(objects, SOME_QUESTIONS) {
        check_by::<SOME_QUESTIONS, SOME_KEPT>(objects, found);
    } else if objects.bytes().len() <= SHORT {
        check_by::<MORE_QUESTIONS, MORE_KEPT>(objects, found);
    } else {
        check_by::<MANY_QUESTIONS, MANY_KEPT>(objects, found);
    }
}
