//! City objects that are reached from the main one, which the feature's id names. Each one leads to
//! the children that it lists. They are marked at their tokens before the feature is judged.
//!
//! Links are between ids. So if an id is reached, all city objects of that name are reached, each
//! with its list. A group is no exception. If the id is no text, or names no city object, nothing
//! is reached, and the rule reports nothing.
ghost use Rattle.std.specs.Prelude.{◌≡◌, ◌<◌, ◌^◌, IfSome, IfNone, IsTrue, true, Some, List, codes, length, option_map};
ghost use Rattle.std.specs.List.{flat_map};
ghost use Rattle.std.specs.Str.{chars};
ghost use Rattle.cj_spans.specs.Meaning.Finding.{least};
ghost use Rattle.cj_spans.specs.Meaning.Json.{Json};
ghost use Rattle.cj_spans.specs.Marks.{AreUnmarked, IsMarked, KeepsTokens};
ghost use Rattle.cj_spans.specs.Meaning.Parts.{items_of, members_of, member_of};
ghost use Rattle.cj_spans.specs.Sound.{AreOf};
ghost use Rattle.cj_spans.specs.Meaning.Tree.{Tree};
ghost use Rattle.cj_spans.specs.View.{tree, line_of, source_of, tokens_in, document, document_line, document_source};
ghost use Rattle.cj_feature.specs.Meaning.Feature.{unreached, reach_rule, reach_if};
ghost use Rattle.cj_feature.specs.Meaning.Links.{listed_in};
ghost use Rattle.cj_feature.specs.inner.Marking.{IsUnmarked, AllMarked, HaveMarks, ListMarks, IsListedUnmarked, IsNext};
ghost use Rattle.cj_feature.specs.inner.Marking.{IsToMark, MarksFit, IsBeside, AllReached, OnlyMarks};
ghost use Rattle.cj_feature.specs.ReachedMarks.{AreMarks};
ghost use Rattle.cj_feature.specs.Meaning.Reachable.{IsReachedObject};
ghost use Rattle.cj_feature.specs.inner.Unmarked.{AreSearchable, SoughtHaveMarks, ListSoughtMarks};

use crate::feature::ids::is_known;
use crate::feature::links::{SHORT, has_many};
use crate::feature::search::near::Near;
use crate::feature::search::noted::{NOTHING, Noted};
use crate::feature::search::unmarked::{Names, gather_next};
use cj_budget::Bounded;
use cj_geometry::rule::add;
use cj_spans::{Doc, Least, Node, Reason, Token, set_mark};

/// The number of city objects that a small guide holds, and that can wait there. It uses 36 KiB of
/// the stack. It is also the number of names without marks that are looked up at once, in 32 KiB.
const SOME_OBJECTS: usize = 4_096;

/// The number of its lists: a prime.
const SOME_LISTS: usize = 1_021;

/// The number of city objects that a guide of middle size holds, in 106 KiB of the stack. City
/// objects of at most `SHORT` bytes are fewer.
const MORE_OBJECTS: usize = 13_108;

/// The number of its lists: a prime.
const MORE_LISTS: usize = 1_021;

/// The number of names that are looked up at once then, in 64 KiB of the stack.
const MORE_NAMES: usize = 8_192;

/// The number of city objects that a large guide holds, in 1.9 MB of the stack. A line of 8 MiB has
/// fewer that list a child.
const MANY_OBJECTS: usize = 400_000;

/// The number of its lists: a prime.
const MANY_LISTS: usize = 65_521;

/// The number of city objects that can wait there.
const MANY_PENDING: usize = 16_384;

/// The number of names that are looked up at once then, in 1.9 MB of the stack.
const MANY_NAMES: usize = 240_000;

/// How many city objects there are. For each size, the search uses another amount of the stack.
#[derive(Clone, Copy, Drop)]
enum Size {
    Few,
    Small,
    Middle,
    Large,
}

/// Returns whether there are at least `count` city objects.
fn has_more(objects: Node, count: usize) -> bool {
    let mut left = count;
    for _ in objects.members() {
        if left <= 1 {
            return true;
        }
        left -= 1;
    }
    false
}

/// Returns how many city objects there are. Few have no long lists either.
fn size_of(objects: Node) -> Size {
    if !has_many(objects) {
        Size::Few
    } else if !has_more(objects, SOME_OBJECTS) {
        Size::Small
    } else if objects.bytes().len() <= SHORT {
        Size::Middle
    } else {
        Size::Large
    }
}

/// Returns how many city objects a feature has.
fn size_of_feature(doc: Doc) -> Size {
    match doc.root().get("CityObjects") {
        Some(objects) => size_of(objects),
        None => Size::Few,
    }
}

/// Returns the number of the first city object of this name that has no mark.
fn find_unmarked(objects: Node, id: Node) -> Option<u32>
    ensures found { IfSome result (IsUnmarked objects.entry (tree id.entry)) }
    ensures none { IfNone result (HaveMarks objects.entry (members_of (tree objects.entry)) (tree id.entry)) }
{
    for (name, object) in objects.members() {
        if !object.marked() && name.same_text(id) {
            return Some(object.number());
        }
    }
    None
}

/// Returns whether all city objects have marks.
fn are_marked(objects: Node) -> bool
    ensures { result ≡ true → AllMarked objects.entry (members_of (tree objects.entry)) }
{
    for (_, object) in objects.members() {
        if !object.marked() {
            return false;
        }
    }
    true
}

/// Returns the number of the first city object without a mark that this one lists as a child by one
/// of these names.
fn find_child(objects: Node, object: Node, names: Names) -> Option<u32>
    requires { AreSearchable objects names }
    ensures found { IfSome result
        (IsListedUnmarked objects.entry (listed_in (chars (codes "children")) (tree object.entry))) }
    ensures none { IfNone result
        (SoughtHaveMarks objects.entry names.entry (listed_in (chars (codes "children")) (tree object.entry))) }
{
    let Some(value) = object.get("children") else {
        return None;
    };
    for item in value.items() {
        if names.has(objects, item) {
            if let Some(number) = find_unmarked(objects, item) {
                return Some(number);
            }
        }
    }
    None
}

/// Returns the number of the first city object without a mark that one with a mark lists as a
/// child. The child has one of these names.
fn find_among(objects: Node, names: Names) -> Option<u32>
    requires { AreSearchable objects names }
    ensures found { IfSome result (IsNext objects.entry) }
    ensures none { IfNone result (ListSoughtMarks objects.entry names.entry (members_of (tree objects.entry))) }
{
    for (_, object) in objects.members() {
        if object.marked() {
            if let Some(number) = find_child(objects, object, names) {
                return Some(number);
            }
        }
    }
    None
}

/// Does the same as `find_listed`. It looks up the names of city objects without marks, as many at
/// once as `names` can hold.
fn find_by_names(objects: Node, names: &mut [Noted]) -> Option<u32>
    requires { 0 < length names.old }
    ensures found { IfSome result (IsNext objects.entry) }
    ensures none { IfNone result (ListMarks objects.entry (members_of (tree objects.entry))) }
{
    let mut later = objects.members();
    loop {
        let count = gather_next(objects, names, &mut later);
        if count == 0 {
            return None;
        }
        if let Some(number) = find_among(objects, Names::These(&names[..count])) {
            return Some(number);
        }
    }
}

/// The same for `NAMES` names at once. It is never inlined, so that fewer names use none of its
/// stack.
#[inline(never)]
fn find_by<const NAMES: usize>(objects: Node) -> Option<u32>
    requires { 0 < NAMES × NAMES < 2 ^ 32 }
    ensures found { IfSome result (IsNext objects.entry) }
    ensures none { IfNone result (ListMarks objects.entry (members_of (tree objects.entry))) }
{
    let mut names = [NOTHING; NAMES];
    find_by_names(objects, &mut names)
}

/// Returns the number of the first city object without a mark that one with a mark lists as a
/// child. If there are few, it searches for each child among all.
fn find_listed(objects: Node) -> Option<u32>
    ensures found { IfSome result (IsNext objects.entry) }
    ensures none { IfNone result (ListMarks objects.entry (members_of (tree objects.entry))) }
{
    if are_marked(objects) {
        return None;
    }
    match size_of(objects) {
        Size::Few => find_among(objects, Names::Every),
        Size::Small => find_by::<SOME_OBJECTS>(objects),
        Size::Middle => find_by::<MORE_NAMES>(objects),
        Size::Large => find_by::<MANY_NAMES>(objects),
    }
}

/// Returns the number of a city object without a mark that is reached, if all with marks are.
/// Returns None only if all that are reached have marks.
fn find_next(doc: Doc) -> Option<u32>
    ensures found { IfSome result
        (IsToMark (document doc.entry) (document_line doc.entry) (tokens_in (document_source doc.entry))) }
    ensures none { IfNone result ((t : Tree) → IsReachedObject (document doc.entry) t
        → IsMarked (document_line doc.entry) (tokens_in (document_source doc.entry)) t) }
{
    let root = doc.root();
    let (Some(id), Some(objects)) = (root.get("id"), root.get("CityObjects")) else {
        return None;
    };
    match find_unmarked(objects, id) {
        Some(number) => Some(number),
        None => find_listed(objects),
    }
}

/// Marks most of those that are reached, or none if there are few. It uses the smallest guide that
/// can hold all.
fn mark_most(line: &[u8], tokens: &mut Bounded<Token>)
    requires scanned { AreOf line.now tokens.old.elements }
    requires sound { (t : Tree) → Json line.now t → AllReached t line.now tokens.old.elements }
    ensures sound { (t : Tree) → Json line.now t → AllReached t line.now tokens.new.elements }
    ensures marks { OnlyMarks tokens.old tokens.new }
{
    match size_of_feature(Doc::of(line, tokens.as_slice())) {
        Size::Few => {}
        Size::Small => Near::<SOME_OBJECTS, SOME_LISTS, SOME_OBJECTS>::mark_all(line, tokens),
        Size::Middle => Near::<MORE_OBJECTS, MORE_LISTS, MORE_OBJECTS>::mark_all(line, tokens),
        Size::Large => Near::<MANY_OBJECTS, MANY_LISTS, MANY_PENDING>::mark_all(line, tokens),
    }
}

/// Marks the city objects of a feature that are reached from its id, at their tokens, and nothing
/// else. All city objects of that name are reached. If one is reached, all city objects that it
/// names as children are reached. Nothing is marked if there is no such id, or no city object of
/// its name. What the tokens represent stays, and no memory is allocated.
///
/// It is never inlined, since its caller does not use it for most lines.
#[inline(never)]
pub fn mark_reached(line: &[u8], tokens: &mut Bounded<Token>)
    requires scanned { AreOf line.now tokens.old.elements }
    requires unmarked { AreUnmarked tokens.old.elements }
    ensures marks { (t : Tree) → Json line.now t → AreMarks t line.now tokens.new.elements }
    ensures kept { KeepsTokens tokens.old tokens.new }
{
    mark_most(line, tokens);
    while let Some(number) = find_next(Doc::of(line, tokens.as_slice())) {
        set_mark(tokens, number);
    }
}

/// Each city object has a mark. Those that are reached from the id have one.
fn check_marks(objects: Node, id: Node, found: &mut Least)
    requires { MarksFit objects (tree id) }
    ensures { let all = members_of (tree objects.entry) in
        found.new ≡ least found.old (flat_map (unreached all (tree id.entry)) all) }
{
    for (_, object) in objects.members() {
        if !object.marked() {
            add(object, Reason::NotReached, found);
        }
    }
}

/// If the id is the name of a city object, each city object is reached from it.
fn check_from(objects: Node, id: Node, found: &mut Least)
    requires { MarksFit objects (tree id) }
    ensures { found.new ≡ least found.old (reach_rule (Some (tree id.entry)) (Some (tree objects.entry))) }
{
    if is_known(objects, id) {
        check_marks(objects, id, found);
    }
}

/// If `asked` is true, each city object of the feature is reached from its id.
pub fn check_reached(asked: bool, feature: Node, objects: Option<Node>, found: &mut Least)
    requires objects { option_map tree objects ≡ member_of (chars (codes "CityObjects")) (tree feature) }
    requires source { IfSome objects (λ n. IsBeside feature n) }
    requires marks { IsTrue asked
        → AreMarks (tree feature) (line_of feature) (tokens_in (source_of feature)) }
    ensures { found.new ≡ least found.old (reach_if asked (tree feature.entry)) }
{
    if !asked {
        return;
    }
    if let (Some(id), Some(objects)) = (feature.get("id"), objects) {
        check_from(objects, id, found);
    }
}
