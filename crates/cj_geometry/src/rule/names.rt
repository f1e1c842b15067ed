//! Repeated names of an object.
//!
//! Few names are told apart by their first characters. If two of these share a slot, each name is
//! compared with each. Many are sorted by text and then by place. A repeated name comes directly
//! after an earlier one of its text. An array of fixed size holds names with
//! their words ([`WordedName`]), so more names need more than one walk. Each walk gathers the least
//! names above those that the earlier walks have dealt with. If the array is full, it keeps the
//! least names. The next one is the ceiling of the walk. The kept ones are copied to a second array
//! and back, since contracts say nothing of the rest after a selection.
//!
//! So n names take about n / `KEPT` walks and n * log n comparisons, for any texts in any order. No
//! memory is allocated. The arrays use 12 KiB of the stack for up to 1,000 names. They use 72 KiB
//! for an object of up to 64 KiB, and 512 KiB for a longer one.
ghost use Rattle.std.specs.Prelude.{◌≡◌, ◌<◌, ◌≤◌, ◌^◌, [], length, take, true, Some, IsSome, IfSome, All};
ghost use Rattle.std.specs.List.Sorted.{IsPermutation};
ghost use Rattle.cj_spans.specs.Meaning.Finding.{least};
ghost use Rattle.cj_spans.specs.Initials.{begin_apart};
ghost use Rattle.cj_spans.specs.Meaning.Parts.{members_of};
ghost use Rattle.cj_spans.specs.Places.{AreNamesInOrder};
ghost use Rattle.cj_spans.specs.View.{tree, source_of, members_left};
ghost use Rattle.cj_geometry.specs.Meaning.Rule.{repeats_of, distinct};
ghost use Rattle.cj_geometry.specs.inner.Names.{is_above, is_below, Ascend, repeat_of, neighbours, last_of, names_of};
ghost use Rattle.cj_geometry.specs.inner.WordedNames.{IsWorded, name_in, names_in, limit_in, TakeOne, HoldNames};

use crate::rule::add;
use crate::rule::order::{NO_NAME, WordedName, is_before, sort, take_least};
use cj_spans::{Least, Members, Node, Reason};

/// At most this number of names are compared each with each.
const FEW: usize = 48;

/// An object of more names than `FEW` has more values and names than this: itself, and two for each
/// member.
const FEW_SIZE: u32 = 97;

/// An object of at least this size may have three members or more.
const LEAST_SIZE: u32 = 7;

/// How many numbers the first characters of names are told apart by.
const SLOTS: usize = 32;

/// At most this number of names are sorted in the small array.
const SOME: usize = 1_000;

/// The size of the small array. It is larger than `SOME`, so one walk gathers all names.
const SMALL_ROOM: usize = 1_024;

/// An object of more names and of at most this number of bytes uses the array of middle size.
const SHORT: usize = 65_536;

/// The size of that array, and the number of names that it keeps when it is full.
const MIDDLE_ROOM: usize = 4_096;

const MIDDLE_KEPT: usize = 2_048;

/// The same for the large array.
const LARGE_ROOM: usize = 29_120;

const LARGE_KEPT: usize = 14_560;

/// No later name has the text of this one.
fn check_later(name: Node, rest: Members, found: &mut Least)
    ensures { found.new ≡ least found.old (repeats_of (tree name.entry) (members_left rest.entry)) }
{
    for (later, _) in rest {
        if later.same_text(name) {
            add(later, Reason::DuplicateName, found);
        }
    }
}

/// The names of an object are distinct. Each is compared with each later one.
#[inline(always)]
#[tactic(auto, using(crate::proofs::Values::finding_steps))]
fn check_pairs(object: Node, found: &mut Least)
    ensures { found.new ≡ least found.old (distinct (tree object.entry)) }
{
    let mut rest = object.members();
    while let Some((name, _)) = rest.next() {
        check_later(name, rest, found);
    }
}

/// Returns whether the names of an object begin with characters that all have different numbers
/// below `SLOTS`. Then the names are distinct.
#[inline(always)]
fn begin_apart(object: Node) -> bool
    ensures { result ≡ true → distinct (tree object.entry) ≡ [] }
{
    let mut taken = [false; SLOTS];
    for (name, _) in object.members() {
        let Some(code) = name.first_code() else {
            return false;
        };
        let slot = (code % SLOTS as u32) as usize;
        if taken[slot] {
            return false;
        }
        taken[slot] = true;
    }
    true
}

/// The names of an object are distinct. Most begin with different characters. Else each is compared
/// with each later one.
#[inline(always)]
fn check_few(object: Node, found: &mut Least)
    ensures { found.new ≡ least found.old (distinct (tree object.entry)) }
{
    if object.size() < LEAST_SIZE || !begin_apart(object) {
        check_pairs(object, found);
    }
}

/// What a walk has gathered: the number of names in the array, and the least name that had no place
/// there.
#[derive(Clone, Copy)]
struct Held {
    count: usize,
    ceiling: Option<WordedName>,
}

/// Returns whether a name comes after the floor: one of those that are not dealt with yet.
#[inline(always)]
fn is_left(object: Node, name: WordedName, floor: Option<WordedName>) -> bool
    requires name { IsWorded (source_of object) name }
    requires floor { IfSome floor (IsWorded (source_of object)) }
    ensures { let s = source_of object.entry in result ≡ is_above (limit_in s floor) (name_in s name) }
{
    match floor {
        Some(floor) => is_before(object, floor, name),
        None => true,
    }
}

/// Returns whether a name comes before the ceiling, so that it may have a place.
#[inline(always)]
fn has_place(object: Node, name: WordedName, ceiling: Option<WordedName>) -> bool
    requires name { IsWorded (source_of object) name }
    requires ceiling { IfSome ceiling (IsWorded (source_of object)) }
    ensures { let s = source_of object.entry in result ≡ is_below (limit_in s ceiling) (name_in s name) }
{
    match ceiling {
        Some(ceiling) => is_before(object, name, ceiling),
        None => true,
    }
}

/// Copies names to the start of the array.
fn put_back(room: &mut [WordedName], kept: &[WordedName])
    requires { length kept.now ≤ length room.old }
    ensures room { length room.new ≡ length room.old }
    ensures front { take (length kept.now) room.new ≡ kept.now }
{
    room[..kept.len()].copy_from_slice(kept);
}

/// Adds a name to the array. If the array is full then, it keeps the least names.
#[tactic(auto, using(crate::proofs::Rooms::full_least))]
fn put(
    object: Node,
    name: WordedName,
    held: Held,
    room: &mut [WordedName],
    kept: &mut [WordedName],
) -> Held
    requires some { 0 < length kept.old }
    requires fewer { length kept.old < length room.old }
    requires place { held.count < length room.old }
    ensures kept { length kept.new ≡ length kept.old }
    ensures room { length room.new ≡ length room.old }
    ensures count { (0 < result.count) × (result.count < length room.new) }
    ensures taken { TakeOne (source_of object.entry) name (take held.count room.old) held.ceiling
        (take result.count room.new) result.ceiling }
{
    room[held.count] = name;
    let count = held.count + 1;
    if count < room.len() {
        return Held {
            count,
            ceiling: held.ceiling,
        };
    }
    let ceiling = take_least(object, room, kept);
    put_back(room, kept);
    Held {
        count: kept.len(),
        ceiling: Some(ceiling),
    }
}

/// Gathers the least names of an object above the floor, as many as the array can hold.
fn gather(
    object: Node,
    floor: Option<WordedName>,
    room: &mut [WordedName],
    kept: &mut [WordedName],
) -> Held
    requires some { 0 < length kept.old }
    requires fewer { length kept.old < length room.old }
    requires floor { IfSome floor (IsWorded (source_of object)) }
    ensures kept { length kept.new ≡ length kept.old }
    ensures room { length room.new ≡ length room.old }
    ensures count { result.count < length room.new }
    ensures more { IsSome result.ceiling → 0 < result.count }
    ensures order { AreNamesInOrder (members_of (tree object.entry)) }
    ensures names { let s = source_of object.entry in
        HoldNames s (names_of (members_of (tree object.entry))) [] (limit_in s floor) (limit_in s result.ceiling)
        (take result.count room.new) }
{
    let mut held = Held {
        count: 0,
        ceiling: None,
    };
    for (node, _) in object.members() {
        let name = WordedName::of(node);
        if is_left(object, name, floor) && has_place(object, name, held.ceiling) {
            held = put(object, name, held, room, kept);
        }
    }
    held
}

/// A name has another text than the one before it in the order, or is that name again.
fn check_pair(before: Node, name: Node, found: &mut Least)
    ensures { found.new ≡ least found.old (repeat_of (Some (tree before.entry)) (tree name.entry)) }
{
    if name.same_text(before) && before.start() < name.start() {
        add(name, Reason::DuplicateName, found);
    }
}

/// A name does not repeat the one before it.
#[inline(always)]
fn check_neighbour(object: Node, before: Option<WordedName>, name: WordedName, found: &mut Least)
    requires name { IsWorded (source_of object) name }
    requires before { IfSome before (IsWorded (source_of object)) }
    ensures { let s = source_of object.entry in
        found.new ≡ least found.old (repeat_of (limit_in s before) (name_in s name)) }
{
    match before {
        Some(before) => {
            if before.word() == name.word() {
                check_pair(before.name(object), name.name(object), found);
            }
        }
        None => {}
    }
}

/// No name repeats the one before it, and the floor comes before the first of them. Returns the
/// last name.
fn check_neighbours(
    object: Node,
    floor: Option<WordedName>,
    names: &[WordedName],
    found: &mut Least,
) -> Option<WordedName>
    requires names { All (IsWorded (source_of object)) names.now }
    requires floor { IfSome floor (IsWorded (source_of object)) }
    ensures word { IfSome result (IsWorded (source_of object.entry)) }
    ensures last { let s = source_of object.entry in
        limit_in s result ≡ last_of (limit_in s floor) (names_in s names.now) }
    ensures found { let s = source_of object.entry in
        found.new ≡ least found.old (neighbours (limit_in s floor) (names_in s names.now)) }
{
    let mut before = floor;
    for name in names {
        check_neighbour(object, before, *name, found);
        before = Some(*name);
    }
    before
}

/// Deals with the names that a walk has gathered. Returns the last of them. The remaining names are
/// above it.
fn deal(
    object: Node,
    floor: Option<WordedName>,
    names: &mut [WordedName],
    found: &mut Least,
) -> Option<WordedName>
    requires names { All (IsWorded (source_of object)) names.old }
    requires floor { IfSome floor (IsWorded (source_of object)) }
    ensures permutation { IsPermutation names.old names.new }
    ensures order { Ascend (names_in (source_of object.entry) names.new) }
    ensures word { IfSome result (IsWorded (source_of object.entry)) }
    ensures last { let s = source_of object.entry in
        limit_in s result ≡ last_of (limit_in s floor) (names_in s names.new) }
    ensures found { let s = source_of object.entry in
        found.new ≡ least found.old (neighbours (limit_in s floor) (names_in s names.new)) }
{
    sort(object, names);
    check_neighbours(object, floor, names, found)
}

/// The names of an object are distinct. A repeated one comes directly after another of its text in
/// the order of names.
fn check_in_order(object: Node, room: &mut [WordedName], kept: &mut [WordedName], found: &mut Least)
    requires kept { 0 < length kept.old }
    requires room { length kept.old < length room.old }
    ensures { found.new ≡ least found.old (distinct (tree object.entry)) }
{
    let mut floor = None;
    loop {
        let held = gather(object, floor, room, kept);
        floor = deal(object, floor, &mut room[..held.count], found);
        if held.ceiling.is_none() {
            return;
        }
    }
}

/// The names of an object with more than `FEW` names are distinct. The array has `ROOM` places.
///
/// It is never inlined, so that an object of fewer names uses none of its stack.
#[cold]
#[inline(never)]
fn check_by<const ROOM: usize, const KEPT: usize>(object: Node, found: &mut Least)
    requires kept { 0 < KEPT }
    requires room { KEPT < ROOM × ROOM < 2 ^ 32 }
    ensures { found.new ≡ least found.old (distinct (tree object.entry)) }
{
    let mut room = [NO_NAME; ROOM];
    let mut kept = [NO_NAME; KEPT];
    check_in_order(object, &mut room, &mut kept, found);
}

/// Returns whether an object has more names than this. It walks over them.
#[inline(never)]
fn has_more(object: Node, count: usize) -> bool {
    let mut left = object.members();
    for _ in 0..count {
        if left.next().is_none() {
            return false;
        }
    }
    left.next().is_some()
}

/// The names of an object with more than `FEW` names are distinct.
#[cold]
#[inline(never)]
fn check_many(object: Node, found: &mut Least)
    ensures { found.new ≡ least found.old (distinct (tree object.entry)) }
{
    if !has_more(object, SOME) {
        check_by::<SMALL_ROOM, 1>(object, found);
    } else if object.bytes().len() <= SHORT {
        check_by::<MIDDLE_ROOM, MIDDLE_KEPT>(object, found);
    } else {
        check_by::<LARGE_ROOM, LARGE_KEPT>(object, found);
    }
}

/// Returns whether an object has at most `FEW` names.
#[inline(always)]
fn has_few(object: Node) -> bool {
    object.size() <= FEW_SIZE || !has_more(object, FEW)
}

/// The names of an object are distinct. Each that has the text of an earlier one has a finding.
#[inline(always)]
pub fn check_names(object: Node, found: &mut Least)
    ensures { found.new ≡ least found.old (distinct (tree object.entry)) }
{
    if has_few(object) {
        check_few(object, found);
    } else {
        check_many(object, found);
    }
}

/// The names of an object, of which some may begin alike, are distinct.
#[inline(never)]
fn check_alike(object: Node, found: &mut Least)
    ensures { found.new ≡ least found.old (distinct (tree object.entry)) }
{
    if has_few(object) {
        check_pairs(object, found);
    } else {
        check_many(object, found);
    }
}

/// The names of an object are distinct. They are if a walk of the caller has seen them begin apart
/// ([`Node::get_four`]).
#[tactic(auto, using(crate::proofs::Names::begin_distinct))]
#[inline(always)]
pub fn check_names_unless(apart: bool, object: Node, found: &mut Least)
    requires { apart ≡ true → begin_apart (members_of (tree object)) ≡ true }
    ensures { found.new ≡ least found.old (distinct (tree object.entry)) }
{
    if !apart {
        check_alike(object, found);
    }
}
