//! The lists of the guide. The remainder of a number of its name selects the list of a city object.
//! A long list is sorted by name, so that no names make a search long.
ghost use Rattle.std.specs.Prelude.{◌≡◌, ◌<◌, ◌≤◌, Some, length, slice_get};
ghost use Rattle.std.specs.List.Sorted.{IsPermutation};

use crate::feature::search::near::slot::{EMPTY, Slot};
use cj_spans::Node;
use std::cmp::Ordering;

/// A list that is longer is sorted.
const LONG: usize = 32;

/// The city objects that the guide takes.
#[derive(Clone, Copy, Drop)]
pub enum Meant {
    All,
    Parents,
    Others,
}

/// At most `OBJECTS` city objects, in lists. Each list starts where the one before it ends.
#[derive(Drop)]
pub struct Lists<const OBJECTS: usize, const LISTS: usize> {
    slots: [Slot; OBJECTS],
    ends: [u32; LISTS],
    pub meant: Meant,
    pub count: usize,
    ghost lists: { 0 < LISTS },
}

/// Returns the number of the list of a text, less than `LISTS`.
fn list_of<const LISTS: usize>(text: Node) -> usize
    requires { 0 < LISTS }
    ensures { result < LISTS }
{
    (text.text_hash() % LISTS as u64) as usize
}

/// Returns the slot at a place.
fn slot_at(slots: &[Slot], place: usize) -> Slot
    requires { place < length slots.now }
    ensures { slice_get slots.now place ≡ Some result }
{
    slots[place]
}

/// Compares the names of two city objects.
fn compare_names(objects: Node, first: Slot, second: Slot) -> Ordering {
    let name = objects.at(first.name());
    name.compare_text(objects.at(second.name()))
}

/// Returns whether a city object comes before those of this name that are not finished.
fn is_behind(objects: Node, slot: Slot, text: Node) -> bool {
    match objects.at(slot.name()).compare_text(text) {
        Ordering::Less => true,
        Ordering::Equal => slot.is_finished(),
        Ordering::Greater => false,
    }
}

/// Sorts the slots between two places by the names of their city objects.
#[tactic(auto, using(crate::proofs::NearLemmas::slots_moved))]
fn sort(objects: Node, slots: &mut [Slot], start: usize, end: usize)
    requires within { start ≤ end × end ≤ length slots.old }
    ensures { IsPermutation slots.old slots.new }
{
    slots[start..end].sort_unstable_by(|first, second| compare_names(objects, *first, *second));
}

/// Sets all lengths to 0.
fn clear(lengths: &mut [u32]) {
    for one in lengths.iter_mut() {
        *one = 0;
    }
}

/// Turns the lengths of lists into the places where they begin.
fn add_up(lengths: &mut [u32]) {
    let mut sum: u32 = 0;
    for one in lengths.iter_mut() {
        let length = *one;
        *one = sum;
        sum = sum.wrapping_add(length);
    }
}

impl<const OBJECTS: usize, const LISTS: usize> Lists<OBJECTS, LISTS> {
    ghost use Rattle.std.specs.Prelude.{ℕ};
    ghost use Rattle.std.specs.List.{Contains};
    ghost use Rattle.cj_spans.specs.Meaning.Parts.{members_of};
    ghost use Rattle.cj_spans.specs.View.{tree};
    ghost use Rattle.cj_feature.specs.declared.feature.search.near.slot.Slot.{Slot};
    ghost use Rattle.cj_feature.specs.inner.Slots.{IsReady};
    ghost use Rattle.cj_feature.specs.inner.Marking.{Knows, AddsNone, IsBeside};

    /// Returns lists that hold no city object.
    #[tactic(auto, using(crate::proofs::NearLemmas::none_at_hand))]
    pub fn new() -> Self
        requires { 0 < LISTS }
        ensures { (k n : ℕ) (s : Slot) → slice_get result.slots k ≡ Some s → IsReady s n → ⊥ }
    {
        Lists {
            slots: [EMPTY; OBJECTS],
            ends: [0; LISTS],
            meant: Meant::All,
            count: 0,
        }
    }

    /// Returns whether the guide takes this city object now.
    fn is_meant(&self, object: Node) -> bool {
        match self.meant {
            Meant::All => true,
            Meant::Parents => object.get("children").is_some(),
            Meant::Others => object.get("children").is_none(),
        }
    }

    /// Counts the city objects for each list. It skips the first `skip`, and counts at most
    /// `OBJECTS`.
    fn count_lists(&mut self, objects: Node, skip: usize)
        ensures { AddsNone self.old self.new }
    {
        clear(&mut self.ends);
        self.count = 0;
        let mut passed = 0;
        for (name, object) in objects.members() {
            if !self.is_meant(object) {
                continue;
            }
            if passed < skip {
                passed += 1;
            } else if self.count < OBJECTS {
                let list = list_of::<LISTS>(name);
                self.ends[list] = self.ends[list].wrapping_add(1);
                self.count += 1;
            }
        }
    }

    /// Puts the lists one after another, each with the length that was counted. All are empty then.
    fn start_lists(&mut self)
        ensures { AddsNone self.old self.new }
    {
        add_up(&mut self.ends);
    }

    /// Returns where a list starts and where it ends. It starts where the list before it ends.
    fn bounds(&self, list: usize) -> (usize, usize)
        requires { list < LISTS }
        ensures { result.0 ≤ result.1 × result.1 ≤ OBJECTS }
    {
        let end = (self.ends[list] as usize).min(OBJECTS);
        if list == 0 {
            return (0, end);
        }
        let start = (self.ends[list - 1] as usize).min(end);
        (start, end)
    }

    /// Sorts each long list by name.
    fn sort_lists(&mut self, objects: Node)
        ensures { AddsNone self.old self.new }
    {
        for list in 0..LISTS {
            let (start, end) = self.bounds(list);
            if end - start > LONG {
                sort(objects, &mut self.slots, start, end);
            }
        }
    }

    /// Returns the place of the first city object of a long list that has this name and is not
    /// finished. If there is none, returns where it would be.
    fn first_of(&self, objects: Node, text: Node, start: usize, end: usize) -> usize
        requires { start ≤ end × end ≤ OBJECTS }
    {
        let all = &self.slots[..];
        let list = &all[start..end];
        start + list.partition_point(|slot| is_behind(objects, *slot, text))
    }

    /// Adds a city object of this name at the end of its list.
    fn take(&mut self, objects: Node, name: Node, object: Node)
        requires known { Knows objects self.old }
        requires held { Contains (members_of (tree objects)) (tree name, tree object) }
        requires name { IsBeside objects name }
        requires object { IsBeside objects object }
        ensures { Knows objects.entry self.new }
    {
        let number = object.number();
        if name.number() as u64 + 1 != number as u64 {
            return;
        }
        let list = list_of::<LISTS>(name);
        let place = self.ends[list] as usize;
        if place < OBJECTS {
            self.slots[place] = Slot::ready(number);
            self.ends[list] = self.ends[list].wrapping_add(1);
        }
    }

    /// Adds the city objects after the first `skip` to their lists, as many as were counted.
    fn fill_lists(&mut self, objects: Node, skip: usize)
        requires { Knows objects self.old }
        ensures { Knows objects.entry self.new }
    {
        let mut passed = 0;
        let mut taken = 0;
        for (name, object) in objects.members() {
            if !self.is_meant(object) {
                continue;
            }
            if passed < skip {
                passed += 1;
            } else if taken < self.count {
                self.take(objects, name, object);
                taken += 1;
            }
        }
    }

    /// Takes the city objects after the first `skip`, at most `OBJECTS`.
    pub fn gather(&mut self, objects: Node, skip: usize)
        requires { Knows objects self.old }
        ensures { Knows objects.entry self.new }
    {
        self.count_lists(objects, skip);
        self.start_lists();
        self.fill_lists(objects, skip);
        self.sort_lists(objects);
    }

    /// Returns the places of the list of a text where its city objects can be, and whether they are
    /// sorted.
    pub fn places(&self, objects: Node, text: Node) -> (usize, usize, bool)
        ensures { result.1 ≤ OBJECTS }
    {
        let (start, end) = self.bounds(list_of::<LISTS>(text));
        if end - start > LONG {
            (self.first_of(objects, text, start, end), end, true)
        } else {
            (start, end, false)
        }
    }

    /// Returns the slot at a place.
    pub fn slot(&self, place: usize) -> Slot
        requires { place < OBJECTS }
        ensures { slice_get self.now.slots place ≡ Some result }
    {
        slot_at(&self.slots, place)
    }

    /// Finishes the city object of this number, which is at this place.
    pub fn finish(&mut self, place: usize, number: u32)
        requires place { place < OBJECTS }
        requires number { number < 2147483648 }
        ensures { AddsNone self.old self.new }
    {
        self.slots[place] = Slot::finished(number);
    }
}
