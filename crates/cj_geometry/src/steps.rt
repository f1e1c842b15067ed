//! A long list whose items are looked up by number, many times, also for many lines.
//!
//! A list can only be walked. So one walk records, at 64 even steps, how many values and names come
//! before the step. That is a fact about the list alone, and finds its items in any copy of its
//! line. Then an item is at most a 64th of the list away.
ghost use Rattle.std.specs.Prelude.{◌≡◌, ◌<◌, ◌*◌, ◌/◌, [], length, option_map, slice_get, IfSome};
ghost use Rattle.cj_spans.specs.Meaning.Parts.{items_of};
ghost use Rattle.cj_spans.specs.View.{tree, source_of};
ghost use Rattle.cj_geometry.specs.ListSteps.{AreSizesAt, AreStepsOf, AreFinerStepsOf};

use crate::lod::item_at;
use crate::rule::count_items;
use cj_spans::Node;

/// How many steps are kept.
const STEPS: usize = 64;

/// How many finer steps are kept.
const FINER_STEPS: usize = 1_024;

/// The steps of a list. They borrow nothing, so they can be kept with a copy of its line and
/// tokens.
#[derive(Clone, Copy, Debug)]
pub struct Steps {
    count: u64,
    sizes: [u32; STEPS],
}

/// The same with more steps, for a list with many look-ups. An item is at most a 1,024th of the
/// list away.
#[derive(Clone, Copy)]
pub(crate) struct FinerSteps {
    count: u64,
    sizes: [u32; FINER_STEPS],
}

/// Records how many values and names come before each item whose number is a multiple of `step`.
fn note_sizes(list: Node, step: u64, sizes: &mut [u32])
    requires { length (items_of (tree list)) < length sizes.old * step }
    ensures room { length sizes.new ≡ length sizes.old }
    ensures sizes { AreSizesAt step (items_of (tree list.entry)) sizes.new }
{
    let mut place = 0;
    let mut until = 0;
    let mut size = 0;
    for item in list.items() {
        if until == 0 {
            sizes[place] = size;
            place += 1;
            until = step;
        }
        until -= 1;
        size += item.size();
    }
}

/// Returns the item of a number below the count. `sizes` are the records at each multiple of
/// `step`.
#[tactic(auto, using(crate::proofs::Arrays::found_item))]
fn item_behind<'a>(list: Node<'a>, step: u64, sizes: &[u32], number: u64) -> Option<Node<'a>>
    requires some { 0 < step }
    requires sizes { AreSizesAt step (items_of (tree list)) sizes.now }
    requires within { number < length (items_of (tree list)) }
    requires place { number / step < length sizes.now }
    ensures item { option_map tree result ≡ slice_get (items_of (tree list.entry)) number }
    ensures source { IfSome result (λ n. source_of n ≡ source_of list.entry) }
{
    let size = sizes[(number / step) as usize];
    item_at(list.items_behind(size), number % step)
}

impl Steps {
    /// Returns the steps of a list, by two walks over it. Any other value has no items.
    pub fn of(list: Node) -> Steps
        ensures { AreStepsOf (items_of (tree list.entry)) result }
    {
        let count = count_items(list);
        let mut sizes = [0; STEPS];
        note_sizes(list, count / STEPS as u64 + 1, &mut sizes);
        Steps { count, sizes }
    }

    /// Returns the steps of an empty list.
    pub fn none() -> Steps
        ensures { AreStepsOf [] result }
    {
        Steps {
            count: 0,
            sizes: [0; STEPS],
        }
    }

    /// Returns how many items the list has.
    pub(crate) fn count(&self) -> u64
        ensures { result ≡ self.now.count }
    {
        self.count
    }

    /// Returns the item with this number, from 0. `list` is the list of these steps.
    #[tactic(auto, using(crate::proofs::Arrays::step_of))]
    pub(crate) fn item<'a>(&self, list: Node<'a>, number: u64) -> Option<Node<'a>>
        requires { AreStepsOf (items_of (tree list)) self.now }
        ensures item { option_map tree result ≡ slice_get (items_of (tree list.entry)) number }
        ensures source { IfSome result (λ n. source_of n ≡ source_of list.entry) }
    {
        if number >= self.count {
            return None;
        }
        item_behind(list, self.count / STEPS as u64 + 1, &self.sizes, number)
    }

    /// Returns finer steps of the same list, by one walk over it.
    pub(crate) fn finer(&self, list: Node) -> FinerSteps
        requires { AreStepsOf (items_of (tree list)) self.now }
        ensures { AreFinerStepsOf (items_of (tree list.entry)) result }
    {
        let mut sizes = [0; FINER_STEPS];
        note_sizes(list, self.count / FINER_STEPS as u64 + 1, &mut sizes);
        FinerSteps {
            count: self.count,
            sizes,
        }
    }
}

impl FinerSteps {
    /// Returns the item with this number, from 0. `list` is the list of these steps.
    #[tactic(auto, using(crate::proofs::Arrays::finer_step_of))]
    pub(crate) fn item<'a>(&self, list: Node<'a>, number: u64) -> Option<Node<'a>>
        requires { AreFinerStepsOf (items_of (tree list)) self.now }
        ensures item { option_map tree result ≡ slice_get (items_of (tree list.entry)) number }
        ensures source { IfSome result (λ n. source_of n ≡ source_of list.entry) }
    {
        if number >= self.count {
            return None;
        }
        item_behind(
            list,
            self.count / FINER_STEPS as u64 + 1,
            &self.sizes,
            number,
        )
    }
}
