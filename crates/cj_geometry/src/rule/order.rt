//! Names of an object in order: by their texts, and for equal texts by where they start. So equal
//! names are neighbours.
//!
//! A name is kept in 12 bytes: the word of its text, and its number in the line. The word
//! distinguishes most texts. Only if two words are the same, the line is read.
ghost use Rattle.std.specs.Prelude.{◌≡◌, ◌<◌, length, All};
ghost use Rattle.std.specs.List.Sorted.{IsPermutation};
ghost use Rattle.cj_spans.specs.View.{tree, source_of};
ghost use Rattle.cj_geometry.specs.inner.Names.{compare_names, is_earlier, Ascend};
ghost use Rattle.cj_geometry.specs.inner.WordedNames.{IsWorded, word_in, name_in, names_in, compare_worded, AreLeast};

use cj_spans::Node;
use std::cmp::Ordering;

/// A name of a line: the two halves of its text's word, and its number. With halves this takes 12
/// bytes.
#[derive(Clone, Copy)]
pub(super) struct WordedName {
    upper: u32,
    lower: u32,
    number: u32,
}

/// What stands in a place that has no name yet.
pub(super) const NO_NAME: WordedName = WordedName {
    upper: 0,
    lower: 0,
    number: 0,
};

/// The value of one in the upper half of a word.
const HALF: u64 = 1 << 32;

/// Compares two names.
fn compare_nodes(first: Node, second: Node) -> Ordering
    ensures { result ≡ compare_names (tree first.entry) (tree second.entry) }
{
    match first.compare_text(second) {
        Ordering::Equal => first.start().cmp(&second.start()),
        other => other,
    }
}

impl WordedName {
    /// Returns a name with its word.
    #[inline(always)]
    pub(super) fn of(name: Node) -> WordedName
        ensures name { name_in (source_of name.entry) result ≡ tree name.entry }
        ensures word { IsWorded (source_of name.entry) result }
    {
        let word = name.text_word();
        WordedName {
            upper: (word / HALF) as u32,
            lower: (word % HALF) as u32,
            number: name.number(),
        }
    }

    /// Returns the word of its text.
    #[inline(always)]
    pub(super) fn word(self) -> u64
        ensures { result ≡ word_in self }
    {
        self.upper as u64 * HALF + self.lower as u64
    }

    /// Returns the name itself, in the line of an object.
    pub(super) fn name(self, object: Node) -> Node
        ensures { tree result ≡ name_in (source_of object.entry) self }
    {
        object.at(self.number)
    }
}

/// Compares two names of an object's line: by their words, and for equal words by their texts.
#[inline(always)]
fn compare(object: Node, first: WordedName, second: WordedName) -> Ordering
    ensures { result ≡ compare_worded (source_of object.entry) first second }
{
    match first.word().cmp(&second.word()) {
        Ordering::Equal => compare_nodes(first.name(object), second.name(object)),
        other => other,
    }
}

/// Returns whether the first of two names comes before the second.
#[inline(always)]
#[tactic(auto, using(crate::proofs::Distinct::less_as_earlier))]
pub(super) fn is_before(object: Node, first: WordedName, second: WordedName) -> bool
    requires first { IsWorded (source_of object) first }
    requires second { IsWorded (source_of object) second }
    ensures { result ≡ is_earlier (name_in (source_of object.entry) first) (name_in (source_of object.entry) second) }
{
    compare(object, first, second).is_lt()
}

/// Sorts names.
pub(super) fn sort(object: Node, names: &mut [WordedName])
    requires { All (IsWorded (source_of object)) names.old }
    ensures permutation { IsPermutation names.old names.new }
    ensures order { Ascend (names_in (source_of object.entry) names.new) }
{
    names.sort_unstable_by(|first, second| compare(object, *first, *second));
}

/// Copies the least of these names into `least`, as many as fit, and returns the next one. The
/// names themselves change their order.
pub(super) fn take_least(
    object: Node,
    names: &mut [WordedName],
    least: &mut [WordedName],
) -> WordedName
    requires { length least.old < length names.old }
    ensures room { length names.new ≡ length names.old }
    ensures count { length least.new ≡ length least.old }
    ensures least { AreLeast (source_of object.entry) names.old least.new result }
{
    let (front, next, _) = names.select_nth_unstable_by(
        least.len(),
        |first, second| compare(object, *first, *second),
    );
    least.copy_from_slice(front);
    *next
}
