//! Names of city objects without marks, sorted, so that a binary search finds a text among them. As
//! many are noted at once as fit into the list.
ghost use Rattle.std.specs.Prelude.{◌≡◌, ◌<◌, ◌≤◌, ◌+◌, [], false, length, slice_set, take};
ghost use Rattle.std.specs.List.Sorted.{IsPermutation};
ghost use Rattle.cj_spans.specs.View.{tree, line_of, source_of, members_left, members_line, members_source};
ghost use Rattle.cj_feature.specs.inner.Unmarked.{AreInNameOrder, IsNoted, ArePassed, AreSearchable, IsSought};

use crate::feature::search::hashed::Text;
use crate::feature::search::noted::Noted;
use cj_spans::{Members, Node};

/// The names that are looked for: those of all city objects, or these, which are sorted.
#[derive(Clone, Copy)]
pub enum Names<'a> {
    Every,
    These(&'a [Noted]),
}

/// Notes a name.
fn note(names: &mut [Noted], place: usize, name: Noted)
    requires { place < length names.old }
    ensures { names.new ≡ slice_set names.old place name }
{
    names[place] = name;
}

/// Sorts names.
fn sort(objects: Node, names: &mut [Noted])
    ensures order { AreInNameOrder objects.entry names.new }
    ensures moved { IsPermutation names.old names.new }
{
    names.sort_unstable_by(|first, second| first.compare(*second, objects));
}

/// Notes the names of the next city objects without a mark, as many as fit. Returns how many.
fn note_next<'a>(objects: Node<'a>, names: &mut [Noted], later: &mut Members<'a>) -> usize
    requires line { members_line later.old ≡ line_of objects }
    requires source { members_source later.old ≡ source_of objects }
    ensures few { result ≤ length names.new }
    ensures length { length names.new ≡ length names.old }
    ensures fewer { length (members_left later.new) + result ≤ length (members_left later.old) }
    ensures end { result < length names.old → members_left later.new ≡ [] }
    ensures passed { ArePassed objects.entry (members_left later.old) (members_left later.new) (take result names.new) }
    ensures line { members_line later.new ≡ line_of objects.entry }
    ensures source { members_source later.new ≡ source_of objects.entry }
{
    let mut count = 0;
    while count < names.len() {
        let Some((name, object)) = later.next() else {
            return count;
        };
        if !object.marked() {
            note(names, count, Noted::of(name));
            count += 1;
        }
    }
    count
}

/// Notes the names of the next city objects without a mark, as many as fit, and sorts them. Returns
/// how many.
pub fn gather_next<'a>(objects: Node<'a>, names: &mut [Noted], later: &mut Members<'a>) -> usize
    requires line { members_line later.old ≡ line_of objects }
    requires source { members_source later.old ≡ source_of objects }
    ensures few { result ≤ length names.new }
    ensures length { length names.new ≡ length names.old }
    ensures fewer { length (members_left later.new) + result ≤ length (members_left later.old) }
    ensures end { result < length names.old → members_left later.new ≡ [] }
    ensures order { AreInNameOrder objects.entry (take result names.new) }
    ensures passed { ArePassed objects.entry (members_left later.old) (members_left later.new) (take result names.new) }
    ensures line { members_line later.new ≡ line_of objects.entry }
    ensures source { members_source later.new ≡ source_of objects.entry }
{
    let count = note_next(objects, names, later);
    sort(objects, &mut names[..count]);
    count
}

/// Returns whether a text is one of the names.
fn has(objects: Node, names: &[Noted], text: Node) -> bool
    requires { AreInNameOrder objects names.now }
    ensures { result ≡ false → IsNoted objects.entry names.now (tree text.entry) → ⊥ }
{
    let text = Text::of(text);
    names
        .binary_search_by(|name| name.compare_with(text, objects))
        .is_ok()
}

impl<'a> Names<'a> {
    /// Returns whether a name of this text is looked for.
    pub fn has(self, objects: Node, text: Node) -> bool
        requires { AreSearchable objects self }
        ensures { result ≡ false → IsSought objects.entry self.entry (tree text.entry) → ⊥ }
    {
        match self {
            Names::Every => true,
            Names::These(names) => has(objects, names, text),
        }
    }
}
