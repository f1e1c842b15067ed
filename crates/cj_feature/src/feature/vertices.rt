//! The vertices of a feature, in order.
ghost use Rattle.std.specs.Prelude.{◌≡◌, ◌∷◌, ◌<◌, ℕ, true, pos, IfSome, Some, map};
ghost use Rattle.std.specs.List.{list_all};
ghost use Rattle.cj_spans.specs.View.{tree, items_left};
ghost use Rattle.cj_decimal.specs.Word.{IsWordOf};
ghost use Rattle.cj_geometry.specs.Meaning.Numbers.{whole_of};
ghost use Rattle.cj_feature.specs.Meaning.CityObject.{vertex_of};
ghost use Rattle.cj_feature.specs.Axes.{number_on};
ghost use Rattle.cj_feature.specs.inner.Typed.{is_vertex, begins_whole};

use cj_geometry::rule::{read_whole, read_whole_word};
use cj_spans::{Items, Node};

/// The remaining vertices, in order: three whole numbers each, as they are in the line.
#[derive(Clone, Copy)]
pub struct Vertices<'a> {
    pub(crate) items: Items<'a>,
    ghost whole: { list_all is_vertex (items_left items) ≡ true },
}

/// Returns the next of some whole numbers.
#[inline(always)]
pub fn next_whole(items: &mut Items) -> i64
    requires { begins_whole (map whole_of (items_left items.old)) ≡ true }
    ensures { map whole_of (items_left items.old) ≡ Some result ∷ map whole_of (items_left items.new) }
{
    match items.next() {
        Some(node) => match read_whole(node) {
            Some(whole) => whole,
            None => unreachable!(),
        },
        None => unreachable!(),
    }
}

/// Returns the whole numbers of a vertex.
#[inline(always)]
fn read_vertex(node: Node) -> [i64; 3]
    requires { is_vertex (tree node) ≡ true }
    ensures { map Some result ≡ vertex_of (tree node.entry) }
{
    let mut items = node.items();
    let x = next_whole(&mut items);
    let y = next_whole(&mut items);
    let z = next_whole(&mut items);
    [x, y, z]
}

/// Returns the digits of the number of a vertex on an axis as a word ([`read_whole_word`]), if they
/// are few. The number is found without a walk and without a test, since a vertex has three, and
/// each one is a single token.
#[inline(always)]
fn read_word_on(node: Node, axis: u32) -> Option<u64>
    requires vertex { is_vertex (tree node) ≡ true }
    requires on_an_axis { axis < 3 }
    ensures { IfSome result (λ w. (n : ℕ) × IsWordOf w n × (number_on axis (vertex_of (tree node.entry)) ≡ pos n)) }
{
    read_whole_word(node.item_behind(axis))
}

impl<'a> Vertices<'a> {
    ghost use Rattle.std.specs.Prelude.{◌≡◌, ◌∷◌, [], ℤ, List, Option, IfSome, IsTrue, drop};
    ghost use Rattle.cj_spans.specs.Meaning.Parts.{items_of};
    ghost use Rattle.cj_feature.specs.Walks.{vertices_left};

    /// Returns a walk over items that are vertices.
    #[tactic(auto, unfolding(crate::specs::Walks::vertices_left))]
    pub(crate) fn over(items: Items<'a>) -> Vertices<'a>
        requires { list_all is_vertex (items_left items) ≡ true }
        ensures { vertices_left result ≡ map vertex_of (items_left items.entry) }
    {
        Vertices { items }
    }

    /// Returns whether no vertex is left.
    #[inline(always)]
    #[tactic(auto, unfolding(crate::specs::Walks::vertices_left))]
    pub fn is_at_end(&self) -> bool
        ensures { IsTrue result → vertices_left self.now ≡ [] }
    {
        let mut items = self.items;
        items.next().is_none()
    }

    /// Returns the digits of the next vertex's number on an axis as a word
    /// ([`cj_decimal::Decimal::read_word_in`]), if it has at most eight digits and no minus. Words
    /// have the order of their numbers. None for any other number, and at the end.
    #[inline(always)]
    #[tactic(auto, unfolding(crate::specs::Walks::vertices_left))]
    pub fn next_word_on(&self, axis: u32) -> Option<u64>
        requires { axis < 3 }
        ensures { IfSome result (λ w. (v : List (Option ℤ)) × (vs : List (List (Option ℤ)))
            × (vertices_left self.now ≡ v ∷ vs) × (n : ℕ) × IsWordOf w n × (number_on axis v ≡ pos n)) }
    {
        let mut items = self.items;
        match items.next() {
            Some(node) => read_word_on(node, axis),
            None => None,
        }
    }

    /// Goes past the next vertex, if there is one. It does not read the numbers.
    #[inline(always)]
    #[tactic(auto, unfolding(crate::specs::Walks::vertices_left))]
    pub fn go_past(&mut self)
        ensures { vertices_left self.new ≡ drop 1 (vertices_left self.old) }
    {
        let mut items = self.items;
        let _ = items.next();
        *self = Vertices { items };
    }
}

impl<'a> Iterator for Vertices<'a> {
    ghost use Rattle.std.specs.Prelude.{map, Some};
    ghost use Rattle.std.specs.Iterator.{YieldsFirstBy, item_count};
    ghost use Rattle.cj_feature.specs.Walks.{vertices_left};

    type Item = [i64; 3];

    ghost next_gives = { YieldsFirstBy (λ v. map Some v) vertices_left };

    ghost remaining = { item_count vertices_left };

    #[inline(always)]
    #[tactic(auto, unfolding(crate::specs::Walks::vertices_left))]
    fn next(&mut self) -> Option<[i64; 3]> {
        let mut items = self.items;
        match items.next() {
            Some(node) => {
                *self = Vertices { items };
                Some(read_vertex(node))
            }
            None => {
                *self = Vertices { items };
                None
            }
        }
    }
}
