//! The coordinates of a feature's vertices on one axis, in order.
ghost use Rattle.std.specs.Prelude.{◌≡◌, ◌<◌, None, Some, get_or, true, map};
ghost use Rattle.std.specs.List.{list_all};
ghost use Rattle.cj_spans.specs.View.{tree, items_left};
ghost use Rattle.cj_feature.specs.Meaning.CityObject.{vertex_of};
ghost use Rattle.cj_feature.specs.Axes.{number_on};
ghost use Rattle.cj_feature.specs.inner.Typed.{is_vertex};

use crate::feature::vertices::next_whole;
use cj_spans::{Items, Node};

/// The remaining coordinates on one axis, in order: whole numbers, as they are in the line. No
/// number on another axis is read.
#[derive(Clone, Copy)]
pub struct Coordinates<'a> {
    items: Items<'a>,
    axis: usize,
    ghost whole: { list_all is_vertex (items_left items) ≡ true },
    ghost on_an_axis: { axis < 3 },
}

/// Returns the number of a vertex on an axis. It passes over the items before it.
fn read_coordinate(node: Node, axis: usize) -> i64
    requires whole { is_vertex (tree node) ≡ true }
    requires on_an_axis { axis < 3 }
    ensures { result ≡ number_on axis (vertex_of (tree node.entry)) }
{
    let mut items = node.items();
    for _ in 0..axis {
        items.next();
    }
    next_whole(&mut items)
}

impl<'a> Coordinates<'a> {
    ghost use Rattle.cj_feature.specs.Walks.{coordinates_left};

    /// Returns a walk over items that are vertices.
    #[tactic(auto, unfolding(crate::specs::Walks::coordinates_left))]
    pub(crate) fn over(items: Items<'a>, axis: usize) -> Coordinates<'a>
        requires whole { list_all is_vertex (items_left items) ≡ true }
        requires on_an_axis { axis < 3 }
        ensures numbers { coordinates_left result ≡ map (number_on axis) (map vertex_of (items_left items.entry)) }
        ensures there { map Some (coordinates_left result)
            ≡ map (λ v. get_or v axis None) (map vertex_of (items_left items.entry)) }
    {
        Coordinates { items, axis }
    }
}

impl<'a> Iterator for Coordinates<'a> {
    ghost use Rattle.std.specs.Iterator.{YieldsFirst, item_count};
    ghost use Rattle.cj_feature.specs.Walks.{coordinates_left};

    type Item = i64;

    ghost next_gives = { YieldsFirst coordinates_left };

    ghost remaining = { item_count coordinates_left };

    #[inline(always)]
    #[tactic(auto, unfolding(crate::specs::Walks::coordinates_left))]
    fn next(&mut self) -> Option<i64> {
        let mut items = self.items;
        let axis = self.axis;
        match items.next() {
            Some(node) => {
                *self = Coordinates { items, axis };
                Some(read_coordinate(node, axis))
            }
            None => {
                *self = Coordinates { items, axis };
                None
            }
        }
    }
}
