//! The geometries of a feature, in order.
ghost use Rattle.std.specs.Prelude.{◌≡◌, codes, option_map, IfSome};
ghost use Rattle.std.specs.Str.{chars};
ghost use Rattle.std.proofs.Props.{props};
ghost use Rattle.cj_spans.specs.View.{tree, line_of, items_line, members_left, members_line};
ghost use Rattle.cj_spans.specs.Meaning.Parts.{member_of, items_if};
ghost use Rattle.cj_geometry.specs.ListSteps.{left_of};

use cj_spans::{Items, Members, Node};

/// The remaining geometries of all city objects, in order.
#[derive(Clone, Copy)]
pub struct Geometries<'a> {
    pub(crate) items: Option<Items<'a>>,
    pub(crate) objects: Members<'a>,
    ghost same: { IfSome items (λ w. items_line w ≡ members_line objects) } by { Prim.hlevel props },
}

/// Returns a walk over the geometries of a city object, if it has any.
#[inline(always)]
fn geometries_of(object: Node) -> Option<Items>
    ensures left { left_of result ≡ items_if (member_of (chars (codes "geometry")) (tree object.entry)) }
    ensures line { IfSome result (λ w. items_line w ≡ line_of object.entry) }
{
    match object.get("geometry") {
        Some(list) => Some(list.items()),
        None => None,
    }
}

impl<'a> Geometries<'a> {
    ghost use Rattle.std.specs.List.{flat_map};
    ghost use Rattle.cj_feature.specs.Meaning.CityObject.{object_geometries};
    ghost use Rattle.cj_feature.specs.Walks.{geometries_left, geometries_line};

    /// Returns a walk over the geometries of these city objects.
    #[tactic(auto, unfolding(crate::specs::Walks::geometries_left, crate::specs::Walks::geometries_line))]
    pub(crate) fn over(objects: Members<'a>) -> Geometries<'a>
        ensures left { geometries_left result ≡ flat_map object_geometries (members_left objects.entry) }
        ensures line { geometries_line result ≡ members_line objects.entry }
    {
        Geometries {
            items: None,
            objects,
        }
    }
}

impl<'a> Iterator for Geometries<'a> {
    ghost use Rattle.std.specs.Iterator.{item_count};
    ghost use Rattle.cj_feature.specs.Walks.{geometries_left, YieldsGeometry};

    type Item = Node<'a>;

    ghost next_gives = { YieldsGeometry };

    ghost remaining = { item_count geometries_left };

    #[inline(always)]
    #[tactic(auto, unfolding(crate::specs::Walks::geometries_left, crate::specs::Walks::geometries_line))]
    fn next(&mut self) -> Option<Node<'a>> {
        let mut items = self.items;
        let mut objects = self.objects;
        loop {
            if let Some(list) = &mut items {
                if let Some(node) = list.next() {
                    *self = Geometries { items, objects };
                    return Some(node);
                }
            }
            match objects.next() {
                Some((_, object)) => items = geometries_of(object),
                None => {
                    *self = Geometries {
                        items: None,
                        objects,
                    };
                    return None;
                }
            }
        }
    }
}
