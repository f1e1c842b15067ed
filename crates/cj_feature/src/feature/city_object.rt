//! The city objects of a feature, in order.
ghost use Rattle.std.specs.Prelude.{◌≡◌, option_map};
ghost use Rattle.cj_spans.specs.View.{tree, members_left};
ghost use Rattle.cj_geometry.specs.ObjectTypes.{row_at};
ghost use Rattle.cj_feature.specs.Meaning.CityObject.{type_row};

use cj_geometry::ObjectType;
use cj_spans::{Members, Node};

/// A city object: its id, its type, and the object itself. A type of an extension is None.
#[derive(Clone, Copy)]
pub struct CityObject<'a> {
    pub id: Node<'a>,
    pub object_type: Option<ObjectType>,
    pub node: Node<'a>,
    ghost typed: { type_row (tree node) ≡ option_map row_at object_type },
}

/// The remaining city objects, in order.
#[derive(Clone, Copy)]
pub struct Objects<'a> {
    pub(crate) members: Members<'a>,
}

/// Returns the type of a city object, if the table has it.
#[inline(always)]
fn type_of(node: Node) -> Option<ObjectType>
    ensures { type_row (tree node.entry) ≡ option_map row_at result }
{
    match node.get("type") {
        Some(name) => ObjectType::of(name),
        None => None,
    }
}

impl<'a> Objects<'a> {
    ghost use Rattle.cj_spans.specs.View.{members_line};
    ghost use Rattle.cj_feature.specs.Walks.{objects_left, objects_line};

    /// Returns a walk over members.
    #[tactic(auto, unfolding(crate::specs::Walks::objects_left, crate::specs::Walks::objects_line))]
    pub(crate) fn over(members: Members<'a>) -> Objects<'a>
        ensures left { objects_left result ≡ members_left members.entry }
        ensures line { objects_line result ≡ members_line members.entry }
    {
        Objects { members }
    }
}

impl<'a> Iterator for Objects<'a> {
    ghost use Rattle.std.specs.Iterator.{item_count};
    ghost use Rattle.cj_feature.specs.Walks.{objects_left, YieldsObject};

    type Item = CityObject<'a>;

    ghost next_gives = { YieldsObject };

    ghost remaining = { item_count objects_left };

    #[inline(always)]
    #[tactic(auto, unfolding(crate::specs::Walks::objects_left, crate::specs::Walks::objects_line))]
    fn next(&mut self) -> Option<CityObject<'a>> {
        let mut members = self.members;
        match members.next() {
            Some((id, node)) => {
                *self = Objects { members };
                Some(CityObject {
                    id,
                    object_type: type_of(node),
                    node,
                })
            }
            None => {
                *self = Objects { members };
                None
            }
        }
    }
}
