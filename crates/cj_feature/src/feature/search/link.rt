//! The two kinds of links between city objects: what one lists has to list it too.
ghost use Rattle.std.specs.Prelude.{◌≡◌, false};
ghost use Rattle.std.specs.Str.{chars};
ghost use Rattle.cj_spans.specs.Meaning.Finding.{least};
ghost use Rattle.cj_spans.specs.Meaning.Parts.{members_of};
ghost use Rattle.cj_spans.specs.View.{tree};
ghost use Rattle.cj_feature.specs.Meaning.Links.{is_known};
ghost use Rattle.cj_feature.specs.inner.Kin.{list_of, back_of, exempts, linked};

use crate::feature::links::{check_child, check_parent, is_group};
use cj_spans::{Least, Node};

/// What a city object lists.
#[derive(Clone, Copy)]
pub enum Link {
    Child,
    Parent,
}

impl Link {
    /// Returns the name of the member that lists them.
    pub fn list(self) -> &'static str
        ensures { chars result.now ≡ list_of self }
    {
        match self {
            Link::Child => "children",
            Link::Parent => "parents",
        }
    }

    /// Returns the name of the member in which each of them lists the city object.
    pub fn back(self) -> &'static str
        ensures { chars result.now ≡ back_of self }
    {
        match self {
            Link::Child => "parents",
            Link::Parent => "children",
        }
    }

    /// Returns whether those that the city object lists are not checked. The children of a group
    /// may be in other features.
    pub fn is_exempt(self, object: Node) -> bool
        ensures { result ≡ exempts self (tree object.entry) }
    {
        match self {
            Link::Child => is_group(object),
            Link::Parent => false,
        }
    }

    /// Checks one that the city object of this name lists. It searches all city objects.
    pub fn check(self, objects: Node, name: Node, item: Node, found: &mut Least)
        ensures { found.new
            ≡ least found.old (linked self (members_of (tree objects.entry)) (tree name.entry) (tree item.entry)) }
    {
        match self {
            Link::Child => check_child(objects, name, item, found),
            Link::Parent => check_parent(objects, name, item, found),
        }
    }

    /// Checks one that is no id in the feature. A parent may be in another one.
    pub fn check_absent(self, objects: Node, name: Node, item: Node, found: &mut Least)
        requires { is_known (members_of (tree objects)) (tree item) ≡ false }
        ensures { found.new
            ≡ least found.old (linked self (members_of (tree objects.entry)) (tree name.entry) (tree item.entry)) }
    {
        match self {
            Link::Child => check_child(objects, name, item, found),
            Link::Parent => {}
        }
    }
}
