//! Members of an object.
ghost use Rattle.std.specs.Prelude.{◌≡◌, ℕ, List, option_map, IfSome};
ghost use Rattle.std.specs.Str.{chars};
ghost use Rattle.cj_spans.specs.Meaning.Finding.{least};
ghost use Rattle.cj_spans.specs.Meaning.Kinds.{is_text};
ghost use Rattle.cj_spans.specs.Meaning.Parts.{member_of};
ghost use Rattle.cj_spans.specs.View.{tree, line_of};
ghost use Rattle.cj_geometry.specs.Meaning.Rule.{of_kind, nothing, missing, needs};

use crate::rule::{add, check_text};
use cj_spans::{Least, Node, Reason};

/// Returns the value of the first member with this name. If there is none, adds `MissingMember` at
/// the object and returns None.
#[inline(always)]
pub fn needed<'a>(object: Node<'a>, name: &str, found: &mut Least) -> Option<Node<'a>>
    ensures value { option_map tree result ≡ member_of (chars name.now) (tree object.entry) }
    ensures line { IfSome result (λ n. line_of n ≡ line_of object.entry) }
    ensures found { found.new ≡ least found.old (missing (tree object.entry) (option_map tree result)) }
{
    let value = object.get(name);
    check_there(object, value, found);
    value
}

/// Checks that the object has this member. The caller has looked it up.
pub fn check_there(object: Node, member: Option<Node>, found: &mut Least)
    ensures { found.new ≡ least found.old (missing (tree object.entry) (option_map tree member.entry)) }
{
    if member.is_none() {
        add(object, Reason::MissingMember, found);
    }
}

/// Checks that the object has this member, and that it is a string. The caller has looked it up.
#[inline(always)]
pub fn check_text_there(object: Node, member: Option<Node>, found: &mut Least)
    requires { (name : List ℕ) × (option_map tree member ≡ member_of name (tree object)) }
    ensures { (name : List ℕ) → option_map tree member.entry ≡ member_of name (tree object.entry)
        → found.new ≡ least found.old (needs name (of_kind is_text nothing) (tree object.entry)) }
{
    check_there(object, member, found);
    if let Some(value) = member {
        check_text(value, found);
    }
}

/// Checks that the object has a member with this name, and that it is a string.
#[inline(always)]
pub fn check_text_member(object: Node, name: &str, found: &mut Least)
    ensures { found.new ≡ least found.old (needs (chars name.now) (of_kind is_text nothing) (tree object.entry)) }
{
    check_text_there(object, object.get(name), found);
}
