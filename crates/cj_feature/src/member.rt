//! Members that must be a certain text, and members that are counted.
ghost use Rattle.std.specs.Prelude.{◌≡◌, ℕ, List, option_map};
ghost use Rattle.std.specs.Str.{chars};
ghost use Rattle.cj_spans.specs.Meaning.Finding.{least};
ghost use Rattle.cj_spans.specs.Meaning.Kinds.{is_text};
ghost use Rattle.cj_spans.specs.Meaning.Parts.{member_of};
ghost use Rattle.cj_spans.specs.View.{tree};
ghost use Rattle.cj_geometry.specs.Meaning.Geometry.{count_of};
ghost use Rattle.cj_geometry.specs.Meaning.Rule.{of_kind, missing};
ghost use Rattle.cj_feature.specs.Meaning.Header.{is_named, has_member_named};

use cj_geometry::rule::{add, check_there, count_items};
use cj_spans::{Kind, Least, Node, Reason};

/// Checks that the value is this text. Another text has `reason`.
#[inline(always)]
fn check_name(node: Node, text: &str, reason: Reason, found: &mut Least)
    ensures { found.new ≡ least found.old (of_kind is_text (is_named reason (chars text.now)) (tree node.entry)) }
{
    match node.kind() {
        Kind::Text => {
            if !node.text_is(text) {
                add(node, reason, found);
            }
        }
        _ => add(node, Reason::WrongKind, found),
    }
}

/// Checks that the object has this member, and that it is this text. The caller has looked it up.
/// Another text has `reason`.
#[inline(always)]
pub fn check_name_there(
    object: Node,
    member: Option<Node>,
    text: &str,
    reason: Reason,
    found: &mut Least,
)
    ensures { (name : List ℕ) → option_map tree member.entry ≡ member_of name (tree object.entry)
        → found.new ≡ least found.old (has_member_named name reason (chars text.now) (tree object.entry)) }
{
    check_there(object, member, found);
    if let Some(value) = member {
        check_name(value, text, reason, found);
    }
}

/// Checks that the object has a member with this name, which is this text. Another text has
/// `reason`.
#[inline(always)]
pub fn check_name_member(object: Node, name: &str, text: &str, reason: Reason, found: &mut Least)
    ensures { found.new
        ≡ least found.old (has_member_named (chars name.now) reason (chars text.now) (tree object.entry)) }
{
    check_name_there(object, object.get(name), text, reason, found);
}

/// Returns how many items the member with this name has, if it is an array.
pub fn count_member(object: Node, name: &str) -> Option<u64>
    ensures { result ≡ count_of (member_of (chars name.now) (tree object.entry)) }
{
    match object.get(name) {
        Some(value) => match value.kind() {
            Kind::Array => Some(count_items(value)),
            _ => None,
        },
        None => None,
    }
}
