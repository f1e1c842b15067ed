//! The functions that rules are written with: what each checks of a value, and which finding it
//! adds.
//!
//! A rule is a function from a value to its findings. Only the least finding is kept ([`Least`]).
//! Each function here takes a value, what the rule requires of it, and the least finding so far. It
//! adds a finding at the value itself, but a missing member at the object. No function allocates,
//! and none can fail. A rule may use any number of them, in any order.
//!
//! ```text
//! if check_object(node, found) {                           // or WrongKind at the value
//!     check_names(node, found);                            // or DuplicateName at the name
//!     check_text_member(node, "type", found);              // or MissingMember, WrongKind
//!     if let Some(point) = needed(node, "point", found) {  // or MissingMember at the object
//!         check_length(point, 3, Reason::NotThree, found); // or WrongKind, NotThree
//!         for item in point.items() {
//!             check_number(item, found);                   // or WrongKind, NumberRange
//!         }
//!     }
//! }
//! ```
ghost use Rattle.std.specs.Prelude.{◌≡◌, IsTrue};
ghost use Rattle.cj_spans.specs.declared.reason.Reason.{Reason as ReasonOf};
ghost use Rattle.cj_spans.specs.Meaning.Finding.{least};
ghost use Rattle.cj_spans.specs.Meaning.Kinds.{is_text, is_array, is_object};
ghost use Rattle.cj_spans.specs.Meaning.Parts.{kind_of};
ghost use Rattle.cj_spans.specs.View.{tree};
ghost use Rattle.cj_geometry.specs.Meaning.Rule.{one, of_kind, nothing};

mod array;
mod member;
mod names;
mod number;
mod order;

pub use array::{check_length, count_items};
use cj_spans::{Finding, Kind, Least, Node, Reason};
pub use member::{check_text_member, check_text_there, check_there, needed};
pub use names::{check_names, check_names_unless};
pub(crate) use number::is_few_below;
pub use number::{
    Bound, check_index, check_index_below, check_number, check_whole, count_indices, count_wholes,
    is_short_triple, read_whole, read_whole_word,
};

/// Adds a reason at a value. Few values have one.
#[cold]
#[inline(never)]
pub fn add(node: Node, reason: Reason, found: &mut Least)
    ensures { found.new ≡ least found.old (one reason (tree node.entry)) }
{
    found.add(Finding {
        place: node.start(),
        reason,
    });
}

/// Returns whether the finding so far is before this value. Then no finding at the value is
/// reported.
#[tactic(auto, using(crate::proofs::Names::found_before))]
#[inline(always)]
pub fn is_found_before(found: Least, node: Node) -> bool
    ensures { IsTrue result → (r : ReasonOf) → least found (one r (tree node.entry)) ≡ found }
{
    match found.get() {
        Some(first) => first.place < node.start(),
        None => false,
    }
}

/// Checks that the value is a string. Otherwise adds `WrongKind`.
pub fn check_text(node: Node, found: &mut Least)
    ensures { found.new ≡ least found.old (of_kind is_text nothing (tree node.entry)) }
{
    match node.kind() {
        Kind::Text => {}
        _ => add(node, Reason::WrongKind, found),
    }
}

/// Returns whether the value is an array. If it is not, adds `WrongKind`.
#[inline(always)]
pub fn check_array(node: Node, found: &mut Least) -> bool
    ensures is { result ≡ is_array (kind_of (tree node.entry)) }
    ensures found { found.new ≡ least found.old (of_kind is_array nothing (tree node.entry)) }
{
    match node.kind() {
        Kind::Array => true,
        _ => {
            add(node, Reason::WrongKind, found);
            false
        }
    }
}

/// Returns whether the value is an object. If it is not, adds `WrongKind`.
#[inline(always)]
pub fn check_object(node: Node, found: &mut Least) -> bool
    ensures is { result ≡ is_object (kind_of (tree node.entry)) }
    ensures found { found.new ≡ least found.old (of_kind is_object nothing (tree node.entry)) }
{
    match node.kind() {
        Kind::Object => true,
        _ => {
            add(node, Reason::WrongKind, found);
            false
        }
    }
}
