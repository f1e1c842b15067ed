//! Rules as the layers above write them. What a walk keeps is the least finding of a definition
//! over the tree.
ghost use Rattle.std.specs.Prelude.{◌≡◌};
ghost use Rattle.std.specs.Str.{chars};
ghost use Rattle.cj_spans.specs.Meaning.Finding.{least};
ghost use Rattle.cj_spans.specs.View.{tree};
ghost use Rattle.cj_spans_tests.specs.Examples.{not_number, not_numbers, not_lists_of_numbers, member_no_number};

use cj_spans::{Finding, Kind, Least, Node, Reason};

/// Checks that the value is a number. Otherwise the finding is at the value.
fn is_number(node: Node, found: &mut Least)
    ensures { found.new ≡ least found.old (not_number (tree node.entry)) }
{
    match node.kind() {
        Kind::Number => {}
        _ => found.add(Finding {
            place: node.start(),
            reason: Reason::WrongKind,
        }),
    }
}

/// Checks that each item is a number. Otherwise the finding is at the item.
fn are_numbers(node: Node, found: &mut Least)
    ensures { found.new ≡ least found.old (not_numbers (tree node.entry)) }
{
    for item in node.items() {
        is_number(item, found);
    }
}

/// Does the same one level deeper.
fn are_lists_of_numbers(node: Node, found: &mut Least)
    ensures { found.new ≡ least found.old (not_lists_of_numbers (tree node.entry)) }
{
    for item in node.items() {
        are_numbers(item, found);
    }
}

/// Checks that the member with this name is a number. Otherwise the finding is at the value, or at
/// the object if there is no such member.
fn has_number(node: Node, name: &str, found: &mut Least)
    ensures { found.new ≡ least found.old (member_no_number (chars name.now) (tree node.entry)) }
{
    match node.get(name) {
        Some(value) => is_number(value, found),
        None => found.add(Finding {
            place: node.start(),
            reason: Reason::MissingMember,
        }),
    }
}
