//! Arrays: how many items they have.
ghost use Rattle.std.specs.Prelude.{◌≡◌, length};
ghost use Rattle.cj_spans.specs.Meaning.Finding.{least};
ghost use Rattle.cj_spans.specs.Meaning.Kinds.{is_array};
ghost use Rattle.cj_spans.specs.Meaning.Parts.{items_of};
ghost use Rattle.cj_spans.specs.View.{tree};
ghost use Rattle.cj_geometry.specs.Meaning.Rule.{of_kind, has_length};

use crate::rule::{add, check_array};
use cj_spans::{Least, Node, Reason};

/// Returns how many items an array has, by a walk over them. 0 for any other value.
pub fn count_items(node: Node) -> u64
    ensures { result ≡ length (items_of (tree node.entry)) }
{
    let mut count = 0;
    for _ in node.items() {
        count += 1;
    }
    count
}

/// Checks that the value is an array of exactly `count` items. An array of another length has
/// `reason`.
pub fn check_length(node: Node, count: u64, reason: Reason, found: &mut Least)
    ensures { found.new ≡ least found.old (of_kind is_array (has_length reason count) (tree node.entry)) }
{
    if check_array(node, found) && count_items(node) != count {
        add(node, reason, found);
    }
}
