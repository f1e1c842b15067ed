//! Boundaries: lists of some depth, and below them indices of vertices.
ghost use Rattle.std.specs.Prelude.{◌≡◌, codes, option_map};
ghost use Rattle.std.specs.Str.{chars};
ghost use Rattle.cj_spans.specs.Meaning.Finding.{least};
ghost use Rattle.cj_spans.specs.Meaning.Parts.{member_of};
ghost use Rattle.cj_spans.specs.View.{tree};
ghost use Rattle.cj_geometry.specs.Meaning.Rule.{needs};
ghost use Rattle.cj_geometry.specs.Meaning.Geometry.{shape};

use crate::rule::{Bound, add, check_index_below, check_there, count_indices};
use cj_spans::{Kind, Least, Node, Reason};

/// Checks that the value is a list of indices of vertices: the lowest level, with nearly all
/// numbers.
///
/// It first counts the valid indices at the front, in a loop that does nothing else. All rules are
/// checked for the rest.
#[inline(always)]
#[tactic(auto, using(cj_spans::proofs::Findings::least_on))]
fn check_indices(node: Node, vertices: Bound, found: &mut Least)
    ensures { found.new ≡ least found.old (shape vertices.count 1 (tree node.entry)) }
{
    match node.kind() {
        Kind::Array => {
            let front = count_indices(node, vertices);
            for item in node.items_behind(front) {
                check_index_below(item, Reason::VertexIndex, vertices, found);
            }
        }
        _ => add(node, Reason::WrongKind, found),
    }
}

/// Checks that the value is a list of such lists: a surface of rings.
#[inline(always)]
#[tactic(auto, using(crate::proofs::Values::finding_steps))]
fn check_rings(node: Node, vertices: Bound, found: &mut Least)
    ensures { found.new ≡ least found.old (shape vertices.count 2 (tree node.entry)) }
{
    match node.kind() {
        Kind::Array => {
            for item in node.items() {
                check_indices(item, vertices, found);
            }
        }
        _ => add(node, Reason::WrongKind, found),
    }
}

/// Checks that the value has lists of this depth, and below them indices of vertices. Most lists
/// are in surfaces, which it reads without a call for each.
fn check_shape(node: Node, depth: u8, vertices: Bound, found: &mut Least)
    ensures { found.new ≡ least found.old (shape vertices.count depth (tree node.entry)) }
{
    if depth == 0 {
        check_index_below(node, Reason::VertexIndex, vertices, found);
        return;
    }
    if depth == 1 {
        check_indices(node, vertices, found);
        return;
    }
    if depth == 2 {
        check_rings(node, vertices, found);
        return;
    }
    match node.kind() {
        Kind::Array => {
            for item in node.items() {
                if depth == 3 {
                    check_rings(item, vertices, found);
                } else {
                    check_shape(item, depth - 1, vertices, found);
                }
            }
        }
        _ => add(node, Reason::WrongKind, found),
    }
}

/// Checks that the geometry has boundaries, and that they are of this depth.
pub fn check_boundaries(
    object: Node,
    boundaries: Option<Node>,
    depth: u8,
    vertices: Option<u64>,
    found: &mut Least,
)
    requires { option_map tree boundaries ≡ member_of (chars (codes "boundaries")) (tree object) }
    ensures { found.new
        ≡ least found.old (needs (chars (codes "boundaries")) (shape vertices depth) (tree object.entry)) }
{
    check_there(object, boundaries, found);
    if let Some(boundaries) = boundaries {
        check_shape(boundaries, depth, Bound::of(vertices), found);
    }
}
