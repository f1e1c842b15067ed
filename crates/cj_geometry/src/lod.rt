//! The level of detail of a geometry (CityJSON 2.0, section 3.1).
ghost use Rattle.std.specs.Prelude.{◌≡◌, Some, if◌then◌else◌, codes, option_map, slice_get, IfSome};
ghost use Rattle.std.specs.Str.{chars};
ghost use Rattle.cj_spans.specs.Meaning.Parts.{member_of};
ghost use Rattle.cj_spans.specs.View.{tree, items_left, items_source, line_of, source_of};
ghost use Rattle.cj_geometry.specs.Given.{given, given_line, given_source};
ghost use Rattle.cj_geometry.specs.Meaning.Lod.{chosen, template_lod, is_instance, lod};
ghost use Rattle.cj_geometry.specs.Meaning.Numbers.{whole_of};

use crate::form::INSTANCE;
use crate::rule::read_whole;
use crate::templates::Templates;
use cj_spans::{Items, Node};

/// Returns the item with this number, from 0, of the rest of a walk.
pub(crate) fn item_at<'a>(items: Items<'a>, number: u64) -> Option<Node<'a>>
    ensures item { option_map tree result ≡ slice_get (items_left items.entry) number }
    ensures source { IfSome result (λ n. source_of n ≡ items_source items.entry) }
{
    let mut left = number;
    for item in items {
        if left == 0 {
            return Some(item);
        }
        left -= 1;
    }
    None
}

/// Returns the template that this index chooses, if there is one.
fn choose<'a>(index: Node, templates: Templates<'a>) -> Option<Node<'a>>
    ensures item { option_map tree result ≡ chosen (given templates.entry) (tree index.entry) }
    ensures source { IfSome result (λ n. given_source templates.entry ≡ Some (source_of n)) }
{
    match templates.nodes() {
        Some(list) => match read_whole(index) {
            Some(whole) if whole >= 0 => item_at(list.items(), whole as u64),
            _ => None,
        },
        None => None,
    }
}

/// Returns whether the geometry is an instance of a template.
#[inline(always)]
pub(crate) fn is_an_instance(node: Node) -> bool
    ensures { result ≡ is_instance (tree node.entry) }
{
    match node.get("type") {
        Some(name) => name.text_is(INSTANCE),
        None => false,
    }
}

/// Returns the level of detail of an instance's template.
#[inline(never)]
fn lod_of_template<'a>(node: Node, templates: Templates<'a>) -> Option<Node<'a>>
    ensures lod { option_map tree result ≡ template_lod (given templates.entry) (tree node.entry) }
    ensures source { IfSome result (λ n. given_source templates.entry ≡ Some (source_of n)) }
{
    match node.get("template") {
        Some(index) => match choose(index, templates) {
            Some(template) => template.get("lod"),
            None => None,
        },
        None => None,
    }
}

/// Returns the level of detail of a geometry: its `lod`, or for an instance the one of its
/// template. None if there is none. [`crate::Lods`] finds those of many instances faster.
#[inline(always)]
#[tactic(auto, using(crate::proofs::Values::line_if))]
pub fn lod_of<'a>(node: Node<'a>, templates: Templates<'a>) -> Option<Node<'a>>
    ensures lod { option_map tree result ≡ lod (given templates.entry) (tree node.entry) }
    ensures line { IfSome result (λ n. Some (line_of n)
        ≡ (if is_instance (tree node.entry) then given_line templates.entry else Some (line_of node.entry))) }
    ensures source { IfSome result (λ n. Some (source_of n)
        ≡ (if is_instance (tree node.entry) then given_source templates.entry else Some (source_of node.entry))) }
{
    if is_an_instance(node) {
        lod_of_template(node, templates)
    } else {
        node.get("lod")
    }
}
