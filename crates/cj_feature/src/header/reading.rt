//! What a valid header contains, read once.
ghost use Rattle.std.specs.Prelude.{◌≡◌, ◌<◌, ◌∷◌, [], Some, IfSome, MatchOption, is_some, map, true, length};
ghost use Rattle.std.specs.List.{flat_map};
ghost use Rattle.std.specs.Option.{ForSome};
ghost use Rattle.std.specs.Str.{chars};
ghost use Rattle.cj_spans.specs.declared.reason.Reason.TheVariants.{NotThree};
ghost use Rattle.cj_spans.specs.declared.token.Kind.TheVariants.{Array};
ghost use Rattle.cj_spans.specs.Meaning.Tree.{Tree};
ghost use Rattle.cj_spans.specs.Meaning.Parts.{kind_of, items_of, member_of, items_if};
ghost use Rattle.cj_spans.specs.View.{tree, items_left, line_of};
ghost use Rattle.cj_geometry.specs.Meaning.Geometry.{listed, empty};
ghost use Rattle.cj_geometry.specs.Given.{list_of};
ghost use Rattle.cj_geometry.specs.ListSteps.{AreStepsOf};
ghost use Rattle.cj_geometry.specs.Meaning.Numbers.{number, value_of};
ghost use Rattle.cj_geometry.specs.Meaning.Rule.{needs, of_length};
ghost use Rattle.cj_feature.specs.Meaning.Feature.{templates_of};
ghost use Rattle.cj_decimal.specs.Meaning.Number.{is_fixed, units_of};
ghost use Rattle.cj_feature.specs.Meaning.Header.{header};
ghost use Rattle.cj_feature.specs.Axes.{first_maps};
ghost use Rattle.cj_feature.specs.Shown.{are_fixed, parts_box, ArePartsOf};

use cj_decimal::{Affine, Decimal};
use cj_geometry::Steps;
use cj_spans::{Items, Kind, Node};

/// What is read of a header once. It borrows nothing, so it can be kept with a copy of the line and
/// its tokens.
#[derive(Clone, Copy, Debug)]
pub struct HeaderParts {
    pub(crate) scale: [Decimal; 3],
    pub(crate) translate: [Decimal; 3],
    pub(crate) with_box: bool,
    pub(crate) maps: Option<[Affine; 2]>,
    pub(crate) templates: Option<Steps>,
}

/// Returns the value of a number in range.
fn read_number(node: Node) -> Decimal
    requires { number (tree node) ≡ [] }
    ensures { value_of (tree node.entry) ≡ Some result }
{
    match Decimal::read(node.bytes()) {
        Ok(decimal) => decimal,
        Err(_) => unreachable!(),
    }
}

/// Returns the value of the next of some numbers in range.
fn next_number(items: &mut Items) -> Decimal
    requires some { 0 < length (items_left items.old) }
    requires numbers { flat_map number (items_left items.old) ≡ [] }
    ensures { (t : Tree) × (items_left items.old ≡ t ∷ items_left items.new) × (value_of t ≡ Some result) }
{
    match items.next() {
        Some(node) => read_number(node),
        None => unreachable!(),
    }
}

/// Returns the values of three numbers in range.
fn read_three(node: Node) -> [Decimal; 3]
    requires { of_length NotThree 3 number (tree node) ≡ [] }
    ensures { map value_of (items_of (tree node.entry)) ≡ map Some result }
{
    let mut items = node.items();
    let x = next_number(&mut items);
    let y = next_number(&mut items);
    let z = next_number(&mut items);
    [x, y, z]
}

/// Returns the values of a member of the transform.
fn read_three_member(transform: Node, name: &str) -> [Decimal; 3]
    requires { needs (chars name.now) (of_length NotThree 3 number) (tree transform) ≡ [] }
    ensures { map value_of (items_if (member_of (chars name.now) (tree transform.entry))) ≡ map Some result }
{
    match transform.get(name) {
        Some(value) => read_three(value),
        None => unreachable!(),
    }
}

/// Returns the map of an axis with a fixed scale and translation.
fn map_axis(scale: Decimal, shift: Decimal) -> Affine
    requires scale { is_fixed scale ≡ true }
    requires shift { is_fixed shift ≡ true }
    ensures { result ≡ record { scale = units_of scale; shift = units_of shift } }
{
    let Some(scale) = scale.fixed18() else {
        unreachable!()
    };
    let Some(shift) = shift.fixed18() else {
        unreachable!()
    };
    Affine::new(scale, shift)
}

/// Returns the maps of the first two axes.
fn map_axes(scale: [Decimal; 3], translate: [Decimal; 3]) -> [Affine; 2]
    requires scale { are_fixed scale ≡ true }
    requires translate { are_fixed translate ≡ true }
    ensures { result ≡ first_maps (map Some scale) (map Some translate) }
{
    [
        map_axis(scale[0], translate[0]),
        map_axis(scale[1], translate[1]),
    ]
}

/// Returns the list of templates of a header, if it has one.
pub fn template_list(root: Node) -> Option<Node>
    ensures list { MatchOption result (templates_of (tree root.entry) ≡ empty)
        (λ list. (templates_of (tree root.entry) ≡ listed (tree list)) × (kind_of (tree list) ≡ Array)) }
    ensures line { IfSome result (λ list. line_of list ≡ line_of root.entry) }
{
    let Some(templates) = root.get("geometry-templates") else {
        return None;
    };
    let Some(list) = templates.get("templates") else {
        return None;
    };
    match list.kind() {
        Kind::Array => Some(list),
        _ => None,
    }
}

/// Returns the steps of the list of templates of a header, if it has one, by a walk over it.
fn template_steps(root: Node) -> Option<Steps>
    ensures listed { is_some result ≡ is_some (list_of (templates_of (tree root.entry))) }
    ensures steps { ForSome result (AreStepsOf (items_if (list_of (templates_of (tree root.entry))))) }
{
    match template_list(root) {
        Some(list) => Some(Steps::of(list)),
        None => None,
    }
}

/// Returns the parts of a header, with or without a box.
#[tactic(auto, unfolding(crate::specs::Shown::parts_box))]
pub fn read_parts(root: Node, with_box: bool) -> HeaderParts
    requires { header with_box (tree root) ≡ [] }
    ensures parts { ArePartsOf (tree root.entry) result }
    ensures with_box { parts_box result ≡ with_box }
{
    let Some(transform) = root.get("transform") else {
        unreachable!()
    };
    let scale = read_three_member(transform, "scale");
    let translate = read_three_member(transform, "translate");
    let maps = if with_box {
        Some(map_axes(scale, translate))
    } else {
        None
    };
    HeaderParts {
        scale,
        translate,
        with_box,
        maps,
        templates: template_steps(root),
    }
}
