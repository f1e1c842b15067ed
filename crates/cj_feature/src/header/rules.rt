//! The rules on headers, one after another, and the verdict that follows.
ghost use Rattle.std.specs.Prelude.{◌≡◌, [], Some, MatchResult, IfOk, cond, codes};
ghost use Rattle.std.specs.Str.{chars};
ghost use Rattle.cj_spans.specs.declared.reason.Reason.TheVariants.{NotThree, TransformNotFixed};
ghost use Rattle.cj_spans.specs.Meaning.Finding.{least};
ghost use Rattle.cj_spans.specs.Meaning.Least.{IsLeast};
ghost use Rattle.cj_spans.specs.View.{tree, document, document_line};
ghost use Rattle.cj_geometry.specs.Meaning.Rule.{one, needs, may_have, of_length};
ghost use Rattle.cj_geometry.specs.Meaning.Numbers.{number};
ghost use Rattle.cj_geometry.specs.Meaning.Geometry.{count_of};
ghost use Rattle.cj_spans.specs.Meaning.Parts.{items_of, member_of};
ghost use Rattle.cj_feature.specs.Meaning.Header.{fixed, three_numbers, transform, without_members};
ghost use Rattle.cj_feature.specs.Meaning.Header.{empty_object, empty_array, template_vertices, template_list};
ghost use Rattle.cj_feature.specs.Meaning.Header.{geometry_templates, header};
ghost use Rattle.cj_feature.specs.HeaderView.{header_tree, header_line, has_box};
ghost use Rattle.cj_feature.specs.Shown.{first_two};

use crate::header::Header;
use crate::member::{check_name_member, count_member};
use cj_decimal::Decimal;
use cj_geometry::rule::{
    add, check_array, check_length, check_names, check_number, check_object, needed,
};
use cj_geometry::{Templates, check_geometry};
use cj_spans::{Doc, Finding, Kind, Least, Node, Reason};

/// Checks that the value is an array of three numbers.
fn check_three_numbers(node: Node, found: &mut Least)
    ensures { found.new ≡ least found.old (of_length NotThree 3 number (tree node.entry)) }
{
    check_length(node, 3, Reason::NotThree, found);
    for item in node.items() {
        check_number(item, found);
    }
}

/// Checks that a number in range is a multiple of 10^-18, below 10^18 in size.
fn check_fixed(node: Node, found: &mut Least)
    ensures { found.new ≡ least found.old (fixed (tree node.entry)) }
{
    if is_unfixed(node) {
        add(node, Reason::TransformNotFixed, found);
    }
}

/// Returns whether the value is a number in range that is no multiple of 10^-18, or 10^18 or more
/// in size.
fn is_unfixed(node: Node) -> bool
    ensures { fixed (tree node.entry) ≡ cond result (one TransformNotFixed (tree node.entry)) [] }
{
    match node.kind() {
        Kind::Number => match Decimal::read(node.bytes()) {
            Ok(number) => number.fixed18().is_none(),
            Err(_) => false,
        },
        _ => false,
    }
}

/// Checks that the first two of the values are fixed.
fn check_first_two(node: Node, found: &mut Least)
    ensures { found.new ≡ least found.old (first_two fixed (items_of (tree node.entry))) }
{
    let mut items = node.items();
    if let Some(x) = items.next() {
        check_fixed(x, found);
    }
    if let Some(y) = items.next() {
        check_fixed(y, found);
    }
}

/// Checks that the value is an array of three numbers. With a box, the first two must be fixed.
#[tactic(auto, using(crate::proofs::Rules::finding_steps))]
fn check_axes(node: Node, with_box: bool, found: &mut Least)
    ensures { found.new ≡ least found.old (three_numbers with_box (tree node.entry)) }
{
    check_three_numbers(node, found);
    if with_box {
        check_first_two(node, found);
    }
}

/// Checks that the object has a member with this name, which is an array of three numbers.
fn check_axes_member(object: Node, name: &str, with_box: bool, found: &mut Least)
    ensures { found.new ≡ least found.old (needs (chars name.now) (three_numbers with_box) (tree object.entry)) }
{
    if let Some(value) = needed(object, name, found) {
        check_axes(value, with_box, found);
    }
}

/// Checks that the value is an object with a scale and a translation.
#[tactic(auto, using(crate::proofs::Rules::finding_steps))]
fn check_transform(node: Node, with_box: bool, found: &mut Least)
    ensures { found.new ≡ least found.old (transform with_box (tree node.entry)) }
{
    if check_object(node, found) {
        check_names(node, found);
        check_axes_member(node, "scale", with_box, found);
        check_axes_member(node, "translate", with_box, found);
    }
}

/// Checks that the header has a transform.
fn check_transform_member(object: Node, with_box: bool, found: &mut Least)
    ensures { found.new ≡ least found.old (needs (chars (codes "transform")) (transform with_box) (tree object.entry)) }
{
    if let Some(value) = needed(object, "transform", found) {
        check_transform(value, with_box, found);
    }
}

/// Checks that the object has no members.
fn check_no_members(object: Node, found: &mut Least)
    ensures { found.new ≡ least found.old (without_members (tree object.entry)) }
{
    let mut members = object.members();
    if members.next().is_some() {
        add(object, Reason::NotEmpty, found);
    }
}

/// Checks that the value is an object without members. Its names are checked as those of any other
/// object.
#[tactic(auto, using(crate::proofs::Rules::finding_steps))]
fn check_no_objects(node: Node, found: &mut Least)
    ensures { found.new ≡ least found.old (empty_object (tree node.entry)) }
{
    if check_object(node, found) {
        check_names(node, found);
        check_no_members(node, found);
    }
}

/// Checks that the header has no city objects.
fn check_no_objects_member(object: Node, found: &mut Least)
    ensures { found.new ≡ least found.old (needs (chars (codes "CityObjects")) empty_object (tree object.entry)) }
{
    if let Some(value) = needed(object, "CityObjects", found) {
        check_no_objects(value, found);
    }
}

/// Checks that the header has no vertices.
fn check_no_vertices_member(object: Node, found: &mut Least)
    ensures { found.new ≡ least found.old (needs (chars (codes "vertices")) empty_array (tree object.entry)) }
{
    if let Some(value) = needed(object, "vertices", found) {
        check_length(value, 0, Reason::NotEmpty, found);
    }
}

/// Checks that the value is an array of vertices, each of three numbers.
#[tactic(auto, using(crate::proofs::Rules::finding_steps))]
fn check_template_vertices(node: Node, found: &mut Least)
    ensures { found.new ≡ least found.old (template_vertices (tree node.entry)) }
{
    if check_array(node, found) {
        for item in node.items() {
            check_three_numbers(item, found);
        }
    }
}

/// Checks that the templates have vertices.
fn check_template_vertices_member(object: Node, found: &mut Least)
    ensures { found.new
        ≡ least found.old (needs (chars (codes "vertices-templates")) template_vertices (tree object.entry)) }
{
    if let Some(value) = needed(object, "vertices-templates", found) {
        check_template_vertices(value, found);
    }
}

/// Checks that the value is an array of templates. `vertices` is the number of their vertices, if
/// it is known.
#[tactic(auto, using(crate::proofs::Rules::finding_steps))]
fn check_template_list(node: Node, vertices: Option<u64>, found: &mut Least)
    ensures { found.new ≡ least found.old (template_list vertices (tree node.entry)) }
{
    if check_array(node, found) {
        for item in node.items() {
            check_geometry(item, vertices, Templates::template(), found);
        }
    }
}

/// Checks that the templates are geometries, with the vertices of the same object.
fn check_template_list_member(object: Node, found: &mut Least)
    ensures { found.new
        ≡ least found.old
        (needs (chars (codes "templates"))
        (template_list (count_of (member_of (chars (codes "vertices-templates")) (tree object.entry))))
        (tree object.entry)) }
{
    if let Some(value) = needed(object, "templates", found) {
        let vertices = count_member(object, "vertices-templates");
        check_template_list(value, vertices, found);
    }
}

/// Checks that the value is an object of templates and their vertices.
#[tactic(auto, using(crate::proofs::Rules::finding_steps))]
fn check_templates(node: Node, found: &mut Least)
    ensures { found.new ≡ least found.old (geometry_templates (tree node.entry)) }
{
    if check_object(node, found) {
        check_names(node, found);
        check_template_list_member(node, found);
        check_template_vertices_member(node, found);
    }
}

/// Checks the templates of the header, if it has any.
fn check_templates_member(object: Node, found: &mut Least)
    ensures { found.new
        ≡ least found.old (may_have (chars (codes "geometry-templates")) geometry_templates (tree object.entry)) }
{
    if let Some(value) = object.get("geometry-templates") {
        check_templates(value, found);
    }
}

/// Checks that the value is a header, with or without a box.
#[tactic(auto, using(crate::proofs::Rules::finding_steps))]
fn check_root(node: Node, with_box: bool, found: &mut Least)
    ensures { found.new ≡ least found.old (header with_box (tree node.entry)) }
{
    if check_object(node, found) {
        check_names(node, found);
        check_name_member(node, "type", "CityJSON", Reason::WrongType, found);
        check_name_member(node, "version", "2.0", Reason::WrongVersion, found);
        check_transform_member(node, with_box, found);
        check_no_objects_member(node, found);
        check_no_vertices_member(node, found);
        check_templates_member(node, found);
    }
}

/// Judges a line as a header. The rules are in CityJSON 2.0, section 1, and on the CityJSONSeq page
/// of cityjson.org. With a box, the scale and the translation of the x and y axes must be numbers
/// that a box can be compared with.
///
/// # Errors
///
/// The least finding by byte and code.
pub fn check_header<'a>(doc: Doc<'a>, with_box: bool) -> Result<Header<'a>, Finding>
    ensures verdict { MatchResult result (λ h. header with_box (document doc.entry) ≡ [])
        (λ f. IsLeast (header with_box (document doc.entry)) (Some f)) }
    ensures tree { IfOk result (λ h. header_tree h ≡ document doc.entry) }
    ensures line { IfOk result (λ h. header_line h ≡ document_line doc.entry) }
    ensures with_box { IfOk result (λ h. has_box h ≡ with_box) }
{
    let root = doc.root();
    let mut found = Least::new();
    check_root(root, with_box, &mut found);
    match found.get() {
        Some(finding) => Err(finding),
        None => Ok(Header::judged(doc, with_box)),
    }
}
