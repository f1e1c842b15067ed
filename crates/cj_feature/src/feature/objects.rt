//! City objects (CityJSON 2.0, section 2).
ghost use Rattle.std.specs.Prelude.{◌≡◌, [], List, Some, None, false, codes, option_map};
ghost use Rattle.std.specs.Str.{chars};
ghost use Rattle.cj_spans.specs.Meaning.Finding.{least};
ghost use Rattle.cj_spans.specs.Meaning.Tree.{Tree};
ghost use Rattle.cj_spans.specs.Meaning.Parts.{member_of};
ghost use Rattle.cj_spans.specs.View.{tree};
ghost use Rattle.cj_geometry.specs.Given.{given};
ghost use Rattle.cj_geometry.specs.ObjectTypes.{row_at};
ghost use Rattle.cj_geometry.specs.Meaning.ObjectTypes.{row_of, is_second_level as is_second_level_of};
ghost use Rattle.cj_geometry.specs.Meaning.Rule.{if_there, needs};
ghost use Rattle.cj_feature.specs.Meaning.Feature.{object_type, geometries, texts, second_level, city_object};
ghost use Rattle.cj_feature.specs.Meaning.Feature.{city_objects};
ghost use Rattle.cj_feature.specs.Meaning.Links.{at_second_level, object_links, links};

use cj_geometry::rule::{
    add, check_array, check_names, check_names_unless, check_object, check_text, check_there,
    needed,
};
use cj_geometry::{ObjectType, Templates, check_geometry, is_of_extension};
use cj_spans::{FourMembers, Kind, Least, Node, Reason};

/// What city objects are judged beside: the templates of the header, and whether types of
/// extensions are known.
#[derive(Clone, Copy)]
pub struct Beside<'a> {
    pub templates: Templates<'a>,
    pub extensions: bool,
}

/// Returns whether the type, if there is one, is of the second level.
fn is_second_level(object_type: Option<ObjectType>) -> bool
    ensures { (t : Tree) → option_map row_at object_type ≡ row_of t → result ≡ is_second_level_of t }
{
    match object_type {
        Some(object_type) => object_type.is_second_level(),
        None => false,
    }
}

/// Checks that the value is the name of a type. Returns whether it is of the second level, which no
/// type of an extension is.
fn check_type(node: Node, extensions: bool, found: &mut Least) -> bool
    ensures second { result ≡ is_second_level_of (tree node.entry) }
    ensures found { found.new ≡ least found.old (object_type extensions (tree node.entry)) }
{
    let object_type = ObjectType::of(node);
    match node.kind() {
        Kind::Text => {
            if object_type.is_none() && !(extensions && is_of_extension(node)) {
                add(node, Reason::UnknownObjectType, found);
            }
        }
        _ => add(node, Reason::WrongKind, found),
    }
    is_second_level(object_type)
}

/// Checks that the city object has a type, which the caller has looked up. Returns whether it is of
/// the second level, so that the type is read once.
fn check_type_there(object: Node, member: Option<Node>, extensions: bool, found: &mut Least) -> bool
    requires { option_map tree member ≡ member_of (chars (codes "type")) (tree object) }
    ensures second { result ≡ at_second_level (tree object.entry) }
    ensures found { found.new
        ≡ least found.old (needs (chars (codes "type")) (object_type extensions) (tree object.entry)) }
{
    check_there(object, member, found);
    match member {
        Some(value) => check_type(value, extensions, found),
        None => false,
    }
}

/// Checks that the value is an array of geometries.
#[tactic(auto, using(crate::proofs::Rules::finding_steps))]
fn check_geometries(node: Node, vertices: Option<u64>, templates: Templates, found: &mut Least)
    ensures { found.new ≡ least found.old (geometries vertices (given templates.entry) (tree node.entry)) }
{
    if check_array(node, found) {
        for item in node.items() {
            check_geometry(item, vertices, templates, found);
        }
    }
}

/// Checks the geometries of a city object, if it has any.
fn check_geometries_if(
    geometry: Option<Node>,
    vertices: Option<u64>,
    templates: Templates,
    found: &mut Least,
)
    ensures { found.new
        ≡ least found.old
        (if_there (geometries vertices (given templates.entry)) (option_map tree geometry.entry)) }
{
    if let Some(value) = geometry {
        check_geometries(value, vertices, templates, found);
    }
}

/// Checks that the value is an array of texts.
#[tactic(auto, using(crate::proofs::Rules::finding_steps))]
fn check_texts(node: Node, found: &mut Least)
    ensures { found.new ≡ least found.old (texts (tree node.entry)) }
{
    if check_array(node, found) {
        for item in node.items() {
            check_text(item, found);
        }
    }
}

/// Checks a member, if the city object has it: it is an array of texts.
#[inline(always)]
fn check_texts_if(member: Option<Node>, found: &mut Least)
    ensures { found.new ≡ least found.old (if_there texts (option_map tree member.entry)) }
{
    if let Some(value) = member {
        check_texts(value, found);
    }
}

/// Returns whether the city object is of the second level.
pub fn is_part(object: Node) -> bool
    ensures { result ≡ at_second_level (tree object.entry) }
{
    match object.get("type") {
        Some(name) => is_second_level(ObjectType::of(name)),
        None => false,
    }
}

/// Checks that a city object has parents if it is of the second level.
fn check_second_level(object: Node, second: bool, found: &mut Least)
    requires { second ≡ at_second_level (tree object) }
    ensures { found.new ≡ least found.old (second_level (tree object.entry)) }
{
    if second {
        if let Some(parents) = needed(object, "parents", found) {
            check_array(parents, found);
        }
    }
}

/// Checks that the value is a city object. `vertices` is the number of vertices, if it is known.
/// Returns whether it may have links.
#[tactic(auto, using(crate::proofs::Rules::finding_steps))]
fn check_city_object(node: Node, vertices: Option<u64>, beside: Beside, found: &mut Least) -> bool
    ensures unlinked { result ≡ false → (all : List (Tree × Tree)) → (name : Tree)
        → object_links all (name, tree node.entry) ≡ [] }
    ensures found { found.new
        ≡ least found.old
        (city_object beside.entry.extensions vertices (given beside.entry.templates) (tree node.entry)) }
{
    if check_object(node, found) {
        let FourMembers {
            first: kind,
            second: geometry,
            third: children,
            fourth: parents,
            apart,
        } = node.get_four("type", "geometry", "children", "parents");
        check_names_unless(apart, node, found);
        let second = check_type_there(node, node.at_if(kind), beside.extensions, found);
        check_geometries_if(node.at_if(geometry), vertices, beside.templates, found);
        check_texts_if(node.at_if(children), found);
        check_texts_if(node.at_if(parents), found);
        check_second_level(node, second, found);
        children.is_some() | parents.is_some()
    } else {
        true
    }
}

/// Checks that the value is an object of city objects. Returns whether they may have links.
fn check_city_objects(node: Node, vertices: Option<u64>, beside: Beside, found: &mut Least) -> bool
    ensures unlinked { result ≡ false → links (Some (tree node.entry)) ≡ [] }
    ensures found { found.new
        ≡ least found.old
        (city_objects beside.entry.extensions vertices (given beside.entry.templates) (tree node.entry)) }
{
    if check_object(node, found) {
        check_names(node, found);
        let mut linked = false;
        for (_, object) in node.members() {
            linked |= check_city_object(object, vertices, beside, found);
        }
        linked
    } else {
        true
    }
}

/// Checks that the feature has city objects. Returns whether they may have links.
pub fn check_city_objects_member(
    object: Node,
    objects: Option<Node>,
    vertices: Option<u64>,
    beside: Beside,
    found: &mut Least,
) -> bool
    requires { option_map tree objects ≡ member_of (chars (codes "CityObjects")) (tree object) }
    ensures unlinked { result ≡ false → links (option_map tree objects.entry) ≡ [] }
    ensures found { found.new
        ≡ least found.old
        (needs (chars (codes "CityObjects"))
        (city_objects beside.entry.extensions vertices (given beside.entry.templates)) (tree object.entry)) }
{
    check_there(object, objects, found);
    match objects {
        Some(value) => check_city_objects(value, vertices, beside, found),
        None => false,
    }
}
