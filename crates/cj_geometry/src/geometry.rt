//! The rules on geometries (CityJSON 2.0, section 3).
ghost use Rattle.std.specs.Prelude.{◌≡◌, codes, option_map};
ghost use Rattle.std.specs.Str.{chars};
ghost use Rattle.cj_spans.specs.Meaning.Finding.{least};
ghost use Rattle.cj_spans.specs.Meaning.Parts.{member_of};
ghost use Rattle.cj_spans.specs.View.{tree};
ghost use Rattle.cj_geometry.specs.Given.{given};
ghost use Rattle.cj_geometry.specs.Meaning.Table.{form_of as form_of_tree};
ghost use Rattle.cj_geometry.specs.inner.GeometryParts.{AreParts};
ghost use Rattle.cj_geometry.specs.Meaning.Geometry.{part_rules, form_rules, typed_rules, geometry};

use crate::boundaries::check_boundaries;
use crate::form::{Form, form_of};
use crate::instance::check_instance;
use crate::rule::{add, check_names_unless, check_object, check_text_there, check_there};
use crate::semantics::check_semantics_if;
use crate::templates::Templates;
use cj_spans::{Kind, Least, Node, Reason};

/// A geometry, and the numbers of its members that depend on its type, each if it is there.
#[derive(Clone, Copy)]
struct Geometry<'a> {
    object: Node<'a>,
    lod: Option<u32>,
    boundaries: Option<u32>,
    semantics: Option<u32>,
}

/// Checks the lists of a geometry of this depth.
fn check_parts(
    geometry: Geometry,
    depth: u8,
    values: Option<u8>,
    vertices: Option<u64>,
    found: &mut Least,
)
    requires { AreParts geometry }
    ensures { found.new ≡ least found.old (part_rules vertices depth values (tree geometry.entry.object)) }
{
    let Geometry {
        object,
        lod,
        boundaries,
        semantics,
    } = geometry;
    check_text_there(object, object.at_if(lod), found);
    check_boundaries(object, object.at_if(boundaries), depth, vertices, found);
    check_semantics_if(
        object.at_if(semantics),
        object.at_if(boundaries),
        values,
        found,
    );
}

/// Checks the rules of the geometry's type. The node is the name of the type.
fn check_form(
    geometry: Geometry,
    name: Node,
    vertices: Option<u64>,
    templates: Templates,
    found: &mut Least,
)
    requires { AreParts geometry }
    ensures { found.new
        ≡ least found.old
        (form_rules vertices (given templates.entry) (tree geometry.entry.object) (tree name.entry)
        (form_of_tree (tree name.entry))) }
{
    match form_of(name) {
        Some(Form::Parts { depth, values }) => {
            check_parts(geometry, depth, values, vertices, found);
        }
        Some(Form::Instance) => {
            if templates.is_template() {
                add(name, Reason::BadInstance, found);
            } else {
                check_instance(geometry.object, templates.count(), vertices, found);
            }
        }
        None => add(name, Reason::UnknownGeometryType, found),
    }
}

/// Checks the rules that depend on the geometry's type. The caller has looked it up.
fn check_typed(
    geometry: Geometry,
    name: Option<Node>,
    vertices: Option<u64>,
    templates: Templates,
    found: &mut Least,
)
    requires parts { AreParts geometry }
    requires name { option_map tree name ≡ member_of (chars (codes "type")) (tree geometry.object) }
    ensures { found.new
        ≡ least found.old (typed_rules vertices (given templates.entry) (tree geometry.entry.object)) }
{
    check_there(geometry.object, name, found);
    if let Some(name) = name {
        match name.kind() {
            Kind::Text => check_form(geometry, name, vertices, templates, found),
            _ => add(name, Reason::WrongKind, found),
        }
    }
}

/// Adds what is wrong with a geometry. `vertices` is the number of vertices, if it is known. It
/// allocates nothing and cannot fail.
pub fn check_geometry(node: Node, vertices: Option<u64>, templates: Templates, found: &mut Least)
    ensures { found.new ≡ least found.old (geometry vertices (given templates.entry) (tree node.entry)) }
{
    if check_object(node, found) {
        let members = node.get_four("type", "lod", "boundaries", "semantics");
        check_names_unless(members.apart, node, found);
        let geometry = Geometry {
            object: node,
            lod: members.second,
            boundaries: members.third,
            semantics: members.fourth,
        };
        check_typed(
            geometry,
            node.at_if(members.first),
            vertices,
            templates,
            found,
        );
    }
}
