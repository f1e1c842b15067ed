//! Instances of templates (CityJSON 2.0, section 3). An instance has a template, one vertex where
//! the template is placed, and the matrix that turns and scales it there.
ghost use Rattle.std.specs.Prelude.{◌≡◌, codes, Some};
ghost use Rattle.std.specs.Str.{chars};
ghost use Rattle.cj_spans.specs.declared.reason.Reason.TheVariants.{TemplateIndex, VertexIndex, BadInstance};
ghost use Rattle.cj_spans.specs.Meaning.Finding.{least};
ghost use Rattle.cj_spans.specs.View.{tree};
ghost use Rattle.cj_geometry.specs.Meaning.Rule.{needs, of_length};
ghost use Rattle.cj_geometry.specs.Meaning.Numbers.{number, index};
ghost use Rattle.cj_geometry.specs.Meaning.Geometry.{instance_rules};

use crate::rule::{check_index, check_length, check_number, needed};
use cj_spans::{Least, Node, Reason};

/// Checks that the instance names a template.
fn check_template(object: Node, templates: u64, found: &mut Least)
    ensures { found.new
        ≡ least found.old
        (needs (chars (codes "template")) (index TemplateIndex (Some templates)) (tree object.entry)) }
{
    if let Some(value) = needed(object, "template", found) {
        check_index(value, Reason::TemplateIndex, Some(templates), found);
    }
}

/// Checks that the value is an array of one index of a vertex.
fn check_point(node: Node, vertices: Option<u64>, found: &mut Least)
    ensures { found.new ≡ least found.old (of_length BadInstance 1 (index VertexIndex vertices) (tree node.entry)) }
{
    check_length(node, 1, Reason::BadInstance, found);
    for item in node.items() {
        check_index(item, Reason::VertexIndex, vertices, found);
    }
}

/// Checks that the instance has one vertex.
fn check_point_member(object: Node, vertices: Option<u64>, found: &mut Least)
    ensures { found.new
        ≡ least found.old
        (needs (chars (codes "boundaries")) (of_length BadInstance 1 (index VertexIndex vertices))
        (tree object.entry)) }
{
    if let Some(value) = needed(object, "boundaries", found) {
        check_point(value, vertices, found);
    }
}

/// Checks that the value is an array of 16 numbers.
fn check_matrix(node: Node, found: &mut Least)
    ensures { found.new ≡ least found.old (of_length BadInstance 16 number (tree node.entry)) }
{
    check_length(node, 16, Reason::BadInstance, found);
    for item in node.items() {
        check_number(item, found);
    }
}

/// Checks that the instance has a matrix.
fn check_matrix_member(object: Node, found: &mut Least)
    ensures { found.new
        ≡ least found.old
        (needs (chars (codes "transformationMatrix")) (of_length BadInstance 16 number) (tree object.entry)) }
{
    if let Some(value) = needed(object, "transformationMatrix", found) {
        check_matrix(value, found);
    }
}

/// Checks an instance of one of this number of templates.
#[tactic(auto, using(crate::proofs::Values::finding_steps))]
pub fn check_instance(object: Node, templates: u64, vertices: Option<u64>, found: &mut Least)
    ensures { found.new ≡ least found.old (instance_rules vertices templates (tree object.entry)) }
{
    check_template(object, templates, found);
    check_point_member(object, vertices, found);
    check_matrix_member(object, found);
}
