//! The geometry types.
ghost use Rattle.std.specs.Prelude.{◌≡◌, option_map};
ghost use Rattle.cj_spans.specs.View.{tree};
ghost use Rattle.cj_geometry.specs.inner.Form.{form_value};
ghost use Rattle.cj_geometry.specs.Meaning.Table.{form_of, parts as parts_of_form};

use cj_spans::Node;

/// The type of an instance of a template.
pub const INSTANCE: &str = "GeometryInstance";

/// How deep the lists of a geometry type are.
#[derive(Clone, Copy)]
pub enum Form {
    /// Boundaries of some depth, with semantic values of some depth, or with values that are not
    /// read.
    Parts { depth: u8, values: Option<u8> },
    /// An instance of a template.
    Instance,
}

impl Form {
    /// Returns boundaries of this depth, with semantic values of a depth or unread ones.
    fn parts(depth: u8, values: Option<u8>) -> Form
        ensures { form_value result ≡ parts_of_form depth values }
    {
        Form::Parts { depth, values }
    }
}

/// Returns the form of the type with this name. Most geometries are surfaces, so it compares their
/// name before those that begin the same way.
pub fn form_of(name: Node) -> Option<Form>
    ensures { option_map form_value result ≡ form_of (tree name.entry) }
{
    if name.text_is("MultiSurface") {
        return Some(Form::parts(3, Some(1)));
    }
    if name.text_is("MultiPoint") {
        return Some(Form::parts(1, None));
    }
    if name.text_is("MultiLineString") {
        return Some(Form::parts(2, None));
    }
    if name.text_is("CompositeSurface") {
        return Some(Form::parts(3, Some(1)));
    }
    if name.text_is("Solid") {
        return Some(Form::parts(4, Some(2)));
    }
    if name.text_is("MultiSolid") {
        return Some(Form::parts(5, Some(3)));
    }
    if name.text_is("CompositeSolid") {
        return Some(Form::parts(5, Some(3)));
    }
    if name.text_is(INSTANCE) {
        return Some(Form::Instance);
    }
    None
}
