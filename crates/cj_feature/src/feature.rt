//! Features: the later lines of a stream.
ghost use Rattle.std.specs.Prelude.{◌≡◌, ◌<◌, ℕ, List, [], false, true, None, Some, IfSome, codes, get_or, map, option_map};
ghost use Rattle.std.specs.Str.{chars};
ghost use Rattle.cj_spans.specs.Meaning.Parts.{member_of, text_of};
ghost use Rattle.cj_spans.specs.View.{document, document_line, document_source, tree, tree_in, line_of};
ghost use Rattle.std.specs.Option.{ForSome};
ghost use Rattle.cj_geometry.specs.Given.{given, given_line};
ghost use Rattle.cj_feature.specs.Meaning.Feature.{feature, templates_of};
ghost use Rattle.cj_geometry.specs.inner.TreeSet.{tree_if-set, given-set};

mod city_object;
mod coordinates;
mod geometries;
mod ids;
mod links;
mod objects;
mod rules;
mod search;
mod vertices;

pub use city_object::{CityObject, Objects};
use cj_geometry::Templates;
use cj_spans::{Doc, Node};
pub use coordinates::Coordinates;
pub use geometries::Geometries;
pub use rules::check_feature;
pub use search::reached::mark_reached;
pub use vertices::Vertices;

/// A valid feature, with its header. The members where its walks begin are looked up once, when it
/// is judged, and kept as numbers.
#[derive(Clone, Copy)]
pub struct Feature<'a> {
    doc: Doc<'a>,
    header: Doc<'a>,
    objects: u32,
    vertices: u32,
    templates: Templates<'a>,
    ghost valid: { feature (document header) (document doc) false true ≡ [] },
    ghost has_objects: { member_of (chars (codes "CityObjects")) (document doc) ≡ Some (tree_in (document_source doc) objects) } by { tree_if-set _ _ },
    ghost has_vertices: { member_of (chars (codes "vertices")) (document doc) ≡ Some (tree_in (document_source doc) vertices) } by { tree_if-set _ _ },
    ghost has_templates: { given templates ≡ templates_of (document header) } by { given-set _ _ },
    ghost placed: { ForSome (given_line templates) (λ line. line ≡ document_line header) },
}

impl<'a> Feature<'a> {
    ghost use Rattle.std.specs.Prelude.{IsTrue};
    ghost use Rattle.std.specs.List.{flat_map};
    ghost use Rattle.cj_geometry.specs.Meaning.Lod.{lod};
    ghost use Rattle.cj_spans.specs.Meaning.Parts.{items_if, members_if};
    ghost use Rattle.cj_feature.specs.Meaning.Relations.{IsIn};
    ghost use Rattle.cj_feature.specs.Meaning.CityObject.{vertex_of, object_geometries};
    ghost use Rattle.cj_feature.specs.Axes.{number_on};
    ghost use Rattle.cj_feature.specs.View.{feature_tree, feature_line, feature_header, feature_header_line};
    ghost use Rattle.cj_feature.specs.Walks.{objects_left, objects_line, geometries_left, geometries_line};
    ghost use Rattle.cj_feature.specs.Walks.{vertices_left, coordinates_left};

    /// Returns the feature of a document that has no findings with this header. `objects` and
    /// `vertices` are the numbers of its members, and `templates` are those of the header.
    #[tactic(auto, unfolding(crate::specs::View::feature_tree, crate::specs::View::feature_line, crate::specs::View::feature_header, crate::specs::View::feature_header_line))]
    fn of(
        doc: Doc<'a>,
        header: Doc<'a>,
        objects: Option<u32>,
        vertices: Option<u32>,
        templates: Templates<'a>,
    ) -> Feature<'a>
        requires valid { feature (document header) (document doc) false true ≡ [] }
        requires objects { option_map (tree_in (document_source doc)) objects
            ≡ member_of (chars (codes "CityObjects")) (document doc) }
        requires vertices { option_map (tree_in (document_source doc)) vertices
            ≡ member_of (chars (codes "vertices")) (document doc) }
        requires templates { given templates ≡ templates_of (document header) }
        requires line { ForSome (given_line templates) (λ line. line ≡ document_line header) }
        ensures tree { feature_tree result ≡ document doc.entry }
        ensures line { feature_line result ≡ document_line doc.entry }
        ensures header { feature_header result ≡ document header.entry }
        ensures header_line { feature_header_line result ≡ document_line header.entry }
    {
        match objects {
            Some(objects) => match vertices {
                Some(vertices) => Feature {
                    doc,
                    header,
                    objects,
                    vertices,
                    templates,
                },
                None => unreachable!(),
            },
            None => unreachable!(),
        }
    }

    /// Returns the id, which is the name of one of the city objects.
    #[tactic(auto, unfolding(crate::specs::View::feature_tree, crate::specs::View::feature_line))]
    pub fn id(&self) -> Node<'a>
        ensures tree { member_of (chars (codes "id")) (feature_tree self.now) ≡ Some (tree result) }
        ensures named { (x : List ℕ) × (text_of (tree result) ≡ Some x)
            × IsIn (members_if (member_of (chars (codes "CityObjects")) (feature_tree self.now))) x }
        ensures line { line_of result ≡ feature_line self.now }
    {
        match self.doc.root().get("id") {
            Some(id) => id,
            None => unreachable!(),
        }
    }

    /// Returns the value of `CityObjects`.
    fn objects_node(&self) -> Node<'a>
        ensures tree { member_of (chars (codes "CityObjects")) (document self.now.doc) ≡ Some (tree result) }
        ensures line { line_of result ≡ document_line self.now.doc }
    {
        self.doc.root().at(self.objects)
    }

    /// Returns the value of `vertices`.
    fn vertices_node(&self) -> Node<'a>
        ensures { member_of (chars (codes "vertices")) (document self.now.doc) ≡ Some (tree result) }
    {
        self.doc.root().at(self.vertices)
    }

    /// Returns the city objects, in order.
    #[tactic(auto, unfolding(crate::specs::View::feature_tree, crate::specs::View::feature_line))]
    pub fn objects(&self) -> Objects<'a>
        ensures objects { objects_left result
            ≡ members_if (member_of (chars (codes "CityObjects")) (feature_tree self.now)) }
        ensures line { objects_line result ≡ feature_line self.now }
    {
        Objects::over(self.objects_node().members())
    }

    /// Returns the geometries of all city objects, in order.
    #[tactic(auto, unfolding(crate::specs::View::feature_tree, crate::specs::View::feature_line))]
    pub fn geometries(&self) -> Geometries<'a>
        ensures geometries { geometries_left result
            ≡ flat_map object_geometries
            (members_if (member_of (chars (codes "CityObjects")) (feature_tree self.now))) }
        ensures line { geometries_line result ≡ feature_line self.now }
    {
        Geometries::over(self.objects_node().members())
    }

    /// Returns the vertices, in order.
    #[tactic(auto, unfolding(crate::specs::View::feature_tree))]
    pub fn vertices(&self) -> Vertices<'a>
        ensures { vertices_left result
            ≡ map vertex_of (items_if (member_of (chars (codes "vertices")) (feature_tree self.now))) }
    {
        Vertices::over(self.vertices_node().items())
    }

    /// Returns the coordinates of the vertices on an axis, in order: 0 is x, 1 is y, and 2 is z.
    /// They are the whole numbers of the line, before the transform.
    #[tactic(auto, unfolding(crate::specs::View::feature_tree, crate::specs::Walks::vertices_left))]
    pub fn coordinates(&self, axis: usize) -> Coordinates<'a>
        requires { axis < 3 }
        ensures numbers { coordinates_left result
            ≡ map (number_on axis)
            (map vertex_of (items_if (member_of (chars (codes "vertices")) (feature_tree self.now)))) }
        ensures there { map Some (coordinates_left result)
            ≡ map (λ v. get_or v axis None)
            (map vertex_of (items_if (member_of (chars (codes "vertices")) (feature_tree self.now)))) }
    {
        Coordinates::over(self.vertices().items, axis)
    }

    /// Returns the line's content.
    #[tactic(auto, unfolding(crate::specs::View::feature_line))]
    pub fn bytes(&self) -> &'a [u8]
        ensures { result.now ≡ feature_line self.now }
    {
        self.doc.line()
    }

    /// Returns whether the header has no templates. If so, no geometry is an instance, and each has
    /// an LoD of its own.
    #[tactic(auto, unfolding(crate::specs::View::feature_tree, crate::specs::View::feature_header))]
    pub fn has_own_lods(&self) -> bool
        ensures { let geometries = flat_map object_geometries
            (members_if (member_of (chars (codes "CityObjects")) (feature_tree self.now))) in
            IsTrue result → map (lod (templates_of (feature_header self.now))) geometries
            ≡ map (member_of (chars (codes "lod"))) geometries }
    {
        let templates = self.templates;
        templates.is_empty()
    }

    /// Returns the header's templates, which instances name.
    #[tactic(auto, unfolding(crate::specs::View::feature_header, crate::specs::View::feature_header_line))]
    pub fn templates(&self) -> Templates<'a>
        ensures given { given result ≡ templates_of (feature_header self.now) }
        ensures line { ForSome (given_line result) (λ line. line ≡ feature_header_line self.now) }
    {
        self.templates
    }
}
