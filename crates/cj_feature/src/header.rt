//! Headers: the first line of a stream.
ghost use Rattle.std.specs.Prelude.{◌≡◌, [], IfSome, Some, None, map, codes};
ghost use Rattle.std.specs.Option.{ForSome};
ghost use Rattle.std.specs.Str.{chars};
ghost use Rattle.cj_spans.specs.View.{document, document_line};
ghost use Rattle.cj_geometry.specs.Given.{given, given_line};
ghost use Rattle.cj_feature.specs.Meaning.Feature.{templates_of};
ghost use Rattle.cj_feature.specs.Meaning.Header.{header};
ghost use Rattle.cj_feature.specs.Shown.{ArePartsOf, AreKept};

mod reading;
mod rules;

use cj_decimal::{Affine, Decimal};
use cj_geometry::Templates;
use cj_spans::Doc;
pub use reading::HeaderParts;
use reading::{read_parts, template_list};
pub use rules::check_header;

/// A valid header.
///
/// It borrows the parts that were read of it before, or reads what it is asked for. So it is small,
/// and can be made again for each line.
#[derive(Clone, Copy)]
pub struct Header<'a> {
    doc: Doc<'a>,
    with_box: bool,
    kept: Option<&'a HeaderParts>,
    ghost valid: { header with_box (document doc) ≡ [] },
    ghost known: { ForSome kept (λ p. AreKept (document doc) with_box p.now) },
}

impl<'a> Header<'a> {
    ghost use Rattle.cj_feature.specs.Meaning.Transform.{transform_values};
    ghost use Rattle.cj_feature.specs.Axes.{AreThere};
    ghost use Rattle.cj_feature.specs.Shown.{maps_if, parts_box};
    ghost use Rattle.cj_feature.specs.HeaderView.{header_tree, header_line, has_box};

    /// Returns the header of a document that was judged for a box or for none.
    #[tactic(auto, unfolding(crate::specs::HeaderView::header_tree, crate::specs::HeaderView::header_line, crate::specs::HeaderView::has_box))]
    fn judged(doc: Doc<'a>, with_box: bool) -> Header<'a>
        requires { header with_box (document doc) ≡ [] }
        ensures tree { header_tree result ≡ document doc.entry }
        ensures line { header_line result ≡ document_line doc.entry }
        ensures with_box { has_box result ≡ with_box }
    {
        Header {
            doc,
            with_box,
            kept: None,
        }
    }

    /// Returns the header of this document again, given parts that were read of it.
    #[tactic(auto, unfolding(crate::specs::HeaderView::header_tree, crate::specs::HeaderView::header_line, crate::specs::HeaderView::has_box, crate::specs::Shown::parts_box))]
    pub fn of(doc: Doc<'a>, parts: HeaderParts) -> Header<'a>
        requires { ArePartsOf (document doc) parts }
        ensures tree { header_tree result ≡ document doc.entry }
        ensures line { header_line result ≡ document_line doc.entry }
        ensures with_box { has_box result ≡ parts_box parts }
    {
        Header::judged(doc, parts.with_box)
    }

    /// Returns the same header as [`Header::of`], which borrows the parts. So it reads none of them
    /// again.
    #[tactic(auto, unfolding(crate::specs::HeaderView::header_tree, crate::specs::HeaderView::header_line, crate::specs::HeaderView::has_box, crate::specs::Shown::parts_box))]
    pub fn kept(doc: Doc<'a>, parts: &'a HeaderParts) -> Header<'a>
        requires { ArePartsOf (document doc) parts.now }
        ensures tree { header_tree result ≡ document doc.entry }
        ensures line { header_line result ≡ document_line doc.entry }
        ensures with_box { has_box result ≡ parts_box parts.now }
    {
        Header {
            doc,
            with_box: parts.with_box,
            kept: Some(parts),
        }
    }

    /// Returns the scale on each axis (CityJSON 2.0, section 4). A vertex is multiplied by it.
    #[tactic(auto, unfolding(crate::specs::HeaderView::header_tree, crate::specs::HeaderView::header_line))]
    pub fn scale(&self) -> [Decimal; 3]
        ensures { transform_values (chars (codes "scale")) (header_tree self.now) ≡ map Some result }
    {
        match self.kept {
            Some(parts) => parts.scale,
            None => self.read().scale,
        }
    }

    /// Returns the translation on each axis. It is added to the scaled vertex.
    #[tactic(auto, unfolding(crate::specs::HeaderView::header_tree, crate::specs::HeaderView::header_line))]
    pub fn translate(&self) -> [Decimal; 3]
        ensures { transform_values (chars (codes "translate")) (header_tree self.now) ≡ map Some result }
    {
        match self.kept {
            Some(parts) => parts.translate,
            None => self.read().translate,
        }
    }

    /// Reads the parts.
    #[inline(never)]
    fn read(&self) -> HeaderParts
        ensures { AreKept (document self.now.doc) self.now.with_box result }
    {
        read_parts(self.doc.root(), self.with_box)
    }

    /// Returns the templates, by a walk over their list.
    #[inline(never)]
    fn listed_templates(&self) -> Templates<'a>
        ensures given { given result ≡ templates_of (document self.now.doc) }
        ensures line { ForSome (given_line result) (λ line. line ≡ document_line self.now.doc) }
    {
        match template_list(self.doc.root()) {
            Some(list) => Templates::list(list),
            None => Templates::empty(),
        }
    }

    /// Returns the templates, by the steps of an earlier walk. If there is no list of them, it
    /// searches for none.
    #[tactic(auto, using(crate::proofs::Rules::no_list))]
    fn stepped_templates(&self, parts: &'a HeaderParts) -> Templates<'a>
        requires { ArePartsOf (document self.now.doc) parts.now }
        ensures given { given result ≡ templates_of (document self.now.doc) }
        ensures line { ForSome (given_line result) (λ line. line ≡ document_line self.now.doc) }
    {
        let Some(steps) = &parts.templates else {
            return Templates::empty();
        };
        match template_list(self.doc.root()) {
            Some(list) => Templates::stepped(list, steps),
            None => Templates::empty(),
        }
    }

    /// Returns the templates that instances of later lines name. If the header has no list of them,
    /// it searches for none.
    #[tactic(auto, unfolding(crate::specs::HeaderView::header_tree, crate::specs::HeaderView::header_line))]
    pub fn templates(&'a self) -> Templates<'a>
        ensures given { given result ≡ templates_of (header_tree self.now) }
        ensures line { ForSome (given_line result) (λ line. line ≡ header_line self.now) }
    {
        match self.kept {
            Some(parts) => self.stepped_templates(parts),
            None => self.listed_templates(),
        }
    }

    /// Returns the document of the header.
    #[tactic(auto, unfolding(crate::specs::HeaderView::header_tree, crate::specs::HeaderView::header_line))]
    pub(crate) fn doc(&self) -> Doc<'a>
        ensures tree { document result ≡ header_tree self.now }
        ensures line { document_line result ≡ header_line self.now }
    {
        self.doc
    }

    /// Returns the maps of the x and y axes from whole numbers to coordinates, if the header was
    /// checked for a box.
    #[tactic(auto, unfolding(crate::specs::HeaderView::header_tree, crate::specs::HeaderView::has_box))]
    pub fn affine(&self) -> Option<[Affine; 2]>
        ensures maps { result ≡ maps_if (has_box self.now) (header_tree self.now) }
        ensures there { IfSome result (λ maps. AreThere (header_tree self.now) maps) }
    {
        match self.kept {
            Some(parts) => parts.maps,
            None => self.read().maps,
        }
    }

    /// Returns the line's content.
    #[tactic(auto, unfolding(crate::specs::HeaderView::header_tree, crate::specs::HeaderView::header_line))]
    pub fn bytes(&self) -> &'a [u8]
        ensures { result.now ≡ header_line self.now }
    {
        self.doc.line()
    }

    /// Returns the parts from which [`Header::of`] makes the same header.
    #[tactic(auto, unfolding(crate::specs::HeaderView::header_tree, crate::specs::HeaderView::has_box, crate::specs::Shown::parts_box))]
    pub fn parts(&self) -> HeaderParts
        ensures parts { ArePartsOf (header_tree self.now) result }
        ensures with_box { parts_box result ≡ has_box self.now }
    {
        match self.kept {
            Some(parts) => *parts,
            None => self.read(),
        }
    }
}
