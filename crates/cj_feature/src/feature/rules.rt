//! The rules on features, one after another, and the verdict that follows.
ghost use Rattle.std.specs.Prelude.{◌≡◌, [], Some, MatchResult, IfOk, IfSome, IsTrue, false, codes, length, option_map};
ghost use Rattle.std.specs.List.{flat_map};
ghost use Rattle.std.specs.Str.{chars};
ghost use Rattle.cj_spans.specs.declared.reason.Reason.TheVariants.{NotThree};
ghost use Rattle.cj_spans.specs.Meaning.Finding.{least};
ghost use Rattle.cj_spans.specs.Meaning.Least.{IsLeast};
ghost use Rattle.cj_spans.specs.Meaning.Kinds.{is_object};
ghost use Rattle.cj_spans.specs.Meaning.Parts.{items_of, member_of};
ghost use Rattle.cj_spans.specs.View.{tree, line_of, source_of, tokens_in, document, document_line, document_source};
ghost use Rattle.cj_geometry.specs.Meaning.Geometry.{count_if, count_of};
ghost use Rattle.cj_geometry.specs.Given.{given};
ghost use Rattle.cj_geometry.specs.Meaning.Rule.{of_kind, needs, of_length};
ghost use Rattle.cj_geometry.specs.Meaning.Numbers.{whole_number};
ghost use Rattle.cj_feature.specs.Meaning.Feature.{vertex_list, feature_rules, feature};
ghost use Rattle.cj_feature.specs.HeaderView.{header_tree, header_line};
ghost use Rattle.cj_feature.specs.Meaning.Links.{links};
ghost use Rattle.cj_feature.specs.ReachedMarks.{AreMarks};
ghost use Rattle.cj_feature.specs.inner.RootMembers.{AreMembers};
ghost use Rattle.cj_feature.specs.View.{feature_tree, feature_line, feature_header, feature_header_line};

use crate::feature::Feature;
use crate::feature::ids::check_id_member;
use crate::feature::links::check_links;
use crate::feature::objects::{Beside, check_city_objects_member};
use crate::feature::search::reached::check_reached;
use crate::header::Header;
use crate::member::check_name_there;
use cj_geometry::rule::{
    add, check_array, check_names_unless, check_object, check_there, check_whole, count_wholes,
    is_short_triple,
};
use cj_spans::{Doc, Finding, Least, Node, Reason};

/// Checks that each item is a whole number. Returns how many there are, so that one walk is enough.
/// It first counts the valid items at the front.
#[inline(always)]
fn check_wholes(node: Node, found: &mut Least) -> u64
    ensures count { result ≡ length (items_of (tree node.entry)) }
    ensures found { found.new ≡ least found.old (flat_map whole_number (items_of (tree node.entry))) }
{
    let front = count_wholes(node);
    let mut count = front as u64;
    for item in node.items_behind(front) {
        check_whole(item, found);
        count += 1;
    }
    count
}

/// Checks a vertex that [`is_short_triple`] does not accept, as [`check_vertex`] does.
#[inline(never)]
fn check_other_vertex(node: Node, found: &mut Least)
    ensures { found.new ≡ least found.old (of_length NotThree 3 whole_number (tree node.entry)) }
{
    if check_array(node, found) {
        if check_wholes(node, found) != 3 {
            add(node, Reason::NotThree, found);
        }
    }
}

/// Checks that the value is an array of three whole numbers.
#[inline(always)]
fn check_vertex(node: Node, found: &mut Least)
    ensures { found.new ≡ least found.old (of_length NotThree 3 whole_number (tree node.entry)) }
{
    if !is_short_triple(node) {
        check_other_vertex(node, found);
    }
}

/// Checks that the value is an array of vertices. Returns how many there are, if it is an array.
///
/// It is never inlined, so that its loop has the registers.
#[inline(never)]
#[tactic(auto, using(crate::proofs::Rules::finding_steps))]
fn check_vertices(node: Node, found: &mut Least) -> Option<u64>
    ensures count { result ≡ count_if (tree node.entry) }
    ensures found { found.new ≡ least found.old (vertex_list (tree node.entry)) }
{
    if !check_array(node, found) {
        return None;
    }
    let mut count = 0;
    for item in node.items() {
        check_vertex(item, found);
        count += 1;
    }
    Some(count)
}

/// Checks that the feature has vertices. Returns how many there are, if they are an array.
fn check_vertices_member(object: Node, vertices: Option<Node>, found: &mut Least) -> Option<u64>
    requires { option_map tree vertices ≡ member_of (chars (codes "vertices")) (tree object) }
    ensures count { result ≡ count_of (member_of (chars (codes "vertices")) (tree object.entry)) }
    ensures found { found.new ≡ least found.old (needs (chars (codes "vertices")) vertex_list (tree object.entry)) }
{
    check_there(object, vertices, found);
    match vertices {
        Some(value) => check_vertices(value, found),
        None => None,
    }
}

/// Checks the links of the city objects. Unless `linked`, they have none.
#[inline(always)]
fn check_links_if(linked: bool, objects: Option<Node>, found: &mut Least)
    requires { linked ≡ false → links (option_map tree objects) ≡ [] }
    ensures { found.new ≡ least found.old (links (option_map tree objects.entry)) }
{
    if linked {
        check_links(objects, found);
    }
}

/// The numbers of members of a feature, each if it is there, and whether all names begin apart.
#[derive(Clone, Copy)]
struct Members {
    kind: Option<u32>,
    id: Option<u32>,
    objects: Option<u32>,
    vertices: Option<u32>,
    apart: bool,
}

/// Returns the numbers of these members of a feature.
#[inline(always)]
fn members_of(node: Node) -> Members
    ensures { AreMembers node.entry result }
{
    let members = node.get_four("type", "id", "CityObjects", "vertices");
    Members {
        kind: members.first,
        id: members.second,
        objects: members.third,
        vertices: members.fourth,
        apart: members.apart,
    }
}

/// Checks that the value is a feature with these members, beside templates. If required, it checks
/// that the city objects are connected. Vertices come before the city objects, which need their
/// number.
fn check_root(node: Node, members: Members, beside: Beside, connected: bool, found: &mut Least)
    requires members { AreMembers node members }
    requires marks { IsTrue connected → AreMarks (tree node) (line_of node) (tokens_in (source_of node)) }
    ensures { found.new
        ≡ least found.old
        (of_kind is_object (feature_rules (given beside.entry.templates) connected beside.entry.extensions)
        (tree node.entry)) }
{
    if check_object(node, found) {
        let Members {
            kind,
            id,
            objects,
            vertices,
            apart,
        } = members;
        check_names_unless(apart, node, found);
        let kind = node.at_if(kind);
        check_name_there(node, kind, "CityJSONFeature", Reason::WrongType, found);
        check_id_member(node, node.at_if(id), node.at_if(objects), found);
        let count = check_vertices_member(node, node.at_if(vertices), found);
        let linked = check_city_objects_member(node, node.at_if(objects), count, beside, found);
        check_links_if(linked, node.at_if(objects), found);
        check_reached(connected, node, node.at_if(objects), found);
    }
}

/// Judges a line as a feature, given the header of its stream. The rules are in CityJSON 2.0,
/// sections 2 and 8, and on the CityJSONSeq page of cityjson.org. With `tree`, each city object
/// must also be reached from the feature's id, as [`crate::mark_reached`] has marked them. With
/// `extensions`, types that begin with `+` are known.
///
/// # Errors
///
/// The least finding by byte and code.
pub fn check_feature<'a>(
    doc: Doc<'a>,
    header: &'a Header<'a>,
    tree: bool,
    extensions: bool,
) -> Result<Feature<'a>, Finding>
    requires { IsTrue tree
        → AreMarks (document doc) (document_line doc) (tokens_in (document_source doc)) }
    ensures verdict { let findings = feature (header_tree header.now) (document doc.entry) tree extensions in
        MatchResult result (λ f. findings ≡ []) (λ f. IsLeast findings (Some f)) }
    ensures tree { IfOk result (λ f. feature_tree f ≡ document doc.entry) }
    ensures line { IfOk result (λ f. feature_line f ≡ document_line doc.entry) }
    ensures header { IfOk result (λ f. feature_header f ≡ header_tree header.now) }
    ensures header_line { IfOk result (λ f. feature_header_line f ≡ header_line header.now) }
{
    let root = doc.root();
    let members = members_of(root);
    let templates = header.templates();
    let beside = Beside {
        templates,
        extensions,
    };
    let mut found = Least::new();
    check_root(root, members, beside, tree, &mut found);
    match found.get() {
        Some(finding) => Err(finding),
        None => {
            let Members {
                kind: _,
                id: _,
                objects,
                vertices,
                apart: _,
            } = members;
            Ok(Feature::of(doc, header.doc(), objects, vertices, templates))
        }
    }
}
