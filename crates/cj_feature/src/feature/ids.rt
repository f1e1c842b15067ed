//! Ids: names of the city objects of a feature.
ghost use Rattle.std.specs.Prelude.{◌≡◌, codes, option_map};
ghost use Rattle.std.specs.Str.{chars};
ghost use Rattle.cj_spans.specs.Meaning.Finding.{least};
ghost use Rattle.cj_spans.specs.Meaning.Kinds.{is_text};
ghost use Rattle.cj_spans.specs.Meaning.Parts.{members_of, member_of};
ghost use Rattle.cj_spans.specs.View.{tree};
ghost use Rattle.cj_geometry.specs.Meaning.Rule.{of_kind};
ghost use Rattle.cj_feature.specs.Meaning.Feature.{id_in, id_rule};
ghost use Rattle.cj_feature.specs.Meaning.Links.{is_known as is_known_in};

use cj_geometry::rule::{add, check_there};
use cj_spans::{Kind, Least, Node, Reason};

/// Returns whether a city object has the text as its name. It compares the names one after another.
pub fn is_known(objects: Node, id: Node) -> bool
    ensures { result ≡ is_known_in (members_of (tree objects.entry)) (tree id.entry) }
{
    for (name, _) in objects.members() {
        if name.same_text(id) {
            return true;
        }
    }
    false
}

/// Checks that the text is the name of a city object, if the city objects are an object.
fn check_among(id: Node, objects: Option<Node>, found: &mut Least)
    ensures { found.new ≡ least found.old (id_in (option_map tree objects.entry) (tree id.entry)) }
{
    let Some(objects) = objects else {
        return;
    };
    match objects.kind() {
        Kind::Object => {
            if !is_known(objects, id) {
                add(id, Reason::IdNotFound, found);
            }
        }
        _ => {}
    }
}

/// Checks that the value is a text that is the name of a city object.
fn check_id(id: Node, objects: Option<Node>, found: &mut Least)
    ensures { found.new ≡ least found.old (of_kind is_text (id_in (option_map tree objects.entry)) (tree id.entry)) }
{
    match id.kind() {
        Kind::Text => check_among(id, objects, found),
        _ => add(id, Reason::WrongKind, found),
    }
}

/// Checks that the feature has an id, and that it is the name of one of its city objects. The
/// caller has looked up both.
pub fn check_id_member(object: Node, id: Option<Node>, objects: Option<Node>, found: &mut Least)
    requires id { option_map tree id ≡ member_of (chars (codes "id")) (tree object) }
    requires objects { option_map tree objects ≡ member_of (chars (codes "CityObjects")) (tree object) }
    ensures { found.new ≡ least found.old (id_rule (tree object.entry)) }
{
    check_there(object, id, found);
    if let Some(id) = id {
        check_id(id, objects, found);
    }
}
