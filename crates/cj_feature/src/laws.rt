//! Laws of the definitions, each proved once.
ghost use Rattle.std.specs.Prelude.{◌≡◌, ◌↔◌, List, Some, ℤ, IsTrue, true};
ghost use Rattle.std.specs.List.{Contains};
ghost use Rattle.cj_spans.specs.Meaning.Tree.{Tree};
ghost use Rattle.cj_spans.specs.declared.finding.Finding.{Finding};
ghost use Rattle.cj_spans.specs.Meaning.Parts.{members_of};
ghost use Rattle.cj_decimal.specs.Meaning.Number.{Number, is_fixed, units_of};
ghost use Rattle.cj_decimal.specs.Meaning.Equality.{IsNormal, IsWhole, IsFixed};
ghost use Rattle.cj_decimal.specs.Meaning.Spelling.{IsValue};
ghost use Rattle.cj_geometry.specs.Meaning.Numbers.{spelling, whole_of, value_of};
ghost use Rattle.cj_feature.specs.Meaning.Links.{links};
ghost use Rattle.cj_feature.specs.Meaning.Reachable.{IsReached};
ghost use Rattle.cj_feature.specs.Meaning.Reached.{is_reached};
ghost use Rattle.cj_feature.specs.Meaning.Relations.{IsLinkFault};

/// There are two definitions of what is wrong with the links of city objects. One is tests on their
/// members, which compute. The other is relations between ids. Both give the same findings.
#[tactic(auto, using(crate::proofs::LinkFaults::links_both_ways))]
pub fn links_are_the_links()
    ensures { (t : Tree) (f : Finding) → Contains (links (Some t)) f ↔ IsLinkFault (members_of t) f }
{}

/// There are two definitions of what is reached from an id. One is rounds over the city objects,
/// which compute. The other is the least set of ids. Both give the same result for each name.
#[tactic(auto, using(crate::proofs::Reaching::reached_both_ways))]
pub fn reached_is_the_least_set()
    ensures { (objects : List (Tree × Tree)) (id name : Tree)
        → (is_reached objects id name ≡ true) ↔ IsReached objects id name }
{}

/// The test for a fixed number in the rule on a transform with a box is right. It is true for the
/// numbers in normal form that are whole numbers of units of 10^-18, below 10^18 in size. The maps
/// of the axes use these units.
pub fn fixed_numbers_are_fixed()
    ensures fixed { (n : Number) → IsNormal n → (IsTrue (is_fixed n) ↔ ((u : ℤ) × IsFixed n u)) }
    ensures units { (n : Number) → IsTrue (is_fixed n) → IsFixed n (units_of n) }
{}

/// The numbers that headers and features show are the values of their spellings.
#[tactic(auto, using(crate::proofs::Rules::number_values))]
pub fn numbers_have_their_values()
    ensures value { (t : Tree) (v : Number) → value_of t ≡ Some v → IsValue (spelling t) v }
    ensures whole { (t : Tree) (w : ℤ) → whole_of t ≡ Some w
        → (v : Number) × IsValue (spelling t) v × IsWhole v w }
{}
