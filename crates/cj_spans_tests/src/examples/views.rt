//! Views of worked trees: each contract is a theorem about one tree.
ghost use Rattle.std.specs.Prelude.{◌≡◌, ◌∷◌, [], codes, Some, None, true, false};
ghost use Rattle.cj_spans.specs.declared.token.Kind.TheVariants.{Text, Number, Object};
ghost use Rattle.cj_spans.specs.Meaning.Tree.{scalar, array, object, item, no_items, member, no_members};
ghost use Rattle.cj_spans.specs.Meaning.Json.{atom_at};
ghost use Rattle.cj_spans.specs.Forest.{forest};
ghost use Rattle.cj_spans.specs.Preorder.{span_at, preorder};
ghost use Rattle.cj_spans.specs.Meaning.Parts.{kind_of, items_of, members_of, member_of, has_text};
ghost use Rattle.cj_spans.specs.Initials.{first_code_of};
ghost use Rattle.cj_spans.specs.Places.{spelling_of};
ghost use Rattle.cj_spans_tests.specs.Examples.{line, seven, named_line, named};

/// The member of a name is the first one whose name has that text, in any spelling.
pub fn first_of_a_name()
    ensures first { member_of (codes "b") named ≡ Some (scalar Number (atom_at named_line 10 11)) }
    ensures spelled { member_of (codes "\\u0062") named ≡ None }
    ensures none { member_of (codes "c") named ≡ None }
{}

/// A value that is no object has no members, and no text if it is no string.
pub fn no_members_of_a_number()
    ensures members { members_of (scalar Number (atom_at named_line 10 11)) ≡ [] }
    ensures text { has_text (codes "1") (scalar Number (atom_at named_line 10 11)) ≡ false }
    ensures first { first_code_of (scalar Number (atom_at named_line 10 11)) ≡ None }
    ensures items { items_of named ≡ [] }
{}

/// The parts of the tree of `{"a":{"b":[]},"c":0}`.
pub fn parts_of_seven()
    ensures kind { kind_of seven ≡ Object }
    ensures members { members_of seven
        ≡ (scalar Text (atom_at line 1 4), object 5 13 (member (atom_at line 6 9) (array 10 12 no_items) no_members))
        ∷ (scalar Text (atom_at line 14 17), scalar Number (atom_at line 18 19)) ∷ [] }
    ensures first { first_code_of (scalar Text (atom_at line 14 17)) ≡ Some 99 }
    ensures shown { forest line (preorder seven) ≡ seven ∷ [] }
{}
