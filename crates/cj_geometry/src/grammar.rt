//! One grammar for the numbers of a scanned line and the numbers that decimals are read from.
ghost use Rattle.std.specs.Prelude.{◌≡◌, ◌↔◌, ℕ, List, slice_range};
ghost use Rattle.cj_spans.specs.declared.token.Kind.TheVariants.{Number};
ghost use Rattle.cj_spans.specs.Meaning.Tree.{Tree};
ghost use Rattle.cj_spans.specs.Meaning.Spelling.{IsScalar};
ghost use Rattle.cj_spans.specs.Meaning.Json.{Json, IsAtom};
ghost use Rattle.cj_spans.specs.Meaning.Parts.{kind_of};
ghost use Rattle.cj_spans.specs.Places.{spelling_of};
ghost use Rattle.cj_decimal.specs.Meaning.Spelling.{SpellsNumber};
ghost use Rattle.cj_decimal.specs.Meaning.Class.{Class};
ghost use Rattle.cj_geometry.specs.Grammar.{IsWithinTree, IsOfNumber};

/// A number of a scanned line is a number for the rules.
///
/// `cj_spans` and `cj_decimal` each state the grammar of numbers, and it is the same one. Bytes are
/// a scalar of kind number exactly if they are the spelling of a decimal. So what a scan calls a
/// number is one to `cj_decimal`, anywhere in a JSON text. Its class is never that it is no number.
pub fn one_grammar_of_numbers()
    ensures same { (s : List ℕ) → (IsScalar Number s ↔ SpellsNumber s) }
    ensures atom { (line : List ℕ) (i j : ℕ) → IsAtom line Number i j → SpellsNumber (slice_range line i j) }
    ensures held { (line : List ℕ) (t u : Tree) → Json line t → IsWithinTree t u → kind_of u ≡ Number
        → SpellsNumber (spelling_of line u) }
    ensures of_number { (line : List ℕ) (t u : Tree) (c : Class (spelling_of line u)) → Json line t
        → IsWithinTree t u → kind_of u ≡ Number → IsOfNumber c }
{}
