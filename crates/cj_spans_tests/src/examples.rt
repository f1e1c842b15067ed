//! The definitions on worked lines: each contract is a theorem about one line.
//!
//! `texts`, `views` and `findings` have the same of texts, trees and findings. `rules` has rules as
//! the layers above write them.
ghost use Rattle.std.specs.Prelude.{◌≡◌, ◌∷◌, [], codes, ℕ};
ghost use Rattle.cj_spans.specs.declared.token.Kind.TheVariants.{Number};
ghost use Rattle.cj_spans.specs.Meaning.Tree.{scalar, array, no_items, item, size, nest};
ghost use Rattle.cj_spans_tests.specs.Examples.{seven};
ghost use Rattle.cj_spans.specs.Meaning.Json.{Json, atom_at};
ghost use Rattle.cj_spans.specs.Meaning.Prefix.{SyntaxAt, DeepAt};
ghost use Rattle.cj_spans.specs.Meaning.Begins.{IsFirstFault};

mod findings;
mod rules;
mod texts;
mod views;

/// A zero before another digit.
pub fn leading_zero()
    ensures { SyntaxAt (codes "01") 1 }
{}

/// A minus alone.
pub fn lone_minus()
    ensures { SyntaxAt (codes "-") 1 }
{}

/// A comma before the bracket.
pub fn trailing_comma()
    ensures { SyntaxAt (codes "[1,]") 3 }
{}

/// A letter that is no escape, after a quote and a backslash.
pub fn bad_escape()
    ensures { SyntaxAt (34 ∷ 92 ∷ 113 ∷ 34 ∷ []) 2 }
{}

/// A literal that is cut short by a brace.
pub fn cut_literal()
    ensures { SyntaxAt (codes "tru}") 3 }
{}

/// A letter after a JSON text.
pub fn second_value()
    ensures { SyntaxAt (codes "{} x") 3 }
{}

/// An array that is not closed.
pub fn unclosed_array()
    ensures { SyntaxAt (codes "[1") 2 }
{}

/// The empty line.
pub fn empty_line()
    ensures { SyntaxAt [] 0 }
{}

/// A JSON text has no first fault, neither in it nor past its end.
pub fn whole_text()
    ensures { (i : ℕ) → IsFirstFault (codes "{}") i → ⊥ }
{}

/// One container too many, before another fault.
pub fn too_deep()
    ensures { DeepAt (codes "[[}") 1 1 }
{}

/// An array of one number, as a JSON text.
pub fn one_number()
    ensures { let b = codes "[0]" in Json b (array 0 3 (item (scalar Number (atom_at b 1 2)) no_items)) }
{}

/// The size and the depth of the tree of `{"a":{"b":[]},"c":0}`.
pub fn seven_values_and_names()
    ensures size { size seven ≡ 7 }
    ensures nest { nest seven ≡ 3 }
{}
