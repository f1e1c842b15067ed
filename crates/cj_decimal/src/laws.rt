//! Laws of the definitions that contracts cite, each proved once.
ghost use Rattle.std.specs.Prelude.{◌≡◌, List, ℕ};
ghost use Rattle.cj_decimal.specs.Meaning.Class.{Class, SaySame, value_answer, whole_answer, whole_answer_by};
ghost use Rattle.cj_decimal.specs.Meaning.Decimal.{decimal_of};
ghost use Rattle.cj_decimal.specs.Rows.{WorkedRows};

/// A spelling has exactly one class as a number: no number, out of range, in range and not whole,
/// or whole. It has at most one value.
#[tactic(auto, using(crate::proofs::Readings::say_same))]
pub fn one_class()
    ensures classified { (s : List ℕ) → Class s }
    ensures only { (s : List ℕ) (j k : Class s) → SaySame j k }
{}

/// The number that is computed for a spelling agrees with the class of the spelling, and so with
/// the grammar of numbers.
#[tactic(auto, using(crate::proofs::Readings::whole_class, crate::proofs::Readings::decimal_class))]
pub fn decimal_is_class()
    ensures value { (s : List ℕ) (c : Class s) → decimal_of s ≡ value_answer c }
    ensures whole { (s : List ℕ) (c : Class s) → whole_answer_by (decimal_of s) ≡ whole_answer c }
{}

/// The worked rows are true of the definitions.
#[tactic(auto, using(crate::proofs::Classes::worked_rows))]
pub fn worked_rows()
    ensures { WorkedRows }
{}
