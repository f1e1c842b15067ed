//! The least finding of a line.
ghost use Rattle.std.specs.Prelude.{◌≡◌, ◌∷◌, ◌++◌, List, Option as OptionOf, None};
ghost use Rattle.cj_spans.specs.declared.finding.Finding.{Finding as FindingOf};
ghost use Rattle.cj_spans.specs.Meaning.Finding.{lesser, least, is_before as is_before_of};
ghost use Rattle.cj_spans.specs.Meaning.Least.{list_found, IsLeast, HaveSame};

use crate::finding::Finding;
use std::marker::Model;

/// The least finding so far, by byte and code, or none. Contracts see it as that finding.
#[derive(Clone, Copy, Debug)]
pub struct Least {
    found: Option<Finding>,
}

impl Model for Least {
    ghost use Rattle.std.specs.Prelude.{Option};
    ghost use Rattle.cj_spans.specs.declared.finding.Finding.{Finding};

    ghost Value = { Option Finding };

    ghost view = { λ l. l.found };

    ghost inverse = { λ o. record { found = o } };
}

/// Returns whether the first finding comes before the second.
fn is_before(finding: Finding, other: Finding) -> bool
    ensures { result ≡ is_before_of finding other }
{
    finding.place < other.place
        || (finding.place == other.place && finding.reason.code() < other.reason.code())
}

impl Least {
    /// Returns a `Least` without a finding.
    pub fn new() -> Least
        ensures { result ≡ None }
    {
        Least { found: None }
    }

    /// Adds one finding.
    pub fn add(&mut self, finding: Finding)
        ensures lesser { self.new ≡ lesser self.old finding }

        // If this was the least of any findings so far, it is now the least of those and this one.
        ensures least { (fs : List FindingOf) → IsLeast fs self.old → IsLeast (finding ∷ fs) self.new }
    {
        match self.found {
            None => self.found = Some(finding),
            Some(other) => {
                if is_before(finding, other) {
                    self.found = Some(finding);
                }
            }
        }
    }

    /// Returns the least finding that was added, or none.
    #[tactic(auto, using(crate::proofs::Findings::least_only, crate::proofs::Findings::fold_least))]
    pub fn get(self) -> Option<Finding>
        ensures held { result ≡ self }

        // Findings have one least, in whatever order they are added, and it is the one that is
        // kept.
        ensures only { (fs gs : List FindingOf) (o : OptionOf FindingOf) → HaveSame fs gs
            → IsLeast fs result → IsLeast gs o → o ≡ result }
        ensures fold { (fs : List FindingOf) → IsLeast (list_found result ++ fs) (least result fs) }
    {
        let Least { found } = self;
        found
    }
}
