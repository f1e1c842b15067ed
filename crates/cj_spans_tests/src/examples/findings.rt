//! The least of worked findings: each contract is a theorem.
ghost use Rattle.std.specs.Prelude.{◌≡◌, ◌∷◌, [], Some, None};
ghost use Rattle.cj_spans.specs.declared.reason.Reason.TheVariants.{WrongKind, MissingMember, VertexIndex};
ghost use Rattle.cj_spans.specs.Meaning.Finding.{least, found_at};

/// Of two findings the one at the earlier byte is kept, and at one byte the one with the lesser
/// code.
pub fn least_of_three()
    ensures earlier { least (Some (found_at 5 WrongKind)) (found_at 47 VertexIndex ∷ []) ≡ Some (found_at 5 WrongKind) }
    ensures code { least None (found_at 5 WrongKind ∷ found_at 47 VertexIndex ∷ found_at 5 MissingMember ∷ [])
        ≡ Some (found_at 5 MissingMember) }
    ensures order { least None (found_at 47 VertexIndex ∷ found_at 5 MissingMember ∷ found_at 5 WrongKind ∷ [])
        ≡ Some (found_at 5 MissingMember) }
    ensures none { least None [] ≡ None }
{}
