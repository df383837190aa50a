//! The definitions tried on worked documents: each contract is a fact about one of the documents of
//! `specs/Examples.antt`, and the bodies are empty.
ghost use Rattle.std.specs.Prelude.{◌≡◌, [], ◌∷◌};
ghost use Rattle.uhura_check.specs.declared.refusal.Code.TheVariants as code;
ghost use Rattle.uhura_check.specs.Confirmed.{Confirmed};
ghost use Rattle.uhura_check.specs.Table.{IsFirstFailure};
ghost use Rattle.uhura_check.specs.Examples.{document_with, shared_with, codes_and_lines};

/// What is asked of a document with a leaf for each of two branches, in order, each at its line.
pub fn conditions_have_their_lines()
    ensures { codes_and_lines (document_with 5 1 1) ≡ (code.Pick, 8) ∷ (code.Cost, 8)
        ∷ (code.Broken, 5) ∷ (code.Broken, 6)
        ∷ (code.LeafOrder, 13) ∷ (code.LeafBalance, 14) ∷ (code.LeafValue, 14)
        ∷ (code.LeafOrder, 15) ∷ (code.LeafUnits, 17) ∷ (code.LeafUnits, 18)
        ∷ (code.LeafBalance, 16) ∷ (code.LeafValue, 16) ∷ (code.LeafMissing, 19) ∷ [] }
{}

/// Where leaves use shared entries, the units and the balance are told at the lines of the entry, and the value at
/// that of the use.
pub fn used_entries_have_their_lines()
    ensures { codes_and_lines (shared_with 1 1 0 1) ≡ (code.Pick, 8) ∷ (code.Cost, 8)
        ∷ (code.Broken, 5) ∷ (code.Broken, 6)
        ∷ (code.LeafOrder, 17) ∷ (code.LeafBalance, 13) ∷ (code.LeafValue, 18)
        ∷ (code.LeafOrder, 19) ∷ (code.LeafUnits, 15) ∷ (code.LeafUnits, 16)
        ∷ (code.LeafBalance, 14) ∷ (code.LeafValue, 20) ∷ (code.LeafMissing, 21) ∷ [] }
{}

/// The document is confirmed, with the units in the leaves and in shared entries.
pub fn two_leaves_are_confirmed()
    ensures own { Confirmed (document_with 5 1 1) }
    ensures used { Confirmed (shared_with 1 1 0 1) }
{}

/// A stated cost that is too low is refused at the line of the proposal.
pub fn stated_cost_is_checked()
    ensures { IsFirstFailure (document_with 4 1 1) code.Cost 8 }
{}
