//! What a confirmed document shows, and that it is one exactly where no condition fails. Each contract is a law over
//! the definitions, and the bodies are empty.
ghost use Rattle.std.specs.Prelude.{◌≡◌, ◌↔◌, ℕ, None, Some};
ghost use Rattle.uhura_worst.specs.Proposal.{Proposal};
ghost use Rattle.uhura_worst.specs.Allowed.{Allowed};
ghost use Rattle.uhura_worst.specs.Best.{IsCheapest, IsFirst};
ghost use Rattle.uhura_cert.specs.declared.document.Proposal.{Proposal as Stated};
ghost use Rattle.uhura_cert.specs.Document.{Document, IsDocument};
ghost use Rattle.uhura_check.specs.Confirmed.{Confirmed, proposal_of};
ghost use Rattle.uhura_check.specs.Table.{NoneFails};

/// Nothing that is allowed, whole or in k-ths, costs less than the proposal of a confirmed document, and nothing that
/// costs the same has an earlier branch.
pub fn confirmed_proposals_are_the_first_of_the_cheapest()
    ensures cheapest { (d : Document) (p : Stated) → IsDocument d → Confirmed d →
        d.answer ≡ Some p → IsCheapest d.state (proposal_of d.state.plan p) }
    ensures first { (d : Document) (p : Stated) → IsDocument d → Confirmed d →
        d.answer ≡ Some p → IsFirst d.state (proposal_of d.state.plan p) }
{}

/// Where a confirmed document has no proposal, nothing is allowed, whole or in k-ths.
pub fn confirmed_none_allows_nothing()
    ensures { (d : Document) (k : ℕ) (q : Proposal) → IsDocument d → Confirmed d →
        d.answer ≡ None → Allowed d.state k q → ⊥ }
{}

/// A document is confirmed exactly where none of its conditions fails.
pub fn confirmed_where_none_fails()
    ensures { (d : Document) → IsDocument d → (Confirmed d ↔ NoneFails d) }
{}
