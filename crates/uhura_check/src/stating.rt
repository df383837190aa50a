//! What fails first among the conditions on the proposal.
ghost use Rattle.std.specs.Prelude.{◌≡◌, MatchResult};
ghost use Rattle.uhura_cert.specs.Document.{Document, IsDocument};
ghost use Rattle.uhura_check.specs.Confirmed.{answer_of};
ghost use Rattle.uhura_check.specs.Picks.{IsPickedBy};
ghost use Rattle.uhura_check.specs.Table.{proposal_asks, answer_asks};
ghost use Rattle.uhura_check.specs.Failure.{IsToldFirst, Tells};
ghost use Rattle.uhura_check.specs.Walked.{IsAnswered};

use crate::Code;
use crate::cost::proposal_cost;
use crate::failure::Failure;
use crate::lines::{proposal_line, requirement_line, side_line};
use crate::meeting::first_not_met;
use crate::parts::{answer_of, state_of};
use crate::picks::picked_branch;
use crate::room::first_without_room;
use uhura_cert::{Document, Proposal};
use uhura_choice::Branch;
use uhura_command::State;

/// The branch and the cost that a document states, where it has a proposal, and where that fails a condition, the
/// first that it fails.
pub(crate) fn stated_answer(document: &Document) -> Result<Option<(Branch, u128)>, Failure>
    ensures found { MatchResult result (IsAnswered document.now)
        (IsToldFirst document.now.state (answer_of document.now)
        (answer_asks document.now document.now.answer)) }
    ensures fits { IsDocument document.now }
{
    let Some(proposal) = answer_of(document) else {
        return Ok(None);
    };
    let state = state_of(document);
    let Some(branch) = picked_branch(state, proposal.picks.as_slice()) else {
        return Err(Failure {
            code: Code::Pick,
            line: proposal_line(state),
        });
    };
    match proposal_failure(state, &branch, proposal) {
        Some(failure) => Err(failure),
        None => Ok(Some((branch, proposal.cost))),
    }
}

/// What a proposal with this branch fails first.
fn proposal_failure(state: &State, branch: &Branch, proposal: &Proposal) -> Option<Failure>
    requires { IsPickedBy state.now proposal.now.picks branch.now }
    ensures { (d : Document) → d.state ≡ state.now → Tells d.state (answer_of d)
        (proposal_asks d proposal.now) result }
{
    // By its type the plan is sound.
    let plan = &state.plan;
    let _ = plan.choices();
    let loosening = &proposal.loosening;
    if let Some(place) = first_without_room(state, branch, loosening) {
        let line = side_line(state, proposal.picks.as_slice().len(), place);
        return Some(Failure {
            code: Code::Room,
            line,
        });
    }
    if proposal_cost(plan, branch, loosening) != proposal.cost {
        return Some(Failure {
            code: Code::Cost,
            line: proposal_line(state),
        });
    }
    match first_not_met(plan, branch, loosening, proposal.times.as_slice()) {
        Some(place) => Some(Failure {
            code: Code::Broken,
            line: requirement_line(plan, place),
        }),
        None => None,
    }
}
