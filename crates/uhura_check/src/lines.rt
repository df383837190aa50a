//! The lines at which conditions are told.
ghost use Rattle.std.specs.Prelude.{◌≡◌, ◌+◌, ◌<◌, length, min};
ghost use Rattle.uhura_command.specs.Script.{commands_of};
ghost use Rattle.uhura_plan.specs.Lists.{Lists};
ghost use Rattle.uhura_cert.specs.Document.{IsProposal};
ghost use Rattle.uhura_cert.specs.Items.{proposal_items, to_answer};
ghost use Rattle.uhura_check.specs.Table.{line_behind};
ghost use Rattle.uhura_check.specs.Failure.{told};

use crate::parts::{answer_of, state_of};
use uhura_cert::{Document, Proposal};
use uhura_command::State;
use uhura_plan::Plan;

/// The line of the proposal: behind the version, the script and the question.
pub(crate) fn proposal_line(state: &State) -> u32
    ensures { result ≡ length (commands_of state.now) + 3 }
{
    let plan = &state.plan;
    let script = plan.events()
        + plan.uncertains()
        + plan.choices()
        + plan.requirements()
        + state.vetoes.count();
    script + 3
}

/// The line so many lines behind another, told as the greatest number of a `u32` where it is greater.
pub(crate) fn line_after(line: u32, count: usize) -> u32
    ensures { result ≡ min 4_294_967_295 (line + count) }
{
    u64::from(line)
        .saturating_add(count as u64)
        .min(4_294_967_295) as u32
}

/// The line of a side of the proposal, by its place and the number of the picks before all sides.
pub(crate) fn side_line(state: &State, picks: usize, place: usize) -> u32
    ensures { result ≡ min 4_294_967_295 (length (commands_of state.now) + 3 + 1 + picks + place) }
{
    let first = line_after(proposal_line(state), 1);
    let sides = line_after(first, picks);
    line_after(sides, place)
}

/// The line of the requirement in a place: behind the version, the events, the durations and the choices.
pub(crate) fn requirement_line(plan: &Plan, place: u32) -> u32
    requires { place < length plan.now.requirements }
    ensures { result ≡ 2 + length plan.now.events + length plan.now.uncertains
        + length plan.now.choices + place }
{
    // The counts of a plan are within their limits.
    let _ = plan.requirements();
    2 + plan.events() + plan.uncertains() + plan.choices() + place
}

/// The line behind the answer of a document.
pub(crate) fn shared_line(document: &Document) -> u32
    ensures { result ≡ told (line_behind (to_answer document.now)) }
{
    let first = proposal_line(state_of(document));
    match answer_of(document) {
        Some(proposal) => line_behind_proposal(first, proposal),
        None => line_after(first, 1),
    }
}

/// The line behind a proposal that begins in a line.
fn line_behind_proposal(line: u32, proposal: &Proposal) -> u32
    ensures { (plan : Lists) → IsProposal plan proposal.now →
        result ≡ told (line + length (proposal_items plan proposal.now)) }
{
    let picks = line_after(line_after(line, 1), proposal.picks.as_slice().len());
    let sides = line_after(picks, proposal.loosening.pairs().len());
    let times = line_after(sides, proposal.times.as_slice().len());
    line_after(times, 1)
}
