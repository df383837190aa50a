//! What fails first among the conditions on the reason of a leaf.
ghost use Rattle.std.specs.Prelude.{◌≡◌, ℕ, ◌<◌, All, length, IfSome};
ghost use Rattle.std.specs.Bool.{Decides};
ghost use Rattle.uhura_choice.specs.Branch.{IsBranch, IsPrefix};
ghost use Rattle.uhura_net.specs.Place.{HasPlace};
ghost use Rattle.uhura_worst.specs.Filled.{IsTableOf};
ghost use Rattle.uhura_shows.specs.Carried.{IsNegativeKeyedWalk};
ghost use Rattle.uhura_shows.specs.Leaf as leaf;
ghost use Rattle.uhura_shows.specs.Shows.{Answer, IsStuckBy};
ghost use Rattle.uhura_cert.specs.declared.document.Reason.TheVariants as reason;
ghost use Rattle.uhura_cert.specs.Document.{IsReasonOf, MayStand};
ghost use Rattle.uhura_cert.specs.Order.{place_in};
ghost use Rattle.uhura_check.specs.Confirmed.{entry_reason, reason_of};
ghost use Rattle.uhura_check.specs.Edges.{AreFew};
ghost use Rattle.uhura_check.specs.Entries.{IsFlowOf, IsWorkedOf, AreEntriesOf};
ghost use Rattle.uhura_check.specs.Table.{entry_line, head_line, reason_asks};
ghost use Rattle.uhura_check.specs.Failure.{told, Tells};

use crate::Code;
use crate::active::are_active;
use crate::balance::Scratch;
use crate::denied::is_denied_by;
use crate::enough::is_enough;
use crate::entries::{Entries, Entry, Worked, shared_of};
use crate::failure::Failure;
use crate::flow::{Flow, flow_of};
use crate::lines::line_after;
use crate::parts::state_of;
use crate::units::first_not_carried;
use crate::walk::is_negative_walk;
use uhura_cert::{Document, Reason, Shared};
use uhura_choice::{Branch, Prefix};
use uhura_command::State;
use uhura_net::EdgeTable;
use uhura_plan::EdgeKey;

/// What the reason of a leaf with this prefix fails first, where it stands in its own line. What the shared entries
/// of the document come to is known.
pub(crate) fn reason_failure(
    document: &Document,
    entries: &Entries,
    scratch: &mut Scratch,
    answer: &Option<(Branch, u128)>,
    prefix: &Prefix,
    reason: &Reason,
    own: u32,
) -> Option<Failure>
    requires entries { AreEntriesOf document.now entries.now }
    requires prefix { IsPrefix document.now.state.plan.choices prefix.now }
    requires answer { IfSome answer.now (λ a. IsBranch document.now.state.plan.choices a.0) }
    requires fits { IsReasonOf (place_in document.now.state.plan) document.now.state reason.now }
    requires stands { MayStand document.now.version (length document.now.shared) reason.now }
    ensures { (line : ℕ) → own ≡ told line → Tells document.now.state answer.now
        (reason_asks prefix.now line (head_line document.now line reason.now)
        (reason_of document.now.shared reason.now)) result }
{
    let state = state_of(document);
    let table = &entries.table;
    match reason {
        Reason::Denied(veto) => denied_failure(state, prefix, *veto, own),
        Reason::Flow(edges) => {
            own_flow_failure(state, table, scratch, answer, prefix, edges.as_slice(), own)
        }
        Reason::Stuck(edges) => own_walk_failure(state, table, prefix, edges.as_slice(), own),
        Reason::Entry(entry) => used_failure(document, entries, answer, prefix, *entry, own),
    }
}

/// What units on edges that stand behind the reason's own line fail first.
fn own_flow_failure(
    state: &State,
    table: &EdgeTable,
    scratch: &mut Scratch,
    answer: &Option<(Branch, u128)>,
    prefix: &Prefix,
    pairs: &[(EdgeKey, u64)],
    own: u32,
) -> Option<Failure>
    requires table { IsTableOf state.now table.now }
    requires pairs { AreFew pairs.now }
    requires prefix { IsPrefix state.now.plan.choices prefix.now }
    requires answer { IfSome answer.now (λ a. IsBranch state.now.plan.choices a.0) }
    ensures { (line : ℕ) → own ≡ told line →
        Tells state.now answer.now (reason_asks prefix.now line line (leaf.Flow pairs.now)) result }
{
    let flow = flow_of(table, scratch, pairs);
    flow_failure(state, answer, prefix, pairs, flow, own, own)
}

/// That edges that stand behind the reason's own line don't show a clash in the prefix, where they don't.
fn own_walk_failure(
    state: &State,
    table: &EdgeTable,
    prefix: &Prefix,
    keys: &[EdgeKey],
    own: u32,
) -> Option<Failure>
    requires table { IsTableOf state.now table.now }
    requires keys { All HasPlace keys.now }
    ensures { (answer : Answer) (line head : ℕ) → own ≡ told line →
        Tells state.now answer (reason_asks prefix.now line head (leaf.Stuck keys.now)) result }
{
    let negative = is_negative_walk(table, keys);
    stuck_failure(state, prefix, keys, negative, own)
}

/// What the use of an entry fails first.
fn used_failure(
    document: &Document,
    entries: &Entries,
    answer: &Option<(Branch, u128)>,
    prefix: &Prefix,
    entry: u32,
    own: u32,
) -> Option<Failure>
    requires entries { AreEntriesOf document.now entries.now }
    requires prefix { IsPrefix document.now.state.plan.choices prefix.now }
    requires answer { IfSome answer.now (λ a. IsBranch document.now.state.plan.choices a.0) }
    requires there { entry < length document.now.shared }
    ensures { (line : ℕ) → own ≡ told line → Tells document.now.state answer.now
        (reason_asks prefix.now line (entry_line document.now entry)
        (reason_of document.now.shared (reason.Entry entry))) result }
{
    let place = entry as usize;
    let given = &shared_of(document)[place];
    let worked = entries.entries.as_slice()[place];
    entry_failure(state_of(document), answer, prefix, given, worked, own)
}

/// That the veto in a place isn't a denial of the prefix, where it isn't.
fn denied_failure(state: &State, prefix: &Prefix, veto: u32, own: u32) -> Option<Failure>
    ensures { (answer : Answer) (line head : ℕ) → own ≡ told line →
        Tells state.now answer (reason_asks prefix.now line head (leaf.Denied veto)) result }
{
    if is_denied_by(state, prefix, veto) {
        None
    } else {
        Some(Failure {
            code: Code::LeafDenied,
            line: own,
        })
    }
}

/// That the edges don't show a clash in the prefix, where they don't.
fn stuck_failure(
    state: &State,
    prefix: &Prefix,
    keys: &[EdgeKey],
    negative: bool,
    own: u32,
) -> Option<Failure>
    requires { Decides negative (IsNegativeKeyedWalk state.now keys.now) }
    ensures { (answer : Answer) (line head : ℕ) → own ≡ told line →
        Tells state.now answer (reason_asks prefix.now line head (leaf.Stuck keys.now)) result }
{
    if is_stuck_by(state, prefix, keys, negative) {
        None
    } else {
        Some(Failure {
            code: Code::LeafStuck,
            line: own,
        })
    }
}

/// Whether the edges show a clash in the prefix, where it is known whether they do so wherever they are active.
fn is_stuck_by(state: &State, prefix: &Prefix, keys: &[EdgeKey], negative: bool) -> bool
    requires { Decides negative (IsNegativeKeyedWalk state.now keys.now) }
    ensures { Decides result (IsStuckBy state.now prefix.now keys.now) }
{
    negative && are_active(&state.plan, prefix, keys)
}

/// What units on edges fail first: an edge that may not carry its units, behind the line `head`, their balance at
/// that line, or what they show at the line of the reason.
fn flow_failure(
    state: &State,
    answer: &Option<(Branch, u128)>,
    prefix: &Prefix,
    pairs: &[(EdgeKey, u64)],
    flow: Flow,
    head: u32,
    own: u32,
) -> Option<Failure>
    requires flow { IsFlowOf state.now pairs.now flow }
    requires prefix { IsPrefix state.now.plan.choices prefix.now }
    requires answer { IfSome answer.now (λ a. IsBranch state.now.plan.choices a.0) }
    ensures { (line first : ℕ) → own ≡ told line → head ≡ told first →
        Tells state.now answer.now
        (reason_asks prefix.now line first (leaf.Flow pairs.now)) result }
{
    if let Some(place) = first_not_carried(state, prefix, pairs, flow.uncarried) {
        return Some(Failure {
            code: Code::LeafUnits,
            line: line_after(line_after(head, 1), place),
        });
    }
    if !flow.balanced {
        return Some(Failure {
            code: Code::LeafBalance,
            line: head,
        });
    }
    if is_enough(state, answer, prefix, flow.value) {
        None
    } else {
        Some(Failure {
            code: Code::LeafValue,
            line: own,
        })
    }
}

/// What a shared entry fails first at a leaf with this prefix that uses it in its own line.
fn entry_failure(
    state: &State,
    answer: &Option<(Branch, u128)>,
    prefix: &Prefix,
    given: &Shared,
    entry: Entry,
    own: u32,
) -> Option<Failure>
    requires worked { IsWorkedOf state.now given.now entry.worked }
    requires prefix { IsPrefix state.now.plan.choices prefix.now }
    requires answer { IfSome answer.now (λ a. IsBranch state.now.plan.choices a.0) }
    ensures { (line first : ℕ) → own ≡ told line → entry.line ≡ told first →
        Tells state.now answer.now
        (reason_asks prefix.now line first (entry_reason given.now)) result }
{
    let head = entry.line;
    match (given, entry.worked) {
        (Shared::Flow(edges), Worked::Flow(flow)) => {
            flow_failure(state, answer, prefix, edges.as_slice(), flow, head, own)
        }
        (Shared::Stuck(edges), Worked::Stuck(negative)) => {
            stuck_failure(state, prefix, edges.as_slice(), negative, own)
        }
        (Shared::Flow(_), Worked::Stuck(_)) => unreachable!(),
        (Shared::Stuck(_), Worked::Flow(_)) => unreachable!(),
    }
}
