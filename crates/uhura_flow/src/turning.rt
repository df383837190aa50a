//! One turn of units through a place.
ghost use Rattle.std.specs.Prelude.{◌≡◌, ◌+◌, ◌<◌, ◌≤◌, true, false, pos, neg_ℤ, IsFalse, IsTrue};
ghost use Rattle.uhura_net.specs.declared.edge.TheConstants.{FIRM_CAPACITY};
ghost use Rattle.uhura_net.specs.Edges.{time_at};
ghost use Rattle.uhura_net.specs.Circulation.{units_of};
ghost use Rattle.uhura_net.specs.Optimal.{slack_of};
ghost use Rattle.uhura_path.specs.Ways.{ArePotentials};
ghost use Rattle.uhura_flow.specs.Turns.{IsHeld, walk_start, walk_end, IsTurn};

use crate::Through;
use crate::potentials::Potentials;
use crate::room::Room;
use crate::sending::send;
use uhura_net::{Net, Place};
use uhura_path::{NO_CAP, Task, Ways, search};

/// Looks for a path that closes a cycle with a place, of which the cost is below a cap, raises the potentials by the
/// distances and sends units around, `most` of them at most. The place's capacity stands at its units before and
/// after. It says whether units were sent: where none were, the potentials were raised by the cap.
pub(crate) fn turn(
    net: &mut Net,
    potentials: &mut Potentials,
    room: &mut Room,
    through: Through,
    cap: u64,
    most: u64,
) -> bool
    requires held { IsHeld net.old potentials.old through.place.0 through.edge }
    requires potentials { ArePotentials potentials.old }
    requires cap { cap ≤ NO_CAP }
    requires most { 1 ≤ most }
    requires forth { IsFalse through.back →
        pos cap ≡ neg_ℤ (slack_of (time_at potentials.old) through.edge) }
    requires forth_room { IsFalse through.back →
        units_of net.old.units through.place.0 + most ≤ FIRM_CAPACITY }
    requires back { IsTrue through.back → most ≤ units_of net.old.units through.place.0 }
    ensures { IsTurn net.old potentials.old net.new potentials.new through cap most result }
{
    let task = task_of(through, cap);
    let found = search(
        net,
        Ways::Residual,
        potentials.values(),
        task,
        &mut room.scratch,
    );
    potentials.lift(&found);
    match found.path {
        Some(path) => {
            let amount = lesser_of(path.least, most);
            send(
                net,
                through,
                path.places,
                path.backward,
                amount,
                &mut room.round,
            );
            true
        }
        None => false,
    }
}

/// The search for a path that closes a cycle with a place.
fn task_of(through: Through, cap: u64) -> Task
    ensures { result ≡ record {
      root = walk_end through.edge through.back;
      goal = walk_start through.edge through.back;
      cap = cap;
    } }
{
    let edge = through.edge;
    if through.back {
        Task {
            root: edge.to,
            goal: edge.from,
            cap,
        }
    } else {
        Task {
            root: edge.from,
            goal: edge.to,
            cap,
        }
    }
}

/// The lesser of two numbers.
fn lesser_of(a: u64, b: u64) -> u64
    ensures first { result ≤ a }
    ensures second { result ≤ b }
    ensures either { 1 ≤ a → 1 ≤ b → 1 ≤ result }
{
    if a < b { a } else { b }
}
