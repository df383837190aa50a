//! Forty edits on one flow.
ghost use Rattle.std.specs.Prelude.{◌<◌};
ghost use Rattle.uhura_flow.specs.Flow.{IsFlowEdge};

use crate::edges::{NEAR, edge_for, is_loose};
use std::alloc::{AllocError, Global};
use uhura_flow::{Flow, Settled};
use uhura_net::{Edge, Place};

/// What came of an edit.
#[derive(Clone, Copy)]
enum Edited {
    Inserted,
    Removed,
    Rebounded,
    Repriced,
    Stuck,
}

/// After each edit the flow is worth what a new flow of the same edges is, and there were at most as many pushes as
/// units of the edited place came or went.
#[test]
fn keeps_the_optimum(rt: HostRuntime) -> Result<(), AllocError> {
    assert!(rt; keeps_optimum(rt.alloc())?);
    Ok(())
}

fn keeps_optimum(alloc: Global) -> Result<bool, AllocError> {
    is_kept(alloc, &mut Flow::new(alloc)?)
}

/// Edits a new flow forty times, in each way at least once, and says whether each edit kept the optimum.
fn is_kept(alloc: Global, flow: &mut Flow) -> Result<bool, AllocError> {
    let mut number = 1;
    let mut seen = [false; 5];
    let mut always = true;
    for _ in 0..40 {
        number = drawn(number);
        let (edited, kept) = edit_once(alloc, flow, number)?;
        seen[edited as usize] = true;
        always = always && kept;
    }
    Ok(always && seen == [true; 5] && flow.pushes() > 0 && flow.value() > 0)
}

/// Edits as the number says, and says what came of it and whether that kept the optimum.
fn edit_once(alloc: Global, flow: &mut Flow, number: u32) -> Result<(Edited, bool), AllocError> {
    let place = Place(number % NEAR);
    let (units, pushes) = (flow.units(place), flow.pushes());
    let edited = edit(flow, place, number / NEAR);
    let moved = units.abs_diff(flow.units(place));
    let is_little = pushes <= flow.pushes() && flow.pushes() - pushes <= moved;
    let value = value_of_the_same(alloc, flow)?;
    Ok((edited, is_little && flow.value() == value))
}

/// A number that looks drawn, from the last one.
fn drawn(last: u32) -> u32 {
    (48_271 * u64::from(last) % 2_147_483_647) as u32
}

/// Edits the place as the number says.
fn edit(flow: &mut Flow, place: Place, number: u32) -> Edited
    requires { place.0 < NEAR }
{
    let edge = drawn_edge(place, number);
    if flow.edge(place).is_none() {
        return match flow.insert(place, edge) {
            Settled::Optimal => Edited::Inserted,
            Settled::Stuck => Edited::Stuck,
        };
    }
    match number % 5 {
        0 => {
            flow.remove(place);
            Edited::Removed
        }
        1 | 2 if is_loose(place) => {
            flow.reprice(place, edge.capacity);
            Edited::Repriced
        }
        _ => match flow.rebound(place, edge.bound) {
            Settled::Optimal => Edited::Rebounded,
            Settled::Stuck => Edited::Stuck,
        },
    }
}

/// An edge for the place, between two of six nodes.
fn drawn_edge(place: Place, number: u32) -> Edge
    requires { place.0 < NEAR }
    ensures { IsFlowEdge place.0 result }
{
    let from = number % 6;
    let to = (from + 1 + number / 6 % 5) % 6;
    let bound = i64::from(number / 30 % 60) - 30;
    edge_for(place, from, to, bound, u64::from(1 + number % 9))
}

/// What a new flow of the same edges is worth.
fn value_of_the_same(alloc: Global, flow: &Flow) -> Result<i128, AllocError> {
    let mut new = Flow::new(alloc)?;
    put_edges(flow, &mut new);
    Ok(new.value())
}

/// Puts the edges of a flow into a new one.
fn put_edges(flow: &Flow, new: &mut Flow) {
    for number in 0..NEAR {
        let place = Place(number);
        if let Some(edge) = flow.edge(place)
            && new.edge(place).is_none()
        {
            new.insert(place, edge);
        }
    }
}
