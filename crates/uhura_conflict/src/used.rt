//! The places that have units.
ghost use Rattle.std.specs.Prelude.{◌+◌, ◌<◌, IfOk, OnOk};
ghost use Rattle.uhura_flow.specs.Flow.{IsFlow, flow_units};
ghost use Rattle.uhura_net.specs.declared.place.TheConstants.{PLACES};
ghost use Rattle.uhura_conflict.specs.Used.{AreUsedBelow, AreUsedAmong};

use std::alloc::{AllocError, Global};
use uhura_flow::Flow;
use uhura_net::{PLACES, Place};

/// The places with their units above 0, by rising places.
pub(crate) fn used_pairs(alloc: Global, net: &Flow) -> Result<Vec<(Place, u64)>, AllocError>
    ensures pairs { IfOk result (λ pairs. AreUsedBelow (flow_units net.now) pairs.items PLACES) }
    ensures sound { IfOk result (λ pairs. IsFlow net.now) }
{
    let mut pairs = Vec::new(alloc);
    for number in 0..PLACES as u32 {
        add_used(&mut pairs, net, number)?;
    }
    pairs.shrink_to_fit();
    Ok(pairs)
}

/// The same, where the places with units are all among these, which rise. No others are looked at.
pub(crate) fn used_among(
    alloc: Global,
    net: &Flow,
    places: &[u32],
) -> Result<Vec<(Place, u64)>, AllocError>
    requires { AreUsedAmong (flow_units net.now) places.now }
    ensures pairs { IfOk result (λ pairs. AreUsedBelow (flow_units net.now) pairs.items PLACES) }
    ensures sound { IfOk result (λ pairs. IsFlow net.now) }
{
    // By its type the flow is sound.
    let _ = net.value();
    let mut pairs = Vec::new(alloc);
    for number in places {
        add_used(&mut pairs, net, *number)?;
    }
    pairs.shrink_to_fit();
    Ok(pairs)
}

/// Adds the place to those before it, if it has units.
fn add_used(pairs: &mut Vec<(Place, u64)>, net: &Flow, number: u32) -> Result<(), AllocError>
    requires place { number < PLACES }
    requires before { AreUsedBelow (flow_units net.now) pairs.old.items number }
    ensures pairs { OnOk result
        (AreUsedBelow (flow_units net.now) pairs.new.items (number + 1)) }
    ensures sound { IsFlow net.now }
{
    let units = net.units(Place(number));
    if units > 0 {
        pairs.push((Place(number), units))?;
    }
    Ok(())
}
