//! Narrowing the gaps between potentials.
ghost use Rattle.std.specs.Prelude.{◌≡◌, ◌+◌, ◌<◌, ℕ, ◌^◌, ◌||◌, false, ℤ, pos, ◌+ℤ◌, ◌-ℤ◌, ◌≤ℤ◌, ◌<ℤ◌, length, slice_index_or, List, IfSome, IsTrue};
ghost use Rattle.uhura_net.specs.Edges.{time_at};
ghost use Rattle.uhura_net.specs.Circulation.{edges_of};
ghost use Rattle.uhura_net.specs.Net.{IsNetEdge};
ghost use Rattle.uhura_flow.specs.Flow.{AreWithin};
ghost use Rattle.uhura_flow.specs.Reading.{touches};
ghost use Rattle.uhura_flow.specs.Narrowed.{wide, AreNarrowed, AreMarked, AreCleared, IsLeast, IsLeastAbove, IsGapNarrowed, lowered_to, AreLowered, HasEdge};

use uhura_net::{Edge, NODES, Net, PLACES, Place};

/// No gap that is wider than this has to stay: no bound passes it.
pub(crate) const WIDE: i64 = 2_000_000_000;

/// Sets the potentials of nodes that no edge touches to 0, and narrows each gap between those of the others, and from
/// 0 to the least, that is wider than `WIDE` to that. The work is the square of the number of nodes.
pub(crate) fn narrow(net: &Net, potentials: &mut [i64], touched: &mut [bool])
    requires nodes { length potentials.old ≡ NODES }
    requires within { AreWithin (2 ^ 60) (time_at potentials.old) }
    requires touched { length touched.old ≡ NODES }
    ensures narrowed { AreNarrowed (edges_of net.now.edges) potentials.old potentials.new }
    ensures touched { length touched.new ≡ NODES }
{
    mark_touched(net, touched);
    clear_others(touched, potentials);
    let mut level = 0;
    for _round in 0..NODES {
        let Some(least) = least_above(potentials, level) else {
            return;
        };
        level = narrow_gap(potentials, level, least);
    }
}

/// Marks the nodes that an edge touches, and no others.
fn mark_touched(net: &Net, touched: &mut [bool])
    requires { length touched.old ≡ NODES }
    ensures { AreMarked PLACES (edges_of net.now.edges) touched.new }
{
    touched.fill(false);
    for number in 0..PLACES {
        mark_nodes(net.edge(Place(number as u32)), touched);
    }
}

/// Marks the nodes of an edge.
fn mark_nodes(edge: Option<Edge>, touched: &mut [bool])
    requires nodes { length touched.old ≡ NODES }
    requires edge { IfSome edge IsNetEdge }
    ensures nodes { length touched.new ≡ NODES }
    ensures each { (node : ℕ) → slice_index_or touched.new node false ≡
        slice_index_or touched.old node false || touches edge node }
{
    if let Some(edge) = edge {
        touched[edge.from as usize] = true;
        touched[edge.to as usize] = true;
    }
}

/// Sets the potentials of nodes that aren't marked to 0.
fn clear_others(touched: &[bool], potentials: &mut [i64])
    requires { length touched.now ≡ length potentials.old }
    ensures { AreCleared touched.now potentials.old potentials.new }
{
    for (node, potential) in potentials.iter_mut().enumerate() {
        if !touched[node] {
            *potential = 0;
        }
    }
}

/// The least potential above a level.
fn least_above(potentials: &[i64], level: i64) -> Option<i64>
    ensures { IsLeast (length potentials.now) level potentials.now result }
{
    let mut least = None;
    for potential in potentials {
        least = lesser(least, *potential, level);
    }
    least
}

/// The least of some potentials above a level, where one more joins them.
fn lesser(least: Option<i64>, potential: i64, level: i64) -> Option<i64>
    ensures { (count : ℕ) (potentials : List ℤ) → time_at potentials count ≡ potential →
        IsLeast count level potentials least → IsLeast (count + 1) level potentials result }
{
    if potential <= level {
        return least;
    }
    match least {
        Some(other) if other <= potential => least,
        _ => Some(potential),
    }
}

/// Narrows the gap from a level to the least potential above it, where it is wider than `WIDE`, and gives the level
/// where it ends then.
fn narrow_gap(potentials: &mut [i64], level: i64, least: i64) -> i64
    requires level { pos 0 ≤ℤ level }
    requires small { least <ℤ pos (2 ^ 61) }
    requires least { IsLeastAbove (length potentials.old) level potentials.old least }
    ensures { IsGapNarrowed level least potentials.old potentials.new result }
{
    let next = level_above(level);
    if least <= next {
        return least;
    }
    lower(potentials, level, difference(least, next));
    next
}

/// Where a wide gap above a level ends.
fn level_above(level: i64) -> i64
    requires { level <ℤ pos (2 ^ 61) }
    ensures { result ≡ level +ℤ pos wide }
{
    level + WIDE
}

/// By how much a number is above another one.
fn difference(a: i64, b: i64) -> i64
    requires b { pos 0 ≤ℤ b }
    requires a { b ≤ℤ a }
    ensures { result ≡ a -ℤ b }
{
    a - b
}

/// Lowers the potentials above a level.
fn lower(potentials: &mut [i64], level: i64, by: i64)
    requires by { pos 0 ≤ℤ by }
    requires level { pos 0 ≤ℤ level }
    ensures { AreLowered level by potentials.old potentials.new }
{
    for potential in potentials.iter_mut() {
        *potential = lowered(*potential, level, by);
    }
}

/// A potential, lowered where it is above a level.
fn lowered(potential: i64, level: i64, by: i64) -> i64
    requires by { pos 0 ≤ℤ by }
    requires level { pos 0 ≤ℤ level }
    ensures { result ≡ lowered_to level by potential }
{
    if potential > level {
        potential - by
    } else {
        potential
    }
}

/// Whether there is an edge.
pub(crate) fn has_edge(net: &Net) -> bool
    ensures { IsTrue result → HasEdge (edges_of net.now.edges) }
{
    for number in 0..PLACES {
        if net.edge(Place(number as u32)).is_some() {
            return true;
        }
    }
    false
}
