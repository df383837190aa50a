//! Branches that are tried before the walk, so that it begins with a good best so far. Which ones these are is free.
ghost use Rattle.std.specs.Prelude.{◌≡◌, ◌<◌, IfOk, IfSome, OnOk, length};
ghost use Rattle.uhura_choice.specs.Branch.{IsBranch, IsPrefix};
ghost use Rattle.uhura_choice.specs.Children.{children};
ghost use Rattle.uhura_veto.specs.State.{State};
ghost use Rattle.uhura_search.specs.Asked.{LearnsSome, LearnsOrStops};
ghost use Rattle.uhura_search.specs.Learning.{IsReady, IsReachedAt, Tries};

use crate::adding::add_stuck;
use crate::incumbent::Incumbent;
use crate::learning::Learning;
use crate::moving::{Moved, move_to};
use crate::shut::is_shut;
use crate::trying::{better, copy_of, value_of};
use std::alloc::{AllocError, Global};
use uhura_choice::{Branch, Pick, Prefix, child, children};
use uhura_conflict::Store;
use uhura_plan::Plan;
use uhura_shows::front_of;
use uhura_veto::Vetoes;

/// How often the best so far is changed at each place.
const ROUNDS: u32 = 4;

/// The best of some branches: one like the answer before, and those that change the best at one place, while that
/// helps. No flow is read, and what is learned is where it is stuck.
pub(crate) fn start(
    learning: &mut Learning,
    alloc: Global,
    plan: &Plan,
    vetoes: &Vetoes,
) -> Result<Option<Incumbent>, AllocError>
    requires { IsReady (record { plan = plan.now; vetoes = vetoes.now }) learning.old }
    ensures reached { let state : State = record { plan = plan.now; vetoes = vetoes.now } in
        IfOk result (λ best. IfSome best (IsReachedAt state)) }
    ensures learns { OnOk result (LearnsSome plan.now.choices learning.old learning.new) }
    ensures stops { LearnsOrStops plan.now.choices learning.old learning.new }
    ensures ready { IsReady (record { plan = plan.now; vetoes = vetoes.now }) learning.new }
{
    let mut best = None;
    let like = follow(
        plan,
        vetoes,
        &learning.store,
        Prefix::empty(),
        &learning.last,
    );
    consider(learning, &mut best, alloc, plan, vetoes, &like)?;
    for _round in 0..ROUNDS {
        if !change_each(learning, &mut best, alloc, plan, vetoes)? {
            return Ok(best);
        }
    }
    Ok(best)
}

/// Tries the branches that differ from the best so far at one place, and tells whether one of them is cheaper.
fn change_each(
    learning: &mut Learning,
    best: &mut Option<Incumbent>,
    alloc: Global,
    plan: &Plan,
    vetoes: &Vetoes,
) -> Result<bool, AllocError>
    requires ready { IsReady (record { plan = plan.now; vetoes = vetoes.now }) learning.old }
    requires reached { let state : State = record { plan = plan.now; vetoes = vetoes.now } in
        IfSome best.old (IsReachedAt state) }
    ensures tries { let state : State = record { plan = plan.now; vetoes = vetoes.now } in
        OnOk result (Tries state learning.old learning.new best.new) }
    ensures stops { LearnsOrStops plan.now.choices learning.old learning.new }
    ensures ready { IsReady (record { plan = plan.now; vetoes = vetoes.now }) learning.new }
{
    let Some(before) = best else {
        return Ok(false);
    };
    let cost = before.cost;
    let branch = copy_of(plan, &before.branch);
    for place in 0..branch.entries().len() {
        change_at(learning, best, alloc, plan, vetoes, &branch, place)?;
    }
    Ok(is_cheaper(best, cost))
}

/// Whether the best so far costs less.
fn is_cheaper(best: &Option<Incumbent>, cost: u128) -> bool {
    match best {
        Some(best) => best.cost < cost,
        None => false,
    }
}

/// Tries the branches with another pick at this place.
fn change_at(
    learning: &mut Learning,
    best: &mut Option<Incumbent>,
    alloc: Global,
    plan: &Plan,
    vetoes: &Vetoes,
    branch: &Branch,
    place: usize,
) -> Result<(), AllocError>
    requires is_branch { IsBranch plan.now.choices branch.now }
    requires place { place < length branch.now }
    requires ready { IsReady (record { plan = plan.now; vetoes = vetoes.now }) learning.old }
    requires reached { let state : State = record { plan = plan.now; vetoes = vetoes.now } in
        IfSome best.old (IsReachedAt state) }
    ensures tries { let state : State = record { plan = plan.now; vetoes = vetoes.now } in
        OnOk result (Tries state learning.old learning.new best.new) }
    ensures stops { LearnsOrStops plan.now.choices learning.old learning.new }
    ensures ready { IsReady (record { plan = plan.now; vetoes = vetoes.now }) learning.new }
{
    let front = front_of(plan, branch, place);
    for index in 0..children(plan, &front) {
        let changed = child(plan, &front, index);
        if has_same_pick(&changed, branch, place) {
            continue;
        }
        let changed = follow(plan, vetoes, &learning.store, changed, branch);
        consider(learning, best, alloc, plan, vetoes, &changed)?;
    }
    Ok(())
}

/// Whether both have the same pick at a place.
fn has_same_pick(one: &Prefix, other: &Prefix, place: usize) -> bool {
    one.entries().get(place) == other.entries().get(place)
}

/// Tries a branch, unless it is shut. It becomes the best so far where its value isn't enough.
fn consider(
    learning: &mut Learning,
    best: &mut Option<Incumbent>,
    alloc: Global,
    plan: &Plan,
    vetoes: &Vetoes,
    branch: &Branch,
) -> Result<(), AllocError>
    requires is_branch { IsBranch plan.now.choices branch.now }
    requires ready { IsReady (record { plan = plan.now; vetoes = vetoes.now }) learning.old }
    requires reached { let state : State = record { plan = plan.now; vetoes = vetoes.now } in
        IfSome best.old (IsReachedAt state) }
    ensures tries { let state : State = record { plan = plan.now; vetoes = vetoes.now } in
        OnOk result (Tries state learning.old learning.new best.new) }
    ensures stops { LearnsOrStops plan.now.choices learning.old learning.new }
    ensures ready { IsReady (record { plan = plan.now; vetoes = vetoes.now }) learning.new }
{
    if is_shut(plan, vetoes, &learning.store, best, branch) {
        return Ok(());
    }
    let places = learning.places.as_slice();
    match move_to(&mut learning.flow, &learning.table, places, plan, branch) {
        Moved::Stuck => add_stuck(learning, alloc, plan, branch),
        Moved::Holds => {
            better(best, plan, branch, value_of(&learning.flow));
            Ok(())
        }
    }
}

/// A branch with this prefix that has the picks of another where it can, and else the cheapest. Where it is shut, what
/// is shut is avoided from pick to pick, where another isn't.
fn follow(plan: &Plan, vetoes: &Vetoes, store: &Store, prefix: Prefix, other: &Prefix) -> Branch
    requires { IsPrefix plan.now.choices prefix }
    ensures { IsBranch plan.now.choices result }
{
    let start = front_of(plan, &prefix, prefix.entries().len());
    let wished = follow_wishes(plan, start, other);
    if !is_shut(plan, vetoes, store, &None, &wished) {
        return wished;
    }
    follow_open(plan, vetoes, store, prefix, other)
}

/// The branch with this prefix that has the picks of another where it can, and else the cheapest.
fn follow_wishes(plan: &Plan, mut prefix: Prefix, other: &Prefix) -> Branch
    requires { IsPrefix plan.now.choices prefix }
    ensures { IsBranch plan.now.choices result }
{
    for place in prefix.entries().len() as u32..plan.choices() {
        let count = children(plan, &prefix);
        let wish = wish_at(plan, other, place, count);
        prefix = child(plan, &prefix, wish);
    }
    prefix
}

/// A branch with this prefix that has the wished picks but those that are shut, where another isn't.
fn follow_open(
    plan: &Plan,
    vetoes: &Vetoes,
    store: &Store,
    mut prefix: Prefix,
    other: &Prefix,
) -> Branch
    requires { IsPrefix plan.now.choices prefix }
    ensures { IsBranch plan.now.choices result }
{
    for place in prefix.entries().len() as u32..plan.choices() {
        let count = children(plan, &prefix);
        let wish = wish_at(plan, other, place, count);
        let index = open_child(plan, vetoes, store, &prefix, wish, count);
        prefix = child(plan, &prefix, index);
    }
    prefix
}

/// Which of so many alternatives is wished at a place: that of the other picks, or else the first of the cheapest.
fn wish_at(plan: &Plan, other: &Prefix, place: u32, count: u32) -> u32
    requires { 0 < count }
    ensures { result < count }
{
    match other.entries().get(place as usize) {
        Some(Pick::Alternative(index)) if *index < count => *index,
        _ => cheapest(plan, place, count),
    }
}

/// The first of the cheapest of the first alternatives of a choice.
fn cheapest(plan: &Plan, place: u32, count: u32) -> u32
    requires { 0 < count }
    ensures { result < count }
{
    let Some(choice) = plan.choice(place) else {
        return 0;
    };
    let mut best = 0;
    let mut least = u32::MAX;
    for index in 0..count {
        if let Some((_, cost)) = choice.alternatives.as_slice().get(index as usize) {
            if *cost < least {
                best = index;
                least = *cost;
            }
        }
    }
    best
}

/// The wished child of a prefix, or, where it is shut, the first that isn't, if there is one.
fn open_child(
    plan: &Plan,
    vetoes: &Vetoes,
    store: &Store,
    prefix: &Prefix,
    wish: u32,
    count: u32,
) -> u32
    requires prefix { IsPrefix plan.now.choices prefix.now }
    requires count { count ≡ length (children plan.now.choices prefix.now) }
    requires wish { wish < count }
    ensures { result < count }
{
    // By its type the plan is sound.
    let _ = plan.choices();
    if !is_shut(plan, vetoes, store, &None, &child(plan, prefix, wish)) {
        return wish;
    }
    for index in 0..count {
        if !is_shut(plan, vetoes, store, &None, &child(plan, prefix, index)) {
            return index;
        }
    }
    wish
}
