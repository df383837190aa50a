//! What a command makes of a state.
ghost use Rattle.std.specs.Prelude.{◌≡◌, false, IsTrue, IsFalse, Option, option_map, OnOk, OnErr};
ghost use Rattle.uhura_plan.specs.Find.{requirement_of};
ghost use Rattle.uhura_plan.specs.Changes.{without_requirement};
ghost use Rattle.uhura_veto.specs.Vetoes.{AreVetoesOf};
ghost use Rattle.uhura_line.specs.Reads.{IsCommand, name_of};
ghost use Rattle.uhura_command.specs.Apply.{IsEdit, is_veto, kind_named, Edits, EditsVetoes, Applies};
ghost use Rattle.uhura_command.specs.Apply.{AnswersFirst, SucceedsAlways, IsPassedOn, drop_refusal, refusal_of, takes_memory};

use super::{State, StateRefusal};
use uhura_line::{Command, ItemName};
use uhura_plan::{EditRefusal, Name, Plan};
use uhura_veto::{ItemKind, Vetoes};

impl State {
    /// Makes of the state what the command says, or refuses it and leaves the state as it was. Only a command that
    /// adds something takes memory.
    pub fn apply(&mut self, command: &Command) -> Result<(), StateRefusal>
        requires edit { IsEdit command.now }
        requires command { IsCommand command.now }
        ensures answer { AnswersFirst (refusal_of self.old command.now) result }
        ensures always { SucceedsAlways (takes_memory command.now)
            (refusal_of self.old command.now) result }
        ensures ok { OnOk result (Applies self.old command.now self.new) }
        ensures err { OnErr result (self.new ≡ self.old) }
    {
        if is_veto(command) {
            veto(&self.plan, &mut self.vetoes, command)
        } else {
            // The plan keeps names distinct: no other requirement goes with the one that is dropped.
            let _ = self.plan.requirements();
            edit(&mut self.plan, &self.vetoes, command)
        }
    }
}

/// Whether a command makes or withdraws a veto.
fn is_veto(command: &Command) -> bool
    ensures { result ≡ is_veto command.now }
{
    matches!(
        command,
        Command::Deny { .. } | Command::Cap { .. } | Command::Withdraw { .. }
    )
}

/// Edits the plan as the command says, if the vetoes let it.
fn edit(plan: &mut Plan, vetoes: &Vetoes, command: &Command) -> Result<(), StateRefusal>
    requires edit { IsEdit command.now }
    requires plan { IsFalse (is_veto command.now) }
    requires command { IsCommand command.now }
    ensures answer { AnswersFirst
        (refusal_of (record { plan = plan.old; vetoes = vetoes.now }) command.now) result }
    ensures always { SucceedsAlways (takes_memory command.now)
        (refusal_of (record { plan = plan.old; vetoes = vetoes.now }) command.now) result }
    ensures ok { OnOk result (Edits plan.old command.now plan.new) }
    ensures err { OnErr result (plan.new ≡ plan.old) }
{
    match command {
        Command::Event { name } => pass_on(plan.add_event(*name)),
        Command::Uncertain {
            name,
            start,
            end,
            lower,
            upper,
            lower_rate,
            upper_rate,
        } => pass_on(plan.add_uncertain(
            *name,
            *start,
            *end,
            *lower,
            *upper,
            *lower_rate,
            *upper_rate,
        )),
        Command::Choice {
            name,
            alternatives,
            guard,
        } => pass_on(plan.add_choice(*name, alternatives.as_slice(), guard.as_slice())),
        Command::Require {
            name,
            from,
            to,
            lower,
            upper,
            guard,
        } => pass_on(plan.add_requirement(*name, *from, *to, *lower, *upper, guard.as_slice())),
        Command::Drop { name } => drop_requirement(plan, vetoes, *name),
        Command::Bound { name, side, bound } => pass_on(plan.set_bound(*name, *side, *bound)),
        Command::Price { name, side, price } => pass_on(plan.set_price(*name, *side, *price)),
        Command::Rate { name, side, rate } => pass_on(plan.set_rate(*name, *side, *rate)),
        Command::Range { name, lower, upper } => pass_on(plan.set_range(*name, *lower, *upper)),
        Command::Prefer {
            choice,
            alternative,
            cost,
        } => pass_on(plan.set_preference(*choice, *alternative, *cost)),
        Command::Deny { .. } | Command::Cap { .. } | Command::Withdraw { .. } => unreachable!(),
        Command::Show | Command::Propose | Command::Prove => unreachable!(),
    }
}

/// Takes a requirement out of the plan, unless a cap names it.
fn drop_requirement(plan: &mut Plan, vetoes: &Vetoes, name: Name) -> Result<(), StateRefusal>
    ensures answer { AnswersFirst
        (drop_refusal vetoes.now (requirement_of plan.old name)) result }
    ensures always { SucceedsAlways false
        (drop_refusal vetoes.now (requirement_of plan.old name)) result }
    ensures ok { OnOk result (plan.new ≡ without_requirement name plan.old) }
    ensures err { OnErr result (plan.new ≡ plan.old) }
{
    let Some(slot) = slot_of(plan, name) else {
        return Err(StateRefusal::Unknown);
    };
    if vetoes.names_requirement(slot) {
        return Err(StateRefusal::Held { slot });
    }
    pass_on(plan.drop_requirement(name))
}

/// The slot of the requirement of this name.
fn slot_of(plan: &Plan, name: Name) -> Option<u32>
    ensures { result ≡ option_map (λ r. r.slot) (requirement_of plan.now name) }
{
    let place = plan.find_requirement(name)?;
    let requirement = plan.requirement(place)?;
    Some(requirement.slot)
}

/// Makes or withdraws a veto as the command says.
fn veto(plan: &Plan, vetoes: &mut Vetoes, command: &Command) -> Result<(), StateRefusal>
    requires veto { IsTrue (is_veto command.now) }
    requires command { IsCommand command.now }
    ensures answer { AnswersFirst
        (refusal_of (record { plan = plan.now; vetoes = vetoes.old }) command.now) result }
    ensures always { SucceedsAlways (takes_memory command.now)
        (refusal_of (record { plan = plan.now; vetoes = vetoes.old }) command.now) result }
    ensures ok { OnOk result (EditsVetoes plan.now vetoes.old command.now vetoes.new) }
    ensures err { OnErr result (vetoes.new ≡ vetoes.old) }
    ensures kept { AreVetoesOf plan.now vetoes.old → AreVetoesOf plan.now vetoes.new }
{
    match command {
        Command::Deny { name, literals } => pass_on(vetoes.deny(plan, *name, literals.as_slice())),
        Command::Cap {
            name,
            item,
            side,
            units,
        } => {
            let (kind, item) = kind_and_name(*item);
            pass_on(vetoes.cap(plan, *name, kind, item, *side, *units))
        }
        Command::Withdraw { name } => pass_on(vetoes.withdraw(*name)),
        _ => unreachable!(),
    }
}

/// The kind of the item that a line names, and its name.
fn kind_and_name(item: ItemName) -> (ItemKind, Name)
    ensures { result ≡ (kind_named item, name_of item) }
{
    match item {
        ItemName::Require(name) => (ItemKind::Require, name),
        ItemName::Uncertain(name) => (ItemKind::Uncertain, name),
    }
}

/// The answer of an edit of the plan or of its vetoes, as the state's.
fn pass_on(edited: Result<(), EditRefusal>) -> Result<(), StateRefusal>
    ensures { IsPassedOn edited result }
{
    match edited {
        Ok(()) => Ok(()),
        Err(refusal) => Err(refusal.into()),
    }
}
