//! The canonical script of a state.
ghost use Rattle.std.specs.Prelude.{◌≡◌, ◌++◌, ◌<◌, length, map, flat_map, slice_get, Some, All, IfOk, OnOk, OnErr};
ghost use Rattle.uhura_plan.specs.Sound.{IsEventAmong, IsLiteralAmong, IsSoundRequirement};
ghost use Rattle.uhura_veto.specs.Vetoes.{AreVetoesOf, IsItemOf, IsVetoOf};
ghost use Rattle.uhura_line.specs.declared.command.Command.TheVariants as command;
ghost use Rattle.uhura_command.specs.State.{IsSoundState};
ghost use Rattle.uhura_command.specs.Script.{name_at, event_name, literal_names, guard_names, item_name};
ghost use Rattle.uhura_command.specs.Script.{uncertain_command, choice_command, requirement_command};
ghost use Rattle.uhura_command.specs.Script.{veto_command, command_line, script};

use super::State;
use std::alloc::{AllocError, Global};
use uhura_line::{Command, ItemName, Literals, write_command};
use uhura_plan::{
    Alternatives, Choice, EventRef, Item, Literal, Name, Plan, Requirement, Uncertain,
};
use uhura_veto::{Veto, Vetoes};

impl State {
    /// Appends the canonical script: a line for each controllable event, each duration, each choice,
    /// each requirement and each veto, each list in its order. Read as a script by a new dialogue it
    /// makes the same state up to the slots of requirements.
    pub fn script(&self, out: &mut Vec<u8>) -> Result<(), AllocError>
        ensures sound { IsSoundState self.now }
        ensures ok { OnOk result (out.new.items ≡ out.old.items ++ script self.now) }
        ensures err { OnErr result (out.new.items ≡ out.old.items) }
    {
        // By its type the plan is sound, as the vetoes are.
        let _ = self.plan.events();
        let text = script_text(out.allocator().clone()?, &self.plan, &self.vetoes)?;
        out.extend_from_slice(text.as_slice())
    }
}

/// The canonical script of a plan with vetoes of it.
fn script_text(alloc: Global, plan: &Plan, vetoes: &Vetoes) -> Result<Vec<u8>, AllocError>
    requires { AreVetoesOf plan.now vetoes.now }
    ensures { IfOk result (λ text.
        text.items ≡ script (record { plan = plan.now; vetoes = vetoes.now })) }
{
    let mut text = Vec::new(alloc);
    put_events(plan, &mut text)?;
    put_uncertains(plan, &mut text)?;
    put_choices(plan, &mut text)?;
    put_requirements(plan, &mut text)?;
    put_vetoes(plan, vetoes, &mut text)?;
    Ok(text)
}

/// Appends the lines of the controllable events.
fn put_events(plan: &Plan, text: &mut Vec<u8>) -> Result<(), AllocError>
    ensures { IfOk result (λ _. text.new.items ≡
        text.old.items ++
        flat_map command_line (map (λ name. command.Event name) plan.now.events)) }
{
    for place in 0..plan.events() {
        let name = event_at(plan, place);
        write_command(text, &Command::Event { name })?;
    }
    Ok(())
}

/// Appends the lines of the durations.
fn put_uncertains(plan: &Plan, text: &mut Vec<u8>) -> Result<(), AllocError>
    ensures { IfOk result (λ _. text.new.items ≡
        text.old.items ++
        flat_map command_line (map (uncertain_command plan.now) plan.now.uncertains)) }
{
    for place in 0..plan.uncertains() {
        let uncertain = plan.uncertain(place).unwrap();
        write_command(text, &uncertain_command(plan, uncertain))?;
    }
    Ok(())
}

/// Appends the lines of the choices.
fn put_choices(plan: &Plan, text: &mut Vec<u8>) -> Result<(), AllocError>
    ensures { IfOk result (λ _. text.new.items ≡
        text.old.items ++
        flat_map command_line (map (choice_command plan.now) plan.now.choices)) }
{
    for place in 0..plan.choices() {
        let choice = plan.choice(place).unwrap();
        let command = choice_command(text.allocator().clone()?, plan, choice)?;
        write_command(text, &command)?;
    }
    Ok(())
}

/// Appends the lines of the requirements.
fn put_requirements(plan: &Plan, text: &mut Vec<u8>) -> Result<(), AllocError>
    ensures { IfOk result (λ _. text.new.items ≡
        text.old.items ++
        flat_map command_line (map (requirement_command plan.now) plan.now.requirements)) }
{
    for place in 0..plan.requirements() {
        let requirement = plan.requirement(place).unwrap();
        let command = requirement_command(text.allocator().clone()?, plan, requirement)?;
        write_command(text, &command)?;
    }
    Ok(())
}

/// Appends the lines of the vetoes.
fn put_vetoes(plan: &Plan, vetoes: &Vetoes, text: &mut Vec<u8>) -> Result<(), AllocError>
    requires { AreVetoesOf plan.now vetoes.now }
    ensures { IfOk result (λ _. text.new.items ≡
        text.old.items ++ flat_map command_line (map (veto_command plan.now) vetoes.now)) }
{
    for place in 0..vetoes.count() {
        let veto = vetoes.veto(place).unwrap();
        let command = veto_command(text.allocator().clone()?, plan, veto)?;
        write_command(text, &command)?;
    }
    Ok(())
}

/// The command that adds a duration.
fn uncertain_command(plan: &Plan, uncertain: &Uncertain) -> Command
    requires { uncertain.now.start < length plan.now.events }
    ensures { result ≡ uncertain_command plan.now uncertain.now }
{
    Command::Uncertain {
        name: uncertain.name,
        start: event_at(plan, uncertain.start),
        end: uncertain.end,
        lower: uncertain.lower,
        upper: uncertain.upper,
        lower_rate: uncertain.lower_rate,
        upper_rate: uncertain.upper_rate,
    }
}

/// The command that adds a choice.
fn choice_command(alloc: Global, plan: &Plan, choice: &Choice) -> Result<Command, AllocError>
    requires { All (IsLiteralAmong plan.now.choices) choice.now.guard }
    ensures { IfOk result (λ c. c ≡ choice_command plan.now choice.now) }
{
    let guard = guard_names(alloc, plan, choice.guard.literals())?;
    let alternatives = Vec::from_slice(alloc, choice.alternatives.as_slice())?;
    Ok(Command::Choice {
        name: choice.name,
        alternatives: Alternatives::from_vec(alternatives),
        guard,
    })
}

/// The command that adds a requirement.
fn requirement_command(
    alloc: Global,
    plan: &Plan,
    requirement: &Requirement,
) -> Result<Command, AllocError>
    requires { IsSoundRequirement plan.now requirement.now }
    ensures { IfOk result (λ c. c ≡ requirement_command plan.now requirement.now) }
{
    let guard = guard_names(alloc, plan, requirement.guard.literals())?;
    Ok(Command::Require {
        name: requirement.name,
        from: event_name(plan, requirement.from),
        to: event_name(plan, requirement.to),
        lower: requirement.lower,
        upper: requirement.upper,
        guard,
    })
}

/// The command that makes a veto.
fn veto_command(alloc: Global, plan: &Plan, veto: &Veto) -> Result<Command, AllocError>
    requires { IsVetoOf plan.now veto.now }
    ensures { IfOk result (λ c. c ≡ veto_command plan.now veto.now) }
{
    match veto {
        Veto::Deny { name, literals } => Ok(Command::Deny {
            name: *name,
            literals: guard_names(alloc, plan, literals.literals())?,
        }),
        Veto::Cap { name, key, units } => Ok(Command::Cap {
            name: *name,
            item: item_name(plan, key.item),
            side: key.side,
            units: *units,
        }),
    }
}

/// The name of an item, with its kind.
fn item_name(plan: &Plan, item: Item) -> ItemName
    requires { IsItemOf plan.now item }
    ensures { result ≡ item_name plan.now item }
{
    match item {
        Item::Requirement(slot) => ItemName::Require(plan.requirement_in(slot).unwrap().name),
        Item::Uncertain(place) => ItemName::Uncertain(plan.uncertain(place).unwrap().name),
    }
}

/// The names that spell the literals of a guard or of a denial.
fn guard_names(alloc: Global, plan: &Plan, guard: &[Literal]) -> Result<Literals, AllocError>
    requires { All (IsLiteralAmong plan.now.choices) guard.now }
    ensures { IfOk result (λ names. names ≡ guard_names plan.now.choices guard.now) }
{
    let mut names = Vec::new(alloc);
    for literal in guard {
        names.push(literal_names(plan, *literal))?;
    }
    Ok(Literals::from_vec(names))
}

/// The names that spell a literal: of its choice, and of its alternative there.
fn literal_names(plan: &Plan, literal: Literal) -> (Name, Name)
    requires { IsLiteralAmong plan.now.choices literal }
    ensures { result ≡ literal_names plan.now.choices literal }
{
    let choice = plan.choice(literal.choice).unwrap();
    let alternative = choice.alternatives.as_slice()[literal.alternative as usize];
    (choice.name, alternative.0)
}

/// The name of an event.
fn event_name(plan: &Plan, event: EventRef) -> Name
    requires { IsEventAmong (length plan.now.events) (length plan.now.uncertains) event }
    ensures { result ≡ event_name plan.now event }
{
    match event {
        EventRef::Controllable(place) => event_at(plan, place),
        EventRef::End(place) => plan.uncertain(place).unwrap().end,
    }
}

/// The name of the controllable event at a place.
fn event_at(plan: &Plan, place: u32) -> Name
    requires { place < length plan.now.events }
    ensures there { slice_get plan.now.events place ≡ Some result }
    ensures named { result ≡ name_at plan.now.events place }
{
    plan.event(place).unwrap()
}
