//! The shared entries of a document, each worked out once, however many leaves use it.
ghost use Rattle.std.specs.Prelude.{◌≡◌, ◌+◌, length, IfOk};
ghost use Rattle.uhura_plan.specs.Lists.{Lists};
ghost use Rattle.uhura_veto.specs.State.{State};
ghost use Rattle.uhura_worst.specs.Filled.{IsTableOf};
ghost use Rattle.uhura_cert.specs.Document.{IsDocument};
ghost use Rattle.uhura_cert.specs.Items.{shared_items, to_shared};
ghost use Rattle.uhura_check.specs.Entries.{HasPlaces, IsWorkedOf, AreWorkedOf, AreEntriesOf};
ghost use Rattle.uhura_check.specs.Failure.{told};
ghost use Rattle.uhura_check.specs.Table.{line_behind};

use crate::balance::Scratch;
use crate::flow::{Flow, flow_of};
use crate::lines::{line_after, shared_line};
use crate::parts::state_of;
use crate::walk::is_negative_walk;
use std::alloc::{AllocError, Global};
use uhura_cert::{Document, Shared};
use uhura_command::State;
use uhura_net::EdgeTable;
use uhura_worst::fill;

/// What an entry comes to: its units, or whether its edges make a closed walk, none of them loose, that sums below 0.
#[derive(Clone, Copy, Debug)]
pub enum Worked {
    Flow(Flow),
    Stuck(bool),
}

/// What an entry comes to, and its line as it is told.
#[derive(Clone, Copy, Debug)]
pub struct Entry {
    pub line: u32,
    pub worked: Worked,
}

/// The edges of a document's state, its shared entries, and the line of its first leaf as it is told.
#[derive(Drop)]
pub struct Entries {
    pub table: EdgeTable,
    pub entries: Vec<Entry>,
    pub leaves_line: u32,
}

/// The edges and the shared entries of a document. It takes time in the document's size.
pub(crate) fn entries_of(alloc: Global, document: &Document) -> Result<Entries, AllocError>
    ensures { IfOk result (AreEntriesOf document.now) }
{
    let table = table_of(alloc.clone()?, state_of(document))?;
    let (entries, leaves_line) = work_all(alloc, &table, document)?;
    Ok(Entries {
        table,
        entries,
        leaves_line,
    })
}

/// A table of the edges of a state.
fn table_of(alloc: Global, state: &State) -> Result<EdgeTable, AllocError>
    ensures { IfOk result (IsTableOf state.now) }
{
    let mut table = EdgeTable::new(alloc)?;
    fill(&mut table, &state.plan, &state.vetoes);
    Ok(table)
}

/// What each entry comes to, and the line behind the last as it is told.
fn work_all(
    alloc: Global,
    table: &EdgeTable,
    document: &Document,
) -> Result<(Vec<Entry>, u32), AllocError>
    requires { IsTableOf document.now.state table.now }
    ensures entries { IfOk result (λ all.
        AreWorkedOf document.now (length document.now.shared) all.0.items) }
    ensures line { IfOk result (λ all. all.1 ≡ told (line_behind (to_shared document.now))) }
{
    let mut scratch = Scratch::new(alloc.clone()?)?;
    let mut entries = Vec::new(alloc);
    let mut line = shared_line(document);
    let shared = shared_of(document);
    for place in 0..shared.len() {
        let worked = work(table, &mut scratch, &shared[place]);
        entries.push(Entry { line, worked })?;
        line = line_after(line_after(line, 1), edge_lines(&shared[place]));
    }
    Ok((entries, line))
}

/// The shared entries of a document.
pub(crate) fn shared_of(document: &Document) -> &[Shared]
    ensures shared { result.now ≡ document.now.shared }
    ensures fits { IsDocument document.now }
{
    document.shared.as_slice()
}

/// What an entry comes to.
fn work(table: &EdgeTable, scratch: &mut Scratch, given: &Shared) -> Worked
    requires { HasPlaces given.now }
    ensures { (state : State) → IsTableOf state table.now → IsWorkedOf state given.now result }
{
    match given {
        Shared::Flow(edges) => Worked::Flow(flow_of(table, scratch, edges.as_slice())),
        Shared::Stuck(edges) => Worked::Stuck(is_negative_walk(table, edges.as_slice())),
    }
}

/// How many lines of edges an entry has.
fn edge_lines(given: &Shared) -> usize
    ensures { (plan : Lists) → result + 1 ≡ length (shared_items plan given.now) }
{
    match given {
        Shared::Flow(edges) => edges.as_slice().len(),
        Shared::Stuck(edges) => edges.as_slice().len(),
    }
}
