//! A reader of documents, line by line.
ghost use Rattle.std.specs.Prelude.{◌≡◌, true, false, IfOk};
ghost use Rattle.uhura_item.specs.Item.{IsItem};
ghost use Rattle.uhura_cert.specs.Document.{Document};
ghost use Rattle.uhura_cert.specs.Machine.{start, done, Step, Takes};
ghost use Rattle.uhura_cert.specs.Reading.{document_of, spot_of, StepsTo};

mod answer;
mod entries;
mod leaves;
mod script;

use crate::place::Place;
use crate::sides::Sides;
use crate::{Leaf, Proposal, Shared};
use std::alloc::{AllocError, Global};
use uhura_choice::Pick;
use uhura_command::State;
use uhura_item::{Item, read_item};
use uhura_plan::{EdgeKey, Literal};

/// Where the lines so far have led (`specs/Reading.antt`), and what they said. What belongs to no part that is begun
/// has no meaning.
#[derive(Drop)]
pub(crate) struct Reader {
    pub(crate) place: Place,
    pub(crate) version: u32,
    pub(crate) state: State,
    /// The proposal that is being read.
    pub(crate) cost: u128,
    pub(crate) picks: Vec<Literal>,
    pub(crate) sides: Sides,
    pub(crate) times: Vec<u64>,
    /// What stands behind the question so far.
    pub(crate) answer: Option<Proposal>,
    pub(crate) shared: Vec<Shared>,
    pub(crate) leaves: Vec<Leaf>,
    /// The prefix of the leaf that is being read.
    pub(crate) prefix: Vec<Pick>,
    /// The edges of what is being shown.
    pub(crate) units: Vec<(EdgeKey, u64)>,
    pub(crate) edges: Vec<EdgeKey>,
}

impl Reader {
    /// Nothing is read yet.
    pub(crate) fn new(alloc: Global) -> Result<Reader, AllocError>
        ensures { IfOk result (λ reader. spot_of reader ≡ start) }
    {
        Ok(Reader {
            place: Place::Start,
            version: 0,
            state: State::new(alloc)?,
            cost: 0,
            picks: Vec::new(alloc),
            sides: Sides::new(alloc),
            times: Vec::new(alloc),
            answer: None,
            shared: Vec::new(alloc),
            leaves: Vec::new(alloc),
            prefix: Vec::new(alloc),
            units: Vec::new(alloc),
            edges: Vec::new(alloc),
        })
    }

    /// Whether the last line of a document is taken.
    pub(crate) fn is_done(&self) -> bool
        ensures yes { result ≡ true → spot_of self.now ≡ done (document_of self.now) }
        ensures no { result ≡ false → (d : Document) → spot_of self.now ≡ done d → ⊥ }
    {
        matches!(self.place, Place::Done)
    }

    /// Takes the next line, without its newline, and says whether it may come there.
    #[tactic(auto, using(crate::proofs::ReadLines::no_item))]
    pub(crate) fn take(&mut self, alloc: Global, line: &[u8]) -> Result<bool, AllocError>
        ensures { StepsTo result (Takes (spot_of self.old) line.now) (spot_of self.new) }
    {
        let Some(item) = read_item(alloc, line)? else {
            return Ok(false);
        };
        self.step(alloc, &item)
    }

    /// Takes the item of the next line.
    fn step(&mut self, alloc: Global, item: &Item) -> Result<bool, AllocError>
        requires { IsItem item.now }
        ensures { StepsTo result (Step (spot_of self.old) item.now) (spot_of self.new) }
    {
        match self.place {
            Place::Start => self.in_start(alloc, item),
            Place::Script => self.in_script(item),
            Place::Question => self.in_question(alloc, item),
            Place::Picks => self.in_picks(alloc, item),
            Place::Sides => self.in_sides(alloc, item),
            Place::Times => self.in_times(alloc, item),
            Place::Entries => self.in_entries(alloc, item),
            Place::EntryFlow => self.in_entry_flow(alloc, item),
            Place::EntryWalk => self.in_entry_walk(alloc, item),
            Place::Leaves => self.in_leaves(alloc, item),
            Place::LeafHead => self.in_leaf_head(alloc, item),
            Place::LeafFlow => self.in_leaf_flow(alloc, item),
            Place::LeafWalk => self.in_leaf_walk(alloc, item),
            Place::Done => Ok(false),
        }
    }
}
