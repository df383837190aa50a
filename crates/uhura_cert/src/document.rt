//! A document: a state, the answer to its question, and what shows that no proposal is cheaper.
use crate::Listed;
use std::alloc::AllocError;
use std::marker::Model;
use uhura_choice::Pick;
use uhura_command::State;
use uhura_plan::{EdgeKey, Literal};
use uhura_worst::Loosening;

/// A proposal: its cost, the alternatives that are picked, in the order of the choices, the sides that are loosened
/// or narrowed, in the order of the plan, and the time of each controllable event.
#[derive(Drop)]
pub struct Proposal {
    pub cost: u128,
    pub picks: Listed<Literal>,
    pub loosening: Loosening,
    pub times: Listed<u64>,
}

/// What several leaves may show: a circulation by its edges with units, or a closed walk by its edges.
#[derive(Drop)]
pub enum Shared {
    Flow(Listed<(EdgeKey, u64)>),
    Stuck(Listed<EdgeKey>),
}

/// Why nothing cheaper is in the branches with a leaf's prefix: a veto by its place, a circulation, a closed walk, or
/// a shared entry by its number.
#[derive(Drop)]
pub enum Reason {
    Denied(u32),
    Flow(Listed<(EdgeKey, u64)>),
    Stuck(Listed<EdgeKey>),
    Entry(u32),
}

/// A prefix of branches, with the reason why nothing cheaper is among them.
#[derive(Drop)]
pub struct Leaf {
    pub prefix: Listed<Pick>,
    pub reason: Reason,
}

/// A document of version 1 or 2. It keeps that it has a text.
#[derive(Drop)]
pub struct Document {
    pub version: u32,
    pub state: State,
    pub answer: Option<Proposal>,
    pub shared: Listed<Shared>,
    pub leaves: Listed<Leaf>,
}

impl Model for Document {
    ghost use Rattle.uhura_cert.specs.Document as stated;
    ghost use Rattle.uhura_cert.specs.Document.{IsDocument};

    ghost Value = { stated.Document };

    ghost view = { λ d. record {
      version = d.version;
      state = d.state;
      answer = d.answer;
      shared = d.shared;
      leaves = d.leaves;
    } };

    ghost invariant = { λ d. IsDocument (record {
      version = d.version;
      state = d.state;
      answer = d.answer;
      shared = d.shared;
      leaves = d.leaves;
    }) };
}

/// Why bytes are not read as a document: the first line up to which no document's text agrees, or memory.
#[derive(Clone, Copy, Debug, PartialEq, Eq)]
pub enum DocumentRefusal {
    Malformed { line: u32 },
    Memory(AllocError),
}

impl From<AllocError> for DocumentRefusal {
    ghost use Rattle.std.specs.Prelude.{◌≡◌};
    ghost use Rattle.uhura_cert.specs.declared.document.DocumentRefusal.TheVariants.{Memory};

    ghost from_gives = { λ error refusal. refusal ≡ Memory error };

    fn from(error: AllocError) -> DocumentRefusal {
        DocumentRefusal::Memory(error)
    }
}
