//! Why a document isn't confirmed.
use std::alloc::AllocError;

/// Which condition a document fails.
#[derive(Clone, Copy, Debug, PartialEq, Eq)]
pub enum Code {
    Pick,
    Room,
    Cost,
    Broken,
    LeafOrder,
    LeafDenied,
    LeafStuck,
    LeafUnits,
    LeafBalance,
    LeafValue,
    LeafMissing,
}

/// Why a document isn't confirmed: the first condition that it fails, with its line, or memory.
#[derive(Clone, Copy, Debug, PartialEq, Eq)]
pub enum CheckRefusal {
    NotConfirmed { code: Code, line: u32 },
    Memory(AllocError),
}
