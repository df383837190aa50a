//! Whether units balance at each node.
ghost use Rattle.std.specs.Prelude.{◌≡◌};
ghost use Rattle.std.specs.Bool.{Decides};
ghost use Rattle.uhura_veto.specs.State.{State};
ghost use Rattle.uhura_worst.specs.Filled.{IsTableOf};
ghost use Rattle.uhura_check.specs.Conditions.{Balances};
ghost use Rattle.uhura_check.specs.Edges.{AreFew};

use crate::ledger::{are_even, clear, enter_all};
use std::alloc::{AllocError, Global};
use std::marker::Model;
use uhura_net::{EdgeTable, NODES};
use uhura_plan::EdgeKey;

/// A number for each node, all of them 0 between calls. Only `new` takes memory.
#[derive(Drop)]
pub(crate) struct Scratch {
    due: Vec<i128>,
}

impl Model for Scratch {
    ghost use Rattle.std.specs.Prelude.{List, ℤ};
    ghost use Rattle.uhura_check.specs.Ledger.{IsClearLedger};

    ghost Value = { List ℤ };

    ghost view = { λ s. s.due.items };

    ghost invariant = { λ s. IsClearLedger s.due.items };
}

impl Scratch {
    /// No node is due anything.
    pub(crate) fn new(alloc: Global) -> Result<Scratch, AllocError> {
        Ok(Scratch {
            due: vec![in alloc; 0; NODES]?,
        })
    }

    /// Whether as many units come into each node as go out of it, by the edges of a table.
    pub(crate) fn is_balanced(&mut self, table: &EdgeTable, pairs: &[(EdgeKey, u64)]) -> bool
        requires { AreFew pairs.now }
        ensures { (state : State) → IsTableOf state table.now →
            Decides result (Balances state pairs.now) }
    {
        let due = self.due.as_mut_slice();
        enter_all(due, table, pairs);
        let balanced = are_even(due, table, pairs);
        clear(due, table, pairs);
        balanced
    }
}
