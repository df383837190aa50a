//! What units on edges come to, wherever leaves use them.
ghost use Rattle.uhura_veto.specs.State.{State};
ghost use Rattle.uhura_worst.specs.Filled.{IsTableOf};
ghost use Rattle.uhura_check.specs.Edges.{AreFew};
ghost use Rattle.uhura_check.specs.Entries.{IsFlowOf};

use crate::balance::Scratch;
use crate::units::first_uncarried;
use crate::value::flow_value;
use uhura_net::EdgeTable;
use uhura_plan::EdgeKey;

/// The place of the first edge that isn't there or carries more than its capacity, whether as many units come into
/// each node as go out of it, and minus the sum of the bounds times the units.
#[derive(Clone, Copy, Debug)]
pub struct Flow {
    pub uncarried: Option<usize>,
    pub balanced: bool,
    pub value: i128,
}

/// What the units on some edges of a table come to.
pub(crate) fn flow_of(table: &EdgeTable, scratch: &mut Scratch, pairs: &[(EdgeKey, u64)]) -> Flow
    requires { AreFew pairs.now }
    ensures { (state : State) → IsTableOf state table.now → IsFlowOf state pairs.now result }
{
    Flow {
        uncarried: first_uncarried(table, pairs),
        balanced: scratch.is_balanced(table, pairs),
        value: flow_value(table, pairs),
    }
}
