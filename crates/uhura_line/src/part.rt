//! The parts that lines of several verbs have, each with how it is read and how it is written.

pub(crate) mod ahead;
pub(crate) mod costed;
pub(crate) mod count;
pub(crate) mod item;
pub(crate) mod pairs;
pub(crate) mod places;
pub(crate) mod priced;
pub(crate) mod rates;
pub(crate) mod sides;
