//! What a line commands.
use crate::Literals;
use uhura_plan::{Alternatives, Bounded, Name, Price, Rate, Side};

/// A requirement or an uncertain duration, by name.
#[derive(Clone, Copy, Debug)]
pub enum ItemName {
    Require(Name),
    Uncertain(Name),
}

/// A command, named for its verb; `Price` is `price require`, and `Rate` is `price uncertain`. `None` stands for `-`
/// or for a part of the line that is missing, and a missing guard has no literals.
#[derive(Drop)]
pub enum Command {
    Event {
        name: Name,
    },
    Uncertain {
        name: Name,
        start: Name,
        end: Name,
        lower: i64,
        upper: i64,
        lower_rate: Option<Rate>,
        upper_rate: Option<Rate>,
    },
    Choice {
        name: Name,
        alternatives: Alternatives,
        guard: Literals,
    },
    Require {
        name: Name,
        from: Name,
        to: Name,
        lower: Bounded,
        upper: Bounded,
        guard: Literals,
    },
    Drop {
        name: Name,
    },
    Bound {
        name: Name,
        side: Side,
        bound: Option<i64>,
    },
    Price {
        name: Name,
        side: Side,
        price: Option<Price>,
    },
    Rate {
        name: Name,
        side: Side,
        rate: Option<Rate>,
    },
    Range {
        name: Name,
        lower: i64,
        upper: i64,
    },
    Prefer {
        choice: Name,
        alternative: Name,
        cost: u32,
    },
    Deny {
        name: Name,
        literals: Literals,
    },
    Cap {
        name: Name,
        item: ItemName,
        side: Side,
        units: u32,
    },
    Withdraw {
        name: Name,
    },
    Show,
    Propose,
    Prove,
}
