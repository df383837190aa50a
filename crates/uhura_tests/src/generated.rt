//! A plan from a number.
ghost use Rattle.uhura_gen.specs.Generator.{IsSeed, IsEventCount};

use std::alloc::{AllocError, Global};
use uhura_gen::plan_of;
use uhura_plan::{Plan, Rate};

/// The generator's first numbers from 1 on are 48271, 182605794, 1291394886 and 1914720637.
#[test]
fn draws_the_first_duration(rt: HostRuntime) -> Result<(), AllocError> {
    assert!(rt; begins_as_drawn(rt.alloc(), 1, 64)?);
    Ok(())
}

/// Whether the plan of a number begins as that of 1. (With the number itself the check would work out the plan.)
fn begins_as_drawn(alloc: Global, number: u32, events: u32) -> Result<bool, AllocError>
    requires number { IsSeed number }
    requires events { IsEventCount events }
{
    let plan = plan_of(alloc, number, events)?;
    Ok(is_drawn(&plan))
}

/// Whether the first duration is `u0` from `e0` to `f0`, from 11 to 25, at a lower price of 7 and an upper one of 5.
fn is_drawn(plan: &Plan) -> bool {
    match plan.uncertain(0) {
        None => false,
        Some(first) => {
            (first.name.bytes(), first.end.bytes()) == (b"u0".as_slice(), b"f0".as_slice())
                && (first.start, first.lower, first.upper) == (0, 11, 25)
                && (first.lower_rate, first.upper_rate) == (rate(7), rate(5))
        }
    }
}

fn rate(first: u32) -> Option<Rate> {
    Some(Rate {
        first,
        second: None,
    })
}
