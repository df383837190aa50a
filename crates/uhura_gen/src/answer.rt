//! The answers of edits that no plan refuses.
ghost use Rattle.std.specs.Prelude.{◌≡◌, None, is_ok};
ghost use Rattle.uhura_plan.specs.Refusals.{Answers};

use std::alloc::AllocError;
use uhura_plan::EditRefusal;

/// The answer of an edit that only want of memory can stop.
pub(crate) fn unrefused(answer: Result<(), EditRefusal>) -> Result<(), AllocError>
    requires { Answers None answer }
    ensures { is_ok result ≡ is_ok answer }
{
    match answer {
        Ok(()) => Ok(()),
        Err(EditRefusal::Memory(error)) => Err(error),
        Err(_) => unreachable!(),
    }
}
