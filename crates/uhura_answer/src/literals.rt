//! What a branch picks.
ghost use Rattle.std.specs.Prelude.{◌≡◌, IfOk};
ghost use Rattle.uhura_answer.specs.Literals.{literals_of};

use std::alloc::{AllocError, Global};
use uhura_choice::{Branch, Pick};
use uhura_plan::Literal;

/// A literal for each choice of which the branch picks an alternative, in the order of the choices.
pub(crate) fn literals_of(alloc: Global, branch: &Branch) -> Result<Vec<Literal>, AllocError>
    ensures { IfOk result (λ literals. literals.items ≡ literals_of branch.now) }
{
    let picks = branch.entries();
    let mut literals = Vec::new(alloc);
    for choice in 0..picks.len() as u32 {
        let Pick::Alternative(alternative) = picks[choice as usize] else {
            continue;
        };
        literals.push(Literal {
            choice,
            alternative,
        })?;
    }
    Ok(literals)
}
