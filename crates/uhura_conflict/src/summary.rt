//! What the entries of a block of keys have in common.
ghost use Rattle.std.specs.Prelude.{◌≡◌, ◌≤ℤ◌, ℕ, IsTrue, IsFalse};
ghost use Rattle.uhura_plan.specs.declared.guard.Literal.{Literal};
ghost use Rattle.uhura_conflict.specs.declared.entry.Entry.{Entry};
ghost use Rattle.uhura_conflict.specs.Literals.{Asks};
ghost use Rattle.uhura_conflict.specs.Summaries.{Covers, IsCoveredBy, CannotMatter};

use crate::entry::Entry;
use crate::literals::applies;
use crate::sought::{Sought, is_sought};
use uhura_choice::Pick;
use uhura_plan::CHOICES;

/// Literals that each entry of a block has, whether one of them may be a firm cycle, and a value that none exceeds.
#[derive(Clone, Copy)]
pub(crate) struct Summary {
    pub(crate) literals: [Option<u8>; CHOICES as usize],
    pub(crate) stuck: bool,
    pub(crate) greatest: i128,
}

/// The summary of a block, once this entry comes into it.
pub(crate) fn widened(summary: &Option<Summary>, entry: &Entry) -> Summary
    ensures here { Covers result entry.now }
    ensures kept { (other : Entry) → IsCoveredBy summary.now other → Covers result other }
{
    match summary {
        Some(summary) => joined(summary, entry),
        None => Summary {
            literals: *entry.conflict.literals(),
            stuck: entry.conflict.is_stuck(),
            greatest: entry.value,
        },
    }
}

/// The summary of what one covers, and of an entry.
fn joined(summary: &Summary, entry: &Entry) -> Summary
    ensures here { Covers result entry.now }
    ensures kept { (other : Entry) → Covers summary.now other → Covers result other }
{
    Summary {
        literals: common(&summary.literals, entry.conflict.literals()),
        stuck: summary.stuck || entry.conflict.is_stuck(),
        greatest: greater(summary.greatest, entry.value),
    }
}

/// The literals that both ask for.
fn common(
    a: &[Option<u8>; CHOICES as usize],
    b: &[Option<u8>; CHOICES as usize],
) -> [Option<u8>; CHOICES as usize]
    ensures first { (literal : Literal) → Asks result literal → Asks a.now literal }
    ensures second { (literal : Literal) → Asks result literal → Asks b.now literal }
{
    let mut both = [None; CHOICES as usize];
    for choice in 0..CHOICES as usize {
        both[choice] = if_same(a[choice], b[choice]);
    }
    both
}

/// The alternative that both are, if they are one.
fn if_same(a: Option<u8>, b: Option<u8>) -> Option<u8>
    ensures first { (alternative : ℕ) → result ≡ Some alternative → a ≡ Some alternative }
    ensures second { (alternative : ℕ) → result ≡ Some alternative → b ≡ Some alternative }
{
    match (a, b) {
        (Some(one), Some(other)) if one == other => a,
        _ => None,
    }
}

/// The greater of two values.
fn greater(a: i128, b: i128) -> i128
    ensures first { a ≤ℤ result }
    ensures second { b ≤ℤ result }
{
    if a < b { b } else { a }
}

/// Whether an entry of a block may be looked for and apply to these picks.
pub(crate) fn may_matter(summary: &Option<Summary>, sought: Sought, picks: &[Pick]) -> bool
    ensures { IsFalse result → CannotMatter summary.now picks.now sought }
{
    match summary {
        Some(summary) => {
            is_sought(sought, summary.stuck, summary.greatest) && applies(&summary.literals, picks)
        }
        None => false,
    }
}
