//! Which picks the vetoes deny.
ghost use Rattle.std.specs.Prelude.{◌≡◌, is_some, find, option_copied};
ghost use Rattle.uhura_veto.specs.Denial.{denies, denied_by, is_denied};

use crate::{Veto, Vetoes};
use uhura_choice::{Prefix, holds};
use uhura_plan::Name;

/// The name of the first denial whose literals are all picked in the prefix, where there is one.
pub fn denied_by(vetoes: &Vetoes, prefix: &Prefix) -> Option<Name>
    ensures first { result ≡ denied_by vetoes.now prefix.now }
    ensures denied { is_some result ≡ is_denied vetoes.now prefix.now }
{
    match first_denial(vetoes.items(), prefix) {
        Some(veto) => Some(veto.name()),
        None => None,
    }
}

/// The first veto that denies the prefix.
fn first_denial<'a>(vetoes: &'a [Veto], prefix: &Prefix) -> Option<&'a Veto>
    ensures { option_copied result ≡ find (denies prefix.now) vetoes.now }
{
    vetoes.iter().find(|veto| denies(veto, prefix))
}

/// Whether the veto is a denial whose literals are all picked in the prefix.
fn denies(veto: &Veto, prefix: &Prefix) -> bool
    ensures { result ≡ denies prefix.now veto.now }
{
    match veto {
        Veto::Deny { literals, .. } => holds(literals, prefix),
        Veto::Cap { .. } => false,
    }
}
