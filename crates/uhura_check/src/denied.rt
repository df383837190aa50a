//! Whether a veto that a leaf names denies the branches of its prefix.
ghost use Rattle.std.specs.Prelude.{◌≡◌};
ghost use Rattle.uhura_shows.specs.Shows.{is_denied_by};

use uhura_choice::{Prefix, holds};
use uhura_command::State;
use uhura_veto::Veto;

/// Whether the veto at a place is a denial whose literals are all picked in the prefix.
pub(crate) fn is_denied_by(state: &State, prefix: &Prefix, veto: u32) -> bool
    ensures { result ≡ is_denied_by state.now prefix.now veto }
{
    match state.vetoes.veto(veto) {
        Some(Veto::Deny { literals, .. }) => holds(literals, prefix),
        _ => false,
    }
}
