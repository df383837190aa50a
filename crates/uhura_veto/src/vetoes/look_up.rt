//! Look-ups, by place, by name, and by the slot of a requirement. They take no memory.
ghost use Rattle.std.specs.Prelude.{◌≡◌, length, slice_get, option_copied};
ghost use Rattle.uhura_veto.specs.Find.{veto_named, caps_requirement, names_requirement};
ghost use Rattle.uhura_veto.specs.Vetoes.{AreSoundVetoes};

use super::Vetoes;
use crate::Veto;
use uhura_plan::{Item, Name};

impl Vetoes {
    /// The number of vetoes.
    pub fn count(&self) -> u32
        ensures count { result ≡ length self.now }
        ensures sound { AreSoundVetoes self.now }
    {
        self.vetoes.len() as u32
    }

    /// The veto at this place.
    pub fn veto(&self, index: u32) -> Option<&Veto>
        ensures { option_copied result ≡ slice_get self.now index }
    {
        self.vetoes.values().as_slice().get(index as usize)
    }

    /// The place of the veto of this name.
    pub fn find(&self, name: Name) -> Option<u32>
        ensures { result ≡ veto_named self.now name }
    {
        self.vetoes.get_index_of(&name).map(|index| index as u32)
    }

    /// Whether a cap is on a side of the requirement in this slot.
    pub fn names_requirement(&self, slot: u32) -> bool
        ensures { result ≡ names_requirement slot self.now }
    {
        names_requirement(self.items(), slot)
    }

    /// The vetoes in their order.
    pub(crate) fn items(&self) -> &[Veto]
        ensures items { result.now ≡ self.now }
        ensures sound { AreSoundVetoes self.now }
    {
        self.vetoes.values().as_slice()
    }
}

/// Whether one of these vetoes is a cap on a side of the requirement in this slot.
fn names_requirement(vetoes: &[Veto], slot: u32) -> bool
    ensures { result ≡ names_requirement slot vetoes.now }
{
    vetoes.iter().any(|veto| caps_requirement(veto, slot))
}

/// Whether the veto is a cap on a side of the requirement in this slot.
fn caps_requirement(veto: &Veto, slot: u32) -> bool
    ensures { result ≡ caps_requirement slot veto.now }
{
    match veto {
        Veto::Deny { .. } => false,
        Veto::Cap { key, .. } => key.item == Item::Requirement(slot),
    }
}
