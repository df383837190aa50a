//! The items that caps name.
ghost use Rattle.std.specs.Prelude.{◌≡◌};
ghost use Rattle.uhura_veto.specs.Find.{item_named};

use uhura_plan::{Item, Name, Plan};

/// A requirement or an uncertain duration, as a call says which of the two a name is of.
#[derive(Clone, Copy, Debug, PartialEq, Eq)]
pub enum ItemKind {
    Require,
    Uncertain,
}

impl ItemKind {
    /// The item of this kind and name, where there is one.
    pub(crate) fn find(self, plan: &Plan, name: Name) -> Option<Item>
        ensures { result ≡ item_named plan.now self name }
    {
        match self {
            ItemKind::Require => {
                let place = plan.find_requirement(name)?;
                let requirement = plan.requirement(place)?;
                Some(Item::Requirement(requirement.slot))
            }
            ItemKind::Uncertain => {
                let place = plan.find_uncertain(name)?;
                Some(Item::Uncertain(place))
            }
        }
    }
}
