//! What follows from the definitions: each contract is a law, and the bodies are empty. A prefix goes on by its
//! children, and the walk by next branches meets each branch once.
ghost use Rattle.std.specs.Prelude.{List};
ghost use Rattle.uhura_plan.specs.Lists.{Lists};
ghost use Rattle.uhura_plan.specs.Sound.{IsSound};
ghost use Rattle.uhura_choice.specs.declared.prefix.Pick.{Pick};
ghost use Rattle.uhura_choice.specs.Branch.{IsBranch, IsPrefix};
ghost use Rattle.uhura_choice.specs.Order.{IsFrontOf};
ghost use Rattle.uhura_choice.specs.Children.{children, AreChildren, HasOneChild};
ghost use Rattle.uhura_choice.specs.Walk.{AreWalked};

/// The children of a prefix are the prefixes one entry longer, once and in order, and a whole branch has none.
pub fn children_are_prefixes()
    ensures { (plan : Lists) (picks : List Pick) → IsSound plan → IsPrefix plan.choices picks →
        AreChildren plan.choices picks (children plan.choices picks) }
{}

/// A branch that a prefix begins, and that is longer, is begun by exactly one child of the prefix.
pub fn one_child_begins_a_branch()
    ensures { (plan : Lists) (picks branch : List Pick) → IsSound plan →
        IsBranch plan.choices branch → IsFrontOf picks branch → (IsBranch plan.choices picks → ⊥) →
        HasOneChild plan.choices picks branch }
{}

/// There is a walk from a first branch on by next branches to the last, and each such walk lists every branch once,
/// in order.
pub fn branches_are_walked()
    ensures { (plan : Lists) → IsSound plan → AreWalked plan.choices }
{}
