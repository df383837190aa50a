//! Raising potentials by distances.
ghost use Rattle.std.specs.Prelude.{ℕ, ◌≡◌, ◌≤◌, pos, neg_ℤ, ◌+ℤ◌, ◌-ℤ◌, ◌≤ℤ◌};
ghost use Rattle.uhura_net.specs.Edges.{time_at};
ghost use Rattle.uhura_path.specs.declared.ways.TheConstants.{MOST_POTENTIAL};
ghost use Rattle.uhura_path.specs.declared.task.TheConstants.{NO_CAP};
ghost use Rattle.uhura_path.specs.Ways.{ArePotentials};
ghost use Rattle.uhura_path.specs.Found.{IsReached, IsLifted};

use crate::Found;

/// Raises the potential of each reached node by what its distance is below the cost that was found. So each step of
/// the path that was found gets the reduced cost 0, and no edge that may be walked one below 0. It works at the
/// reached nodes alone.
pub fn lift(potentials: &mut [i64], found: &Found)
    requires potentials { ArePotentials potentials.old }
    requires reached { (distance : ℕ → ℕ) × IsReached found.now distance }
    ensures { (distance : ℕ → ℕ) → IsReached found.now distance → IsLifted found.now.cost distance
        (time_at potentials.old) (time_at potentials.new) }
{
    for node in found.reached {
        let at = *node as usize;
        potentials[at] = raised(potentials[at], found.cost, found.labels[at].distance);
    }
}

/// A potential, raised by what a distance is below a cost.
fn raised(potential: i64, cost: u64, distance: u64) -> i64
    requires least { neg_ℤ (pos MOST_POTENTIAL) ≤ℤ potential }
    requires most { potential ≤ℤ pos MOST_POTENTIAL }
    requires nearer { distance ≤ cost }
    requires cost { cost ≤ NO_CAP }
    ensures { result ≡ potential +ℤ (pos cost -ℤ pos distance) }
{
    potential + (cost - distance) as i64
}
