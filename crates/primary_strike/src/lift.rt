// The sibling of a struck leaf goes up one level, and the auxiliary trees beneath it with it.
ghost use Rattle.std.specs.Prelude.{◌≡◌, ◌≤◌, length};
ghost use Rattle.table.specs.Layout.{runs_end};
ghost use Rattle.primary_strike.specs.Lift.{lift♯};

use nodes::primary::{Primary, PrimaryNode};
use nodes::record::Record;
use nodes::secondary::Secondary;
use table::limits;
use twofold_layout::levels;

// Copies the auxiliary trees beneath a node, the root's from one level to that which begins at `to`, and each deeper one to the level that was above
// it. What is beneath a node of no slot, or in levels that are not there, stays as it is.
pub fn lift(t: &mut [u32], from: Secondary, to: u32, node: PrimaryNode, fuel: u32)
    requires { runs_end from.capacity ≤ length t.old }
    ensures { t.new ≡ lift♯ fuel from.capacity from.base to node.0 t.old }
{
    if fuel == 0 {
        return;
    }
    let name = node.slot();
    if node.is_leaf() || from.capacity <= name {
        return;
    }
    if from.lacks_level(t) || (Secondary { base: to, ..from }).lacks_level(t) {
        return;
    }
    let tree = Primary {
        capacity: from.capacity,
    };
    let Record { left, right } = Record::load(t, tree, name);
    let root = Primary::load_auxiliary(t, name);
    secondary_build::copy::copy(t, from, to, root.node, limits::SIBLING_DEEPEST);
    let below = levels::next(from);
    lift(t, below, from.base, left.node, fuel - 1);
    lift(t, below, from.base, right.node, fuel - 1);
}
