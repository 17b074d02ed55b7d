// Copying a tree to another level, for a sibling that takes its parent's place.
ghost use Rattle.std.specs.Prelude.{◌≡◌, ◌≤◌, length};
ghost use Rattle.table.specs.Layout.{record_place, level_end};
ghost use Rattle.secondary_build.specs.Copy.{copy♯};

use nodes::record::Record;
use nodes::secondary::{Secondary, SecondaryNode};

// Copies the records beneath a node from one level to that which begins at `to`, fuel levels down. What is beneath a node of no slot stays as it is.
pub fn copy(t: &mut [u32], from: Secondary, to: u32, node: SecondaryNode, fuel: u32)
    requires { (level_end from.base from.capacity ≤ length t.old) × (level_end to from.capacity ≤ length t.old) }
    ensures { t.new ≡ copy♯ fuel from.capacity (record_place from.base) (record_place to) node.0 t.old }
{
    if fuel == 0 {
        return;
    }
    if node.is_leaf() {
        return;
    }
    let name = node.slot();
    if from.capacity <= name {
        return;
    }
    let Record { left, right } = Record::load(t, from, name);
    Record::store(t, Secondary { base: to, ..from }, name, left, right);
    copy(t, from, to, left.node, fuel - 1);
    copy(t, from, to, right.node, fuel - 1);
}
