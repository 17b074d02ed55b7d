// Records of inner nodes, the arms of their children, of either kind of tree; and the way of a mark at an inner node.
ghost use Rattle.std.specs.Prelude.{◌≡◌, ◌+◌, ◌<◌, ◌≤◌, ◌^◌, length};
ghost use Rattle.geometry.specs.Values.{mark_value};
ghost use Rattle.table.specs.Layout.{mark_width, record_width, slot_place};
ghost use Rattle.nodes.specs.Arms.{record_at, put_record, child_at};
ghost use Rattle.nodes.specs.Ways.{way_at};
ghost use Rattle.nodes.specs.Values.{arm_value, record_value, way_value};

use crate::arm::Arm;
use crate::tree::Tree;
use geometry::{Axis, Mark};
use table::{layout, slots};

// The arms of an inner node's children.
#[derive_where(Clone, Copy)]
pub struct Record<T> {
    pub left: Arm<T>,
    pub right: Arm<T>,
}

// The way of a mark at an inner node: whether it goes left, the child that it goes to, and the other one.
#[derive_where(Clone, Copy)]
pub struct Way<T> {
    pub left: bool,
    pub child: Arm<T>,
    pub sibling: Arm<T>,
}

// The fork of that way: whether it goes left, the weight of the child that it goes to, and that of the other one.
#[derive(Clone, Copy)]
pub struct Fork {
    pub left: bool,
    pub child: u32,
    pub sibling: u32,
}

impl<T: Tree> Record<T> {
    // The record at the word `at`, which is there: the left arm, then the right one.
    #[tactic(auto, unfolding(crate::specs::Arms::record_at))]
    pub fn read(t: &[u32], at: usize) -> Record<T>
        requires { at + record_width ≤ length t.now }
        ensures { record_value result ≡ record_at t.now at }
    {
        let left = Arm::load(t, at);
        let right = Arm::load(t, at + layout::ARM);
        Record { left, right }
    }

    // The record of the inner node of that name, which is there.
    pub fn load(t: &[u32], tree: T, name: u32) -> Record<T>
        requires { T.place tree name + record_width ≤ length t.now }
        ensures { record_value result ≡ record_at t.now (T.place tree name) }
    {
        Record::read(t, tree.place(name))
    }

    #[tactic(auto, unfolding(crate::specs::Arms::put_record))]
    pub fn store(t: &mut [u32], tree: T, name: u32, l: Arm<T>, r: Arm<T>)
        requires { T.place tree name + record_width ≤ length t.old }
        ensures { t.new ≡ put_record t.old (T.place tree name) (arm_value l) (arm_value r) }
    {
        let at = tree.place(name);
        Arm::store(t, at, l);
        Arm::store(t, at + layout::ARM, r);
    }

    // The way of the mark m at the inner node of that name, whose words are there.
    pub fn way(t: &[u32], tree: T, name: u32, m: Mark) -> Way<T>
        requires { (slot_place name + mark_width ≤ length t.now) × (T.place tree name + record_width ≤ length t.now) }
        ensures { way_value result ≡ way_at T.Along.along (T.place tree) (mark_value m) name t.now }
    {
        let left = T::Along::below(m, slots::load(t, name));
        let child = Arm::load(t, Record::child(tree, name, left));
        let sibling = Arm::load(t, Record::child(tree, name, !left));
        Way {
            left,
            child,
            sibling,
        }
    }

    // The fork of that way.
    pub fn fork(t: &[u32], tree: T, name: u32, m: Mark) -> Fork
        requires { (slot_place name + mark_width ≤ length t.now) × (T.place tree name + record_width ≤ length t.now) }
        ensures left { result.left ≡ (way_at T.Along.along (T.place tree) (mark_value m) name t.now).left }
        ensures child { result.child ≡ (way_at T.Along.along (T.place tree) (mark_value m) name t.now).child.weight }
        ensures sibling { result.sibling ≡ (way_at T.Along.along (T.place tree) (mark_value m) name t.now).sibling.weight }
    {
        let v = Record::way(t, tree, name, m);
        let child = v.child;
        let sibling = v.sibling;
        Fork {
            left: v.left,
            child: child.weight,
            sibling: sibling.weight,
        }
    }

    // Where its left, or its right, arm stands.
    #[tactic(auto, unfolding(crate::specs::Arms::child_at))]
    pub fn child(tree: T, name: u32, left: bool) -> usize
        ensures is { result ≡ child_at (T.place tree name) left }
        ensures small { result < 2 ^ 40 }
    {
        let at = tree.place(name);
        if left { at } else { at + layout::ARM }
    }
}
