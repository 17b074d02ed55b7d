// The kind of the main tree (000's primary nodes), and the arms of its nodes' auxiliary trees.
ghost use Rattle.std.specs.Prelude.{◌≡◌, ◌+◌, ◌≤◌, ◌<◌, ◌^◌, length};
ghost use Rattle.table.specs.Layout.{arm_width, main_place, auxiliary_place, runs_end};
ghost use Rattle.nodes.specs.Arms.{arm_at, put_arm};
ghost use Rattle.nodes.specs.Trees.{main_before_end};
ghost use Rattle.nodes.specs.Values.{arm_value};

use crate::arm::{Arm, Node};
use crate::secondary::Secondary;
use crate::tree::Tree;
use geometry::AlongX;
use table::layout;

// The main tree of a table: its records stand in the slots.
#[derive(Clone, Copy)]
pub struct Primary {
    pub capacity: u32,
}

// The number of a main node. It is another tuple struct than that of an auxiliary node, so the one never goes in for the other.
pub type PrimaryNode = Node<Primary>;

impl Tree for Primary {
    type Along = AlongX;

    ghost place = { λ tree. main_place };

    ghost capacity = { λ tree. tree.capacity };

    ghost end = { λ tree. runs_end tree.capacity };

    ghost before_end = { λ tree. main_before_end tree.capacity };

    fn place(self, name: u32) -> usize {
        layout::HEADER + layout::MARK + layout::SLOT * (name as usize)
    }

    fn capacity(self) -> u32 {
        self.capacity
    }
}

impl Primary {
    // Where the arm of the auxiliary tree of the node of that name stands.
    pub fn auxiliary_place(name: u32) -> usize
        ensures is { result ≡ auxiliary_place name }
        ensures small { result < 2 ^ 40 }
    {
        layout::HEADER + layout::MARK + layout::RECORD + layout::SLOT * (name as usize)
    }

    // The arm of the auxiliary tree of the node of that name, which is there.
    pub fn load_auxiliary(t: &[u32], name: u32) -> Arm<Secondary>
        requires { auxiliary_place name + arm_width ≤ length t.now }
        ensures { arm_value result ≡ arm_at t.now (auxiliary_place name) }
    {
        Arm::load(t, Primary::auxiliary_place(name))
    }

    pub fn store_auxiliary(t: &mut [u32], name: u32, a: Arm<Secondary>)
        requires { auxiliary_place name + arm_width ≤ length t.old }
        ensures { t.new ≡ put_arm t.old (auxiliary_place name) (arm_value a) }
    {
        Arm::store(t, Primary::auxiliary_place(name), a);
    }
}
