// Collecting the slots of a tree in order, of either kind.
ghost use Rattle.std.specs.Prelude.{◌≡◌, true, ◌<◌, ◌≤◌, length};
ghost use Rattle.table.specs.After.{after};
ghost use Rattle.table.specs.Layout.{runs_end};
ghost use Rattle.nodes.specs.Collect.{left_out, collect_leaf, collect♯, gather♯};

use crate::arm::Node;
use crate::record::Record;
use crate::tree::Tree;
use table::damage::Damaged;
use table::limits;
use table::runs::{self, RUN_A};

// What is collected: the slots of a tree, but for the slot `but`, if one is given.
#[derive(Clone, Copy)]
struct Collecting<T> {
    tree: T,
    but: Option<u32>,
}

impl<T: Tree> Collecting<T> {
    // Writes a leaf's slot into run A, unless it is left out, and gives how many slots it has then.
    #[tactic(auto, unfolding(crate::specs::Collect::collect_leaf))]
    fn take(&self, t: &mut [u32], s: u32, taken: u32) -> Result<u32, Damaged>
        requires { (taken < T.capacity self.now.tree) × (runs_end (T.capacity self.now.tree) ≤ length t.old) }
        ensures { after result t.new ≡ collect_leaf (T.capacity self.now.tree) (left_out self.now.but) s taken t.old }
    {
        let capacity = self.tree.capacity();
        if capacity <= s {
            return Err(Damaged);
        }
        if self.but == Some(s) {
            return Ok(taken);
        }
        runs::store::<RUN_A>(t, capacity, taken, s);
        Ok(taken + 1)
    }

    // Writes the slots beneath a node of that weight into run A after the `taken` that it has, and gives how many it has then. Each child is given a part of
    // the weight, so on any words no more leaves are met than the weight says. The right child is the next turn: a call is made for a left child with children
    // alone.
    fn collect(
        &self,
        t: &mut [u32],
        node: Node<T>,
        taken: u32,
        weight: u32,
        fuel: u32,
    ) -> Result<u32, Damaged>
        requires { (runs_end (T.capacity self.now.tree) ≤ length t.old) × (T.end self.now.tree ≤ length t.old) }
        ensures { after result t.new
            ≡ collect♯ fuel (T.place self.now.tree) (T.capacity self.now.tree) (left_out self.now.but) weight node.0 taken t.old }
    {
        let capacity = self.tree.capacity();
        let mut at = node;
        let mut got = taken;
        let mut rest = weight;
        for turn in 0..fuel {
            let left = fuel - turn - 1;
            if capacity <= got {
                return Err(Damaged);
            }
            let name = at.slot();
            if at.is_leaf() {
                return self.take(t, name, got);
            }
            if capacity <= name {
                return Err(Damaged);
            }
            let p = Record::load(t, self.tree, name);
            let l = p.left;
            let r = p.right;
            let part = l.weight;
            if part == 0 || rest <= part {
                return Err(Damaged);
            }
            let below = l.node;
            if below.is_leaf() {
                if left == 0 {
                    return Err(Damaged);
                }
                got = self.take(t, below.slot(), got)?;
            } else {
                got = self.collect(t, below, got, part, left)?;
            }
            rest -= part;
            at = r.node;
        }
        Err(Damaged)
    }
}

impl<T: Tree> Node<T> {
    // Whether the slots of its tree, of that weight, are `many`, the slot `but` left out if one is given: some, and no more than the capacity. They stand in
    // run A then, in order. (A call of its own: put in place it takes registers from the ways down that seldom come to it.)
    #[inline(never)]
    pub fn gather(self, t: &mut [u32], tree: T, weight: u32, but: Option<u32>, many: u32) -> bool
        requires { (runs_end (T.capacity tree) ≤ length t.old) × (T.end tree ≤ length t.old) }
        ensures is { after result t.new ≡ gather♯ (T.place tree) (T.capacity tree) (left_out but) many weight self.0 t.old }
        ensures fits { result ≡ true → (0 < many) × (many ≤ T.capacity tree) }
    {
        let capacity = tree.capacity();
        if capacity < weight || capacity < many || many == 0 {
            return false;
        }
        let collecting = Collecting { tree, but };
        let got = collecting.collect(t, self, 0, weight, limits::DEEPEST);
        got == Ok(many)
    }
}
