// The main tree, as it is walked, and from each of its inner nodes the node's auxiliary tree.
ghost use Rattle.std.specs.Prelude.{◌≡◌, ◌<◌};
ghost use Rattle.checking.specs.Trees.{main_slot♯, auxiliary_stands♯};
ghost use Rattle.twofold_layout.specs.Levels.{deeper};
ghost use Rattle.std.proofs.Common.{arith};

use crate::auxiliary_tree::AuxiliaryTree;
use crate::checked::Checked;
use crate::ends::Ends;
use crate::walk::{self, Walk};
use nodes::primary::Primary;
use nodes::secondary::Secondary;
use table::limits;
use twofold_layout::levels;

// The main tree of a table.
#[derive(Clone, Copy)]
pub struct MainTree<'a> {
    pub of: Checked<'a>,
}

impl<'a> Walk<Primary> for MainTree<'a> {
    ghost of = { λ w. w.of };

    ghost tree = { λ w. record { capacity = w.of.capacity } };

    ghost slot = { λ w. main_slot♯ w.of.capacity w.of.live w.of.t.now };

    ghost next = { λ w base. deeper base w.of.capacity };

    ghost test = { λ w. auxiliary_stands♯ w.of.capacity w.of.live w.of.t.now };

    ghost record_there = { λ w name h. Prim.omega (arith, h, w.of.slots_there) };

    fn of(&self) -> Checked<'_> {
        self.of
    }

    fn tree(&self) -> Primary {
        Primary {
            capacity: self.of.capacity,
        }
    }

    // A slot holds a mark, with coordinates of the sheet and a grade.
    fn may_stand(&self, s: u32) -> bool {
        let m = self.of.mark(s);
        self.of.is_live(s) && !m.is_outside() && !m.is_ungraded()
    }

    fn beneath(&self, base: u32) -> u32 {
        levels::deeper(base, self.of.capacity)
    }

    // The auxiliary tree of the node stands, and has as many marks as the node. Whether the level is there is tested here, once for the whole tree.
    fn passes(&self, base: u32, name: u32, weight: u32, x: Ends) -> bool {
        let level = Secondary {
            base,
            capacity: self.of.capacity,
        };
        if level.lacks_level(self.of.t) {
            return false;
        }
        let tree = AuxiliaryTree {
            of: self.of,
            base,
            first: x.first,
            last: x.last,
        };
        let a = Primary::load_auxiliary(self.of.t, name);
        a.weight == weight && walk::span(&tree, base, a, limits::DEEPEST).is_some()
    }
}
