// The auxiliary tree of a main node, as it is walked.
ghost use Rattle.std.specs.Prelude.{◌<◌, ◌≤◌, length};
ghost use Rattle.table.specs.Layout.{level_end};
ghost use Rattle.checking.specs.Span.{any_node};
ghost use Rattle.checking.specs.Trees.{auxiliary_slot♯};
ghost use Rattle.nodes.specs.Trees.{level_before_end};
ghost use Rattle.std.proofs.Common.{arith};

use crate::checked::Checked;
use crate::ends::Ends;
use crate::walk::Walk;
use geometry::{AlongX, Axis};
use nodes::secondary::Secondary;

// The auxiliary tree of a main node whose least and greatest slots are `first` and `last`; its records stand in the level that begins at base.
#[derive(Clone, Copy)]
pub struct AuxiliaryTree<'a> {
    pub of: Checked<'a>,
    pub base: u32,
    pub first: u32,
    pub last: u32,
    pub ghost ends_there: { (first < of.capacity) × (last < of.capacity) },
    pub ghost level_there: { level_end base of.capacity ≤ length of.t.now },
}

impl<'a> Walk<Secondary> for AuxiliaryTree<'a> {
    ghost of = { λ w. w.of };

    ghost tree = { λ w. record { base = w.base; capacity = w.of.capacity } };

    ghost slot = { λ w. auxiliary_slot♯ w.of.capacity w.of.live w.first w.last w.of.t.now };

    // The level stays the same, and the nodes carry nothing that stands in the words.
    ghost next = { λ w base. base };

    ghost test = { λ w base name weight. any_node };

    ghost record_there = { λ w name h. Prim.omega (arith, level_before_end w.base w.of.capacity name h, w.level_there) };

    fn of(&self) -> Checked<'_> {
        self.of
    }

    fn tree(&self) -> Secondary {
        Secondary {
            base: self.base,
            capacity: self.of.capacity,
        }
    }

    // A slot holds a mark, not below that of the node's least slot nor above that of the greatest.
    fn may_stand(&self, s: u32) -> bool {
        let k = self.of;
        let m = k.mark(s);
        k.is_live(s)
            && !AlongX::below(m, k.mark(self.first))
            && !AlongX::below(k.mark(self.last), m)
    }

    fn beneath(&self, base: u32) -> u32 {
        base
    }

    fn passes(&self, _base: u32, _name: u32, _weight: u32, _x: Ends) -> bool {
        true
    }
}
