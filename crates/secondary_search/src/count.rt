// Counting in an auxiliary tree. The words lent are the records of the tree's level and nothing else, so that a walk adds no base to a place: a node is of a
// slot of the table if it has a record among them.
ghost use Rattle.std.specs.Prelude.{◌≡◌, ◌/◌, true, false, leb, MatchOption};
ghost use Rattle.geometry.specs.Values.{box_value};
ghost use Rattle.table.specs.Layout.{record_place};
ghost use Rattle.table.specs.Figures.{arrived};
ghost use Rattle.nodes.specs.Arms.{record_at};
ghost use Rattle.nodes.specs.Values.{arm_value, record_value};
ghost use Rattle.secondary_search.specs.Count.{records, Records, auxiliary, count♯};

use crate::search;
use crate::search::Search;
use geometry::Box;
use nodes::arm::Arm;
use nodes::record::Record;
use nodes::secondary::{Secondary, SecondaryNode};
use table::figures::Figures;

// The records of a level.
#[derive(Clone, Copy)]
struct Level<'a> {
    t: &'a [u32],
    ghost whole: { Records t.now },
}

impl<'a> Search for Level<'a> {
    type Of = Secondary;

    ghost how = { auxiliary };

    ghost words = { λ level. level.t.now };

    ghost capacity = { λ level. records level.t.now };

    ghost base = { λ level. 0 };

    fn record(self, node: SecondaryNode) -> Option<Record<Secondary>>
        ensures { MatchOption result (leb (records self.entry.t.now) (node.0 / 2) ≡ true) (λ p.
            (leb (records self.entry.t.now) (node.0 / 2) ≡ false) × (record_value p ≡ record_at self.entry.t.now (record_place 0 (node.0 / 2)))) }
    {
        let at = node.place();
        if at < self.t.len() {
            return Some(Record::read(self.t, at));
        }
        None
    }

    // All its records are in one level.
    fn deeper(self) -> Level<'a> {
        self
    }

    fn take(self, b: Box, a: Arm<Secondary>, tally: Figures) -> Figures
        ensures { result.0 ≡ arrived tally.0 a.weight a.grades }
    {
        tally.take(a.weight, a.grades)
    }
}

// The figures of a tree's marks on the box's side, and the visits, onto a tally.
pub fn count(t: &[u32], b: Box, root: Arm<Secondary>, from: Figures) -> Figures
    requires { Records t.now }
    ensures { result.0 ≡ count♯ t.now (records t.now) (box_value b) 0 (arm_value root) from.0 }
{
    search::count(Level { t }, b, root, from)
}
