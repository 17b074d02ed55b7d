// Listing: the same search, which writes each mark that it meets.
ghost use Rattle.std.specs.Prelude.{◌≡◌, ◌≤◌, length};
ghost use Rattle.geometry.specs.Values.{box_value};
ghost use Rattle.nodes.specs.Values.{arm_value};
ghost use Rattle.table.specs.After.{after};
ghost use Rattle.table.specs.Layout.{slots_end, level_end};
ghost use Rattle.table.specs.Limits.{deepest};
ghost use Rattle.secondary_search.specs.List.{walk♯, list♯};

use geometry::{AlongY, Axis, Box};
use nodes::arm::Arm;
use nodes::record::Record;
use nodes::secondary::{Secondary, SecondaryNode};
use table::tally::Tally;
use table::{limits, slots};

// What is listed: the marks of an auxiliary tree on a box's side, at most `most` visits in all, in words that have the slots and the tree's records. List and
// tally are handed from node to node; the marks found so far tell the place in the list.
#[derive(Clone, Copy)]
struct Listing<'a> {
    t: &'a [u32],
    tree: Secondary,
    b: Box,
    most: u32,
    ghost slots_there: { slots_end tree.capacity ≤ length t.now },
    ghost records_there: { level_end tree.base tree.capacity ≤ length t.now },
}

impl<'a> Listing<'a> {
    // Writes the marks of every leaf beneath a node.
    #[tactic(auto, using(crate::proofs::Walks::walks), unfolding(crate::specs::List::walk_node, crate::specs::List::walk_leaf))]
    fn walk(&self, node: SecondaryNode, out: &mut [u32], tally: Tally, fuel: u32) -> Tally
        ensures { after result.0 out.new
            ≡ walk♯ fuel self.now.t.now self.now.tree.capacity self.now.tree.base self.now.most node.0 tally.0 out.old }
    {
        if fuel == 0 {
            return Tally::lost();
        }
        if self.most <= tally.visits() {
            return Tally::lost();
        }
        let s = node.slot();
        if self.tree.capacity <= s {
            return Tally::lost();
        }
        if node.is_leaf() {
            slots::put_listed(out, tally.found(), slots::load(self.t, s));
            return tally.take(1);
        }
        let p = Record::load(self.t, self.tree, s);
        let l = p.left;
        let r = p.right;
        let here = tally.visit();
        let half = self.walk(l.node, out, here, fuel - 1);
        self.walk(r.node, out, half, fuel - 1)
    }

    // Writes those beneath an arm that are on the side.
    #[tactic(auto, using(crate::proofs::Walks::lists), unfolding(crate::specs::List::list_node, crate::specs::List::list_record))]
    fn beneath(&self, a: Arm<Secondary>, out: &mut [u32], tally: Tally, fuel: u32) -> Tally
        ensures { after result.0 out.new
            ≡ list♯ fuel self.now.t.now self.now.tree.capacity self.now.tree.base (box_value self.now.b) self.now.most (arm_value a) tally.0 out.old }
    {
        if fuel == 0 {
            return Tally::lost();
        }
        if self.most <= tally.visits() {
            return Tally::lost();
        }
        let node = a.node;
        if AlongY::inside(self.b, a.least, a.greatest) {
            return self.walk(node, out, tally, fuel);
        }
        let here = tally.visit();
        if AlongY::clear(self.b, a.least, a.greatest) {
            return here;
        }
        let s = node.slot();
        if self.tree.capacity <= s {
            return Tally::lost();
        }
        let p = Record::load(self.t, self.tree, s);
        let l = p.left;
        let r = p.right;
        let half = self.beneath(l, out, here, fuel - 1);
        self.beneath(r, out, half, fuel - 1)
    }
}

// Lists the marks of a tree on the box's side, and adds the visits to a tally, at most `most` in all.
pub fn list(
    t: &[u32],
    tree: Secondary,
    b: Box,
    root: Arm<Secondary>,
    out: &mut [u32],
    tally: Tally,
    most: u32,
) -> Tally
    requires { (slots_end tree.capacity ≤ length t.now) × (level_end tree.base tree.capacity ≤ length t.now) }
    ensures { after result.0 out.new
        ≡ list♯ deepest t.now tree.capacity tree.base (box_value b) most (arm_value root) tally.0 out.old }
{
    Listing { t, tree, b, most }.beneath(root, out, tally, limits::DEEPEST)
}
