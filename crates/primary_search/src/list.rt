// Listing: the same search, which writes each mark that it meets.
ghost use Rattle.std.specs.Prelude.{◌≡◌, false, ◌<◌, ◌≤◌, length};
ghost use Rattle.geometry.specs.Values.{box_value};
ghost use Rattle.nodes.specs.Values.{arm_value};
ghost use Rattle.table.specs.After.{after};
ghost use Rattle.table.specs.Layout.{slots_end};
ghost use Rattle.primary_search.specs.List.{stops, list_leaf♯, list_over♯, list_beneath♯, list_from♯};

use geometry::{AlongX, Axis, Box};
use nodes::arm::Arm;
use nodes::primary::Primary;
use nodes::record::Record;
use nodes::secondary::Secondary;
use table::tally::Tally;
use table::{layout, limits, slots};
use twofold_layout::levels;

// What is listed: the marks of a box, at most `most` visits in all, in words that have the slots of that capacity. List and tally are handed from node to node;
// the marks found so far tell the place in the list.
#[derive(Clone, Copy)]
struct Listing<'a> {
    t: &'a [u32],
    capacity: u32,
    b: Box,
    most: u32,
    ghost slots_there: { slots_end capacity ≤ length t.now },
}

impl<'a> Listing<'a> {
    // Whether it stops at the node of slot s: its visits are used up, or the node is of no slot.
    #[tactic(auto, unfolding(crate::specs::List::stops))]
    fn stops(&self, s: u32, tally: Tally) -> bool
        ensures is { result ≡ stops self.now.capacity s self.now.most tally.0 }
        ensures there { result ≡ false → s < self.now.capacity }
    {
        self.most <= tally.visits() || self.capacity <= s
    }

    // The arrival at the leaf of slot s.
    fn leaf(&self, s: u32, out: &mut [u32], tally: Tally) -> Tally
        requires { s < self.now.capacity }
        ensures { after result.0 out.new ≡ list_leaf♯ self.now.t.now (box_value self.now.b) s tally.0 out.old }
    {
        let m = slots::load(self.t, s);
        if self.b.holds(m) {
            slots::put_listed(out, tally.found(), m);
            return tally.take(1);
        }
        tally.visit()
    }

    // The inner node named s, visited, hands over to its auxiliary tree, whose level begins at `base`: here it is told once that the words have it all.
    fn over(&self, base: u32, s: u32, out: &mut [u32], tally: Tally) -> Tally
        requires { s < self.now.capacity }
        ensures { after result.0 out.new
            ≡ list_over♯ self.now.t.now self.now.capacity (box_value self.now.b) self.now.most base s tally.0 out.old }
    {
        let capacity = self.capacity;
        let level = Secondary { base, capacity };
        if level.lacks_level(self.t) {
            return Tally::lost();
        }
        let root = Primary::load_auxiliary(self.t, s);
        secondary_search::list::list(self.t, level, self.b, root, out, tally, self.most)
    }

    // Lists beneath an arm of a depth, where the level of its auxiliary trees begins at `base`.
    #[tactic(auto, using(crate::proofs::Walks::lists), unfolding(crate::specs::List::list_arm, crate::specs::List::list_inner))]
    fn beneath(&self, base: u32, a: Arm<Primary>, out: &mut [u32], tally: Tally, fuel: u32) -> Tally
        ensures { after result.0 out.new
            ≡ list_beneath♯ fuel self.now.t.now self.now.capacity (box_value self.now.b) self.now.most base (arm_value a) tally.0 out.old }
    {
        if fuel == 0 {
            return Tally::lost();
        }
        let node = a.node;
        let s = node.slot();
        if self.stops(s, tally) {
            return Tally::lost();
        }
        if node.is_leaf() {
            return self.leaf(s, out, tally);
        }
        let here = tally.visit();
        if AlongX::inside(self.b, a.least, a.greatest) {
            return self.over(base, s, out, here);
        }
        if AlongX::clear(self.b, a.least, a.greatest) {
            return here;
        }
        let capacity = self.capacity;
        let p = Record::load(self.t, Primary { capacity }, s);
        let l = p.left;
        let r = p.right;
        let next = levels::deeper(base, capacity);
        let half = self.beneath(next, l, out, here, fuel - 1);
        self.beneath(next, r, out, half, fuel - 1)
    }
}

// Lists the marks of the table that the box holds, four words a mark, as the search meets them, and gives the tally: at most `most` visits.
#[tactic(auto, unfolding(crate::specs::List::list_root))]
pub fn list(t: &[u32], capacity: u32, b: Box, out: &mut [u32], most: u32) -> Tally
    requires { slots_end capacity ≤ length t.now }
    ensures { after result.0 out.new ≡ list_from♯ t.now capacity (box_value b) most out.old }
{
    let root = Arm::load(t, layout::ROOT);
    if root.weight == 0 {
        return Tally::none();
    }
    let listing = Listing {
        t,
        capacity,
        b,
        most,
    };
    listing.beneath(
        levels::top(capacity),
        root,
        out,
        Tally::none(),
        limits::DEEPEST,
    )
}
