// Counting in a table: in its main tree, of which a node inside the box's side along x hands over to its auxiliary tree. A node that is of no slot of the table
// is damage.
ghost use Rattle.std.specs.Prelude.{◌≡◌, ◌+◌, ◌/◌, ◌≤◌, true, false, leb, length, MatchOption};
ghost use Rattle.model.specs.Sheet.{box};
ghost use Rattle.geometry.specs.Values.{box_value};
ghost use Rattle.table.specs.Layout.{mark_width, arm_width, slot_place, main_place, auxiliary_place, slots_end, level_end};
ghost use Rattle.nodes.specs.Arms.{record_at};
ghost use Rattle.nodes.specs.Values.{arm_value, record_value};
ghost use Rattle.primary_search.specs.Count.{level_records, leaf♯, hand_over♯, handed♯, main, main_search♯, count_from♯};

use geometry::Box;
use nodes::arm::Arm;
use nodes::primary::{Primary, PrimaryNode};
use nodes::record::Record;
use nodes::secondary::Secondary;
use secondary_search::search;
use secondary_search::search::Search;
use table::figures::Figures;
use table::{grades, layout, limits, slots};
use twofold_layout::levels;

// The arrival at the leaf of slot s.
fn leaf(t: &[u32], b: Box, s: u32, tally: Figures) -> Figures
    requires { slot_place s + mark_width ≤ length t.now }
    ensures { result.0 ≡ leaf♯ t.now (box_value b) s tally.0 }
{
    let m = slots::load(t, s);
    if b.holds(m) {
        return tally.take(1, grades::of_grade(m.grade));
    }
    tally.visit()
}

// The arrival at the inner node named s, which hands over to its auxiliary tree: here it is told once that the words have the whole level. Its records are lent
// by themselves, so that the walk adds no base to a place. The tree is searched by y alone: the ends of that side are handed on as numbers, in registers, where
// a Box would go through memory; the side along x of the one made here is empty, and nothing asks it. (The one real call of a count: all else is put in place.)
#[inline(never)]
fn hand_over(t: &[u32], level: Secondary, y1: u32, y2: u32, s: u32, tally: Figures) -> Figures
    requires { auxiliary_place s + arm_width ≤ length t.now }
    ensures { result.0 ≡ hand_over♯ t.now level.capacity (box 0 0 y1 y2) level.base s tally.0 }
{
    let end = level.level_end();
    if t.len() < end {
        return Figures::lost();
    }
    let root = Primary::load_auxiliary(t, s);
    let side = Box {
        x1: 0,
        x2: 0,
        y1,
        y2,
    };
    let records = &t[(level.base as usize)..end];
    secondary_search::count::count(records, side, root, tally.visit())
}

// The main tree at the nodes of one depth, by the level of their auxiliary trees, in words that have its slots.
#[derive(Clone, Copy)]
struct Depth<'a> {
    t: &'a [u32],
    level: Secondary,
    ghost slots_there: { slots_end level.capacity ≤ length t.now },
}

impl<'a> Depth<'a> {
    // The arrival at a node of that number whose cell is inside the box's side.
    fn handed(self, b: Box, node: PrimaryNode, tally: Figures) -> Figures
        ensures { result.0 ≡ handed♯ self.entry.t.now self.entry.level.capacity (box_value b) self.entry.level.base node.0 tally.0 }
    {
        let s = node.slot();
        if self.level.capacity <= s {
            return Figures::lost();
        }
        if node.is_leaf() {
            return leaf(self.t, b, s, tally);
        }
        hand_over(self.t, self.level, b.y1, b.y2, s, tally)
    }
}

impl<'a> Search for Depth<'a> {
    type Of = Primary;

    ghost how = { main };

    ghost words = { λ depth. depth.t.now };

    ghost capacity = { λ depth. depth.level.capacity };

    ghost base = { λ depth. depth.level.base };

    fn record(self, node: PrimaryNode) -> Option<Record<Primary>>
        ensures { MatchOption result (leb self.entry.level.capacity (node.0 / 2) ≡ true) (λ p.
            (leb self.entry.level.capacity (node.0 / 2) ≡ false) × (record_value p ≡ record_at self.entry.t.now (main_place (node.0 / 2)))) }
    {
        let s = node.slot();
        let capacity = self.level.capacity;
        if capacity <= s {
            return None;
        }
        Some(Record::load(self.t, Primary { capacity }, s))
    }

    fn deeper(self) -> Depth<'a> {
        Depth {
            t: self.t,
            level: levels::next(self.level),
        }
    }

    fn take(self, b: Box, a: Arm<Primary>, tally: Figures) -> Figures
        ensures { result.0 ≡ handed♯ self.entry.t.now self.entry.level.capacity (box_value b) self.entry.level.base a.node.0 tally.0 }
    {
        self.handed(b, a.node, tally)
    }
}

// The figures of the marks that the box holds of a tree whose root is at the depth of a level, with the visits, from the root's arm: of the table's tree, or of
// any that stands in its words.
pub fn search(t: &[u32], level: Secondary, b: Box, root: Arm<Primary>) -> Figures
    requires { slots_end level.capacity ≤ length t.now }
    ensures { result.0 ≡ main_search♯ t.now level.capacity (box_value b) level.base (arm_value root) }
{
    let node = root.node;
    let s = node.slot();
    if level.capacity <= s {
        return Figures::lost();
    }
    if node.is_leaf() {
        return leaf(t, b, s, Figures::none());
    }
    search::count(Depth { t, level }, b, root, Figures::none())
}

// The figures of the table's marks that the box of these sides holds, with the visits. Where they are more than a sound table's can be (sizes::Size), the words
// hold no tree. (Numbers in place of a Box: they reach the loop in registers.)
#[tactic(auto, unfolding(crate::specs::Count::count_root))]
pub fn count(t: &[u32], capacity: u32, x1: u32, x2: u32, y1: u32, y2: u32) -> Figures
    requires { slots_end capacity ≤ length t.now }
    ensures { result.0 ≡ count_from♯ t.now capacity (box x1 x2 y1 y2) }
{
    let root = Arm::load(t, layout::ROOT);
    if root.weight == 0 {
        return Figures::none();
    }
    let b = Box { x1, x2, y1, y2 };
    let base = levels::top(capacity);
    search(t, Secondary { base, capacity }, b, root)
}
