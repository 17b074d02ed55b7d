// Counting, in a tree of either kind: the planner's inner loop. In an ordered tree the box's side begins in one child of a node and ends in one: the search
// goes down to the node where the two ends part, and from there beneath each child with one end to look for. A node that is of no slot is damage.
ghost use Rattle.std.specs.Prelude.{◌≡◌, ℕ, ◌/◌, List, true, false, leb, MatchOption};
ghost use Rattle.geometry.specs.Values.{box_value};
ghost use Rattle.table.specs.Limits.{deepest};
ghost use Rattle.nodes.specs.Arms.{record_at};
ghost use Rattle.nodes.specs.Values.{arm_value, record_value};
ghost use Rattle.secondary_search.specs.Search.{How, to_end♯, meet_end♯, opened♯, count_tree♯};

use crate::end::{End, High, Low};
use geometry::{Axis, Box};
use nodes::arm::{Arm, Node};
use nodes::record::Record;
use nodes::tree::Tree;
use table::figures::Figures;
use table::limits;

// Words in which a tree of a kind is counted, and the depth of the nodes that the search has come to.
pub trait Search: Copy {
    // The kind of the nodes.
    type Of: Tree;

    // How the mirrors go by it; the words, of how many slots they have the nodes, and where the level of the depth begins.
    ghost how: { How };

    ghost words: { Self → List ℕ };

    ghost capacity: { Self → ℕ };

    ghost base: { Self → ℕ };

    // The arms of a node's children, if it is of a slot.
    fn record(self, node: Node<Self::Of>) -> Option<Record<Self::Of>>
        ensures { MatchOption result (leb (capacity self) (node.0 / 2) ≡ true) (λ p.
            (leb (capacity self) (node.0 / 2) ≡ false) × (record_value p ≡ record_at (words self) (how.place (base self) (node.0 / 2)))) };

    // One depth further down.
    fn deeper(self) -> Self
        ensures level { base result ≡ how.deeper (capacity self) (base self) }
        ensures same { capacity result ≡ capacity self }
        ensures words { words result ≡ words self };

    // The arrival at a tree inside the box's side.
    fn take(self, b: Box, a: Arm<Self::Of>, tally: Figures) -> Figures
        ensures { result.0 ≡ how.take (capacity self) (words self) (box_value b) (base self) (arm_value a) tally.0 };
}

// Beneath a node in which the end lies, and the other one does not. Either it lies in the inner child, and the outer one is beyond it, or the inner child is
// inside the side.
#[tactic(auto, using(crate::proofs::Ends::end_turns), unfolding(crate::specs::End::end_node))]
fn to_end<E: End, S: Search>(at: S, b: Box, start: Node<S::Of>, from: Figures) -> Figures
    ensures { result.0
        ≡ to_end♯ S.how S.Of.Along.along (S.capacity at) (S.words at) (box_value b) E.end deepest (S.base at) start.0 from.0 }
{
    let mut here = at;
    let mut node = start;
    let mut tally = from;
    for turn in 0..limits::DEEPEST {
        let Some(p) = here.record(node) else {
            return Figures::lost();
        };
        let (inner, outer) = E::inner_first(p.left, p.right);
        here = here.deeper();
        if E::reaches_beyond::<<S::Of as Tree>::Along>(b, inner.least, inner.greatest) {
            tally = E::skip(tally, outer.weight).visit();
            node = inner.node;
        } else {
            tally = here.take(b, inner, tally);
            if E::lies_beyond::<<S::Of as Tree>::Along>(b, outer.least, outer.greatest) {
                return E::skip(tally, outer.weight);
            }
            tally = tally.visit();
            node = outer.node;
        }
    }
    Figures::lost()
}

// The arrival at a tree in which the other end does not lie.
#[tactic(auto, using(crate::proofs::Ends::skips), unfolding(crate::specs::End::meet_end))]
fn meet_end<E: End, S: Search>(here: S, b: Box, a: Arm<S::Of>, tally: Figures) -> Figures
    ensures { result.0 ≡ meet_end♯ S.how S.Of.Along.along (S.capacity here) (S.words here) (box_value b) E.end (S.base here) (arm_value a) tally.0 }
{
    if E::lies_beyond::<<S::Of as Tree>::Along>(b, a.least, a.greatest) {
        return E::skip(tally, a.weight);
    }
    if E::reaches_beyond::<<S::Of as Tree>::Along>(b, a.least, a.greatest) {
        return to_end::<E, S>(here, b, a.node, tally.visit());
    }
    here.take(b, a, tally)
}

// Beneath a node whose cell is neither inside the side nor clear of it. Where the right child begins before the side, the left one ends before it; where the
// left child ends past the side, the right one begins past it.
#[tactic(auto, using(crate::proofs::Ends::open_turns), unfolding(nodes::specs::Count::open_node))]
fn opened<S: Search>(at: S, b: Box, start: Node<S::Of>, from: Figures) -> Figures
    ensures { result.0 ≡ opened♯ S.how S.Of.Along.along (S.capacity at) (S.words at) (box_value b) deepest (S.base at) start.0 from.0 }
{
    let mut here = at;
    let mut node = start;
    let mut tally = from;
    for turn in 0..limits::DEEPEST {
        let Some(p) = here.record(node) else {
            return Figures::lost();
        };
        let l = p.left;
        let r = p.right;
        here = here.deeper();
        if <S::Of as Tree>::Along::before(b, r.least) {
            tally = tally.before(l.weight).visit();
            node = r.node;
        } else if <S::Of as Tree>::Along::past(b, l.greatest) {
            tally = tally.past().visit();
            node = l.node;
        } else {
            let low = meet_end::<Low, S>(here, b, l, tally);
            return meet_end::<High, S>(here, b, r, low);
        }
    }
    Figures::lost()
}

// The figures of a tree's marks on the box's side, and the visits, onto a tally. Most trees begin before the side and end on it or past it: two comparisons
// tell that such a one is opened.
#[tactic(auto, unfolding(nodes::specs::Count::count_tree))]
pub fn count<S: Search>(here: S, b: Box, root: Arm<S::Of>, from: Figures) -> Figures
    ensures { result.0 ≡ count_tree♯ S.how S.Of.Along.along (S.capacity here) (S.words here) (box_value b) (S.base here) (arm_value root) from.0 }
{
    if <S::Of as Tree>::Along::before(b, root.least) {
        if <S::Of as Tree>::Along::before(b, root.greatest) {
            return from.before(root.weight);
        }
    } else if <S::Of as Tree>::Along::past(b, root.greatest) {
        if <S::Of as Tree>::Along::past(b, root.least) {
            return from.past();
        }
    } else {
        return here.take(b, root, from);
    }
    opened(here, b, root.node, from.visit())
}
