// The strike from a tree of either kind: down from the root by the order, records written on the way back. Where a node will not be balanced, it is built
// afresh of its other slots.
ghost use Rattle.std.specs.Prelude.{◌≡◌, ℕ, ◌<◌, ◌≤◌, length};
ghost use Rattle.geometry.specs.Values.{mark_value};
ghost use Rattle.table.specs.After.{after};
ghost use Rattle.nodes.specs.Values.{arm_value, way_value};
ghost use Rattle.secondary_update.specs.Strike.{Lent, Writing, How, strike_over, strike_here, strike_beneath♯};
ghost use Rattle.secondary_update.specs.Values.{struck_value, strike_outcome, written_if};

use geometry::Mark;
use nodes::arm::{Arm, Node};
use nodes::record::{Record, Way};
use nodes::tree::Tree;
use nodes::{arm, weights};
use table::damage::Damaged;

// What a strike leaves of a tree of either kind: its arm, the weight of the node built afresh, or 0, and its least slot where the struck one was the least.
#[derive_where(Clone, Copy)]
pub struct Struck<T> {
    pub arm: Arm<T>,
    pub rebuilt: u32,
    pub first: u32,
}

// What is struck: a mark, and the slot in which it stands.
#[derive(Clone, Copy)]
pub struct Target {
    pub mark: Mark,
    pub slot: u32,
}

// A kind of tree that is struck from, and the depth of the nodes that the strike has come to.
pub trait Striking: Copy {
    // The kind of the nodes.
    type Of: Tree;

    // What a node has beside its children, once the target is struck from it.
    type Beside: Copy;

    // How the mirrors go by it; the tree; where the level of the depth begins; and how a node is written.
    ghost how: { How };

    ghost tree: { Self → Self.Of };

    ghost base: { Self → ℕ };

    ghost writing: { Self → Self.Beside → Writing };

    fn tree(self) -> Self::Of
        ensures { result ≡ tree self };

    // One depth further down.
    fn deeper(self) -> Self
        ensures level { base result ≡ how.deeper (Self.Of.capacity (tree self)) (base self) }
        ensures same { tree result ≡ tree self };

    // Strikes from what the node of that name has beside its children.
    fn strike_beside(
        self,
        t: &mut [u32],
        name: u32,
        target: &Target,
    ) -> Result<Self::Beside, Damaged>
        requires { (name < Self.Of.capacity (tree self)) × Lent (Self.Of.capacity (tree self)) (Self.Of.end (tree self)) t.old }
        ensures { after (written_if (writing self) result) t.new
            ≡ how.beside (Self.Of.capacity (tree self)) (Self.Of.place (tree self)) (mark_value target.now.mark) target.now.slot (base self) name t.old };

    // Writes the node of that name over l and r.
    fn write(
        self,
        t: &mut [u32],
        beside: Self::Beside,
        name: u32,
        l: Arm<Self::Of>,
        r: Arm<Self::Of>,
        rebuilt: u32,
        first: u32,
    ) -> Struck<Self::Of>
        requires { (name < Self.Of.capacity (tree self)) × Lent (Self.Of.capacity (tree self)) (Self.Of.end (tree self)) t.old }
        ensures { after (struck_value result) t.new ≡ writing self beside name (arm_value l) (arm_value r) rebuilt first t.old };

    // The sibling of the struck leaf, in the place of their parent.
    fn lifted(self, t: &mut [u32], sibling: Arm<Self::Of>, first: u32) -> Struck<Self::Of>
        requires { Lent (Self.Of.capacity (tree self)) (Self.Of.end (tree self)) t.old }
        ensures { after (struck_value result) t.new ≡ how.lifted (Self.Of.capacity (tree self)) (base self) (arm_value sibling) first t.old };

    // Builds the tree of a node of that weight afresh without the slot s.
    fn afresh(
        self,
        t: &mut [u32],
        node: Node<Self::Of>,
        weight: u32,
        s: u32,
    ) -> Result<Struck<Self::Of>, Damaged>
        requires { (0 < Self.Of.capacity (tree self)) × Lent (Self.Of.capacity (tree self)) (Self.Of.end (tree self)) t.old }
        ensures { after (strike_outcome result) t.new
            ≡ how.afresh (Self.Of.capacity (tree self)) (Self.Of.place (tree self)) s (base self) weight node.0 t.old };
}

// Writes the node over what the strike left of the child on the mark's way, which is to have lost one mark, and the other child. Damage leaves no tree; but
// none is to be left of a child to which damaged words give one mark, so the weight tells.
#[inline]
#[tactic(auto, using(crate::proofs::Outcomes::outcome_unwrap_or), unfolding(crate::specs::Strike::strike_over))]
fn strike_over<S: Striking>(
    t: &mut [u32],
    here: S,
    beside: Result<S::Beside, Damaged>,
    name: u32,
    s: u32,
    v: Way<S::Of>,
    u: Result<Struck<S::Of>, Damaged>,
) -> Result<Struck<S::Of>, Damaged>
    requires { (name < S.Of.capacity (S.tree here)) × Lent (S.Of.capacity (S.tree here)) (S.Of.end (S.tree here)) t.old }
    ensures { after (strike_outcome result) t.new
        ≡ strike_over (written_if (S.writing here) beside) (S.Of.capacity (S.tree here)) s name (way_value v) (after (strike_outcome u) t.old) }
{
    let Struck {
        arm,
        rebuilt,
        first,
    } = u.unwrap_or(Struck {
        arm: Arm::none(),
        rebuilt: 0,
        first: 0,
    });
    if arm.weight != weights::fewer(v.child.weight) {
        return Err(Damaged);
    }
    let beside = beside?;
    if v.left {
        return Ok(here.write(t, beside, name, arm, v.sibling, rebuilt, first));
    }
    let named = arm::renamed(here.tree().capacity(), name, s, first);
    Ok(here.write(t, beside, named, v.sibling, arm, rebuilt, 0))
}

// Strikes at a node that is not balanced with one mark less: the struck leaf's sibling takes its place, or it is built afresh without the slot s.
#[inline]
fn strike_here<S: Striking>(
    t: &mut [u32],
    here: S,
    node: Node<S::Of>,
    weight: u32,
    name: u32,
    v: Way<S::Of>,
    s: u32,
) -> Result<Struck<S::Of>, Damaged>
    requires { (0 < S.Of.capacity (S.tree here)) × Lent (S.Of.capacity (S.tree here)) (S.Of.end (S.tree here)) t.old }
    ensures { after (strike_outcome result) t.new
        ≡ strike_here S.how (S.Of.capacity (S.tree here)) (S.Of.place (S.tree here)) s name (way_value v) (S.base here) weight node.0 t.old }
{
    if v.child.weight == 1 {
        return Ok(here.lifted(t, v.sibling, arm::first_left(v.left, name)));
    }
    here.afresh(t, node, weight, s)
}

// Strikes beneath an inner node of that number and weight. A node of no slot is damage, and so is a child that does not lose one mark.
// Where what the node has beside its children is damaged, the child is struck all the same: which words damage leaves is told too.
pub fn strike_beneath<S: Striking>(
    t: &mut [u32],
    here: S,
    node: Node<S::Of>,
    weight: u32,
    target: &Target,
    fuel: u32,
) -> Result<Struck<S::Of>, Damaged>
    requires { Lent (S.Of.capacity (S.tree here)) (S.Of.end (S.tree here)) t.old }
    ensures { after (strike_outcome result) t.new
        ≡ strike_beneath♯ S.Of.Along.along S.how (S.Of.capacity (S.tree here)) (S.Of.place (S.tree here)) (mark_value target.now.mark) target.now.slot fuel
        (S.base here) weight node.0 t.old }
{
    if fuel == 0 {
        return Err(Damaged);
    }
    let tree = here.tree();
    let capacity = tree.capacity();
    let name = node.slot();
    if capacity <= name {
        return Err(Damaged);
    }
    let v = Record::way(t, tree, name, target.mark);
    let child = v.child;
    let sibling = v.sibling;
    if weights::disagree(child.weight, sibling.weight, weight) {
        return Err(Damaged);
    }
    if weights::stays_balanced(child.weight, sibling.weight) {
        let beside = here.strike_beside(t, name, target);
        let u = strike_beneath(t, here.deeper(), child.node, child.weight, target, fuel - 1);
        return strike_over(t, here, beside, name, target.slot, v, u);
    }
    strike_here(t, here, node, weight, name, v, target.slot)
}
