// The way of an insertion down from an arm, whatever tree the mark is put into. Each arm on the way is written once, before the next is looked at.
ghost use Rattle.std.specs.Prelude.{◌≡◌, ℕ, suc, Bool, List, ◌-◌, ◌<◌, ◌≤◌, length, IfOk};
ghost use Rattle.model.specs.Sheet.{Mark as MarkValue};
ghost use Rattle.geometry.specs.Values.{mark_value};
ghost use Rattle.table.specs.After.{After, after};
ghost use Rattle.table.specs.Damage.{figure_of};
ghost use Rattle.table.specs.Layout.{runs_end};
ghost use Rattle.table.specs.Limits.{damaged, deepest};
ghost use Rattle.secondary_update.specs.Insert.{Steps, turn♯, There};

use crate::insert::split;
use geometry::{Axis, Mark};
use nodes::arm::Arm;
use nodes::record::Record;
use nodes::tree::Tree;
use nodes::weights;
use table::damage::Damaged;
use table::limits;

// A tree that a mark is put into, at one depth of it: what is done there beside the arms and the records.
pub trait Insertion<T: Tree>: Copy {
    ghost tree: { Self → T };

    // What is done, for a mark and its slot, with so many turns left; what the insertion of so many turns leaves; and the most marks that it builds afresh.
    ghost steps: { Self → MarkValue → ℕ → ℕ → Steps };

    ghost rest: { Self → MarkValue → ℕ → ℕ → ℕ → List ℕ → After ℕ };

    ghost most: { Self → ℕ };

    // Whether a node that would not be balanced is built afresh, with the mark in it.
    const MENDS: bool;

    ghost MENDS: { Bool };

    fn tree(self) -> T
        ensures { result ≡ tree self };

    // One depth further down.
    fn deeper(self) -> Self
        ensures tree { tree result ≡ tree self }
        ensures most { most result ≡ most self }
        ensures rest { (m : MarkValue) (s turns at : ℕ) (xs : List ℕ) → rest result m s turns at xs ≡ (steps self m s turns).onward at xs };

    // Puts the mark m of slot s into what the node of that name carries.
    fn grow(self, t: &mut [u32], name: u32, m: Mark, s: u32) -> Result<u32, Damaged>
        requires { (name < T.capacity (tree self)) × (s < T.capacity (tree self)) × (runs_end (T.capacity (tree self)) ≤ length t.old) }
        ensures { (turns : ℕ) → after (figure_of result) t.new ≡ (steps self (mark_value m) s turns).grow name t.old };

    // Makes what the node carries that was made of the leaf of slot k and the mark m of slot s.
    fn begin(self, t: &mut [u32], made: u32, k: u32, m: Mark, s: u32) -> Result<u32, Damaged>
        requires { (made < T.capacity (tree self)) × (k < T.capacity (tree self)) × (s < T.capacity (tree self))
            × (runs_end (T.capacity (tree self)) ≤ length t.old) }
        ensures is { (turns : ℕ) → after (figure_of result) t.new ≡ (steps self (mark_value m) s turns).begin made k t.old }
        ensures within { IfOk result (λ n. n ≤ most self) };

    // Puts the mark m of slot s beneath the arm at the word `at`, and builds that tree afresh; `turn` is the next turn.
    fn mend(self, t: &mut [u32], at: usize, m: Mark, s: u32, turn: u32) -> Result<u32, Damaged>
        requires { (s < T.capacity (tree self)) × There (T.end (tree self)) (T.capacity (tree self)) at t.old }
        ensures is { after (figure_of result) t.new ≡ (steps self (mark_value m) s (deepest - turn)).mend at t.old }
        ensures within { IfOk result (λ n. n ≤ most self) };

    ghost used_up: { (i : Self) (m : MarkValue) (s at : ℕ) (xs : List ℕ) → rest i m s 0 at xs ≡ after damaged xs };

    ghost turns: { (i : Self) (m : MarkValue) (s turns at : ℕ) (xs : List ℕ) → rest i m s (suc turns) at xs
        ≡ turn♯ T.Along.along (T.capacity (tree i)) (T.place (tree i)) MENDS m s (steps i m s turns) at xs };
}

// Inserts the mark m of slot s beneath the arm at the word `start`, from the turn `first` of the way on; gives the weight of the node built afresh, or 0. A
// node of no slot is damage.
pub fn descend<T: Tree, I: Insertion<T>>(
    t: &mut [u32],
    from: I,
    start: usize,
    m: Mark,
    s: u32,
    first: u32,
) -> Result<u32, Damaged>
    requires { (s < T.capacity (I.tree from)) × There (T.end (I.tree from)) (T.capacity (I.tree from)) start t.old }
    ensures is { after (figure_of result) t.new ≡ I.rest from (mark_value m) s (deepest - first) start t.old }
    ensures within { IfOk result (λ n. n ≤ I.most from) }
{
    let tree = from.tree();
    let mut here = from;
    let mut at = start;
    for turn in first..limits::DEEPEST {
        let a = Arm::load(t, at);
        let name = a.node.slot();
        if tree.capacity() <= name {
            return Err(Damaged);
        }
        if a.node.is_leaf() {
            let made = split(t, tree, at, a, m, s);
            return here.begin(t, made, name, m, s);
        }
        let fork = Record::fork(t, tree, name, m);
        if weights::disagree(fork.child, fork.sibling, a.weight) {
            return Err(Damaged);
        }
        if weights::unbalances(I::MENDS, fork.child, fork.sibling) {
            return here.mend(t, at, m, s, turn + 1);
        }
        Arm::store(t, at, a.grown(T::Along::at(m), m.grade));
        here.grow(t, name, m, s)?;
        here = here.deeper();
        at = Record::child(tree, name, fork.left);
    }
    Err(Damaged)
}
