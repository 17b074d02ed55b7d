// Insertion into a tree by itself: into an auxiliary tree, which is mended, and into a tree of either kind, which is not.
ghost use Rattle.std.specs.Prelude.{◌≡◌, refl, true, false, ◌-◌, ◌/◌, ◌<◌, ◌≤◌, length, IfOk};
ghost use Rattle.model.specs.Sheet.{along_y};
ghost use Rattle.geometry.specs.Values.{mark_value};
ghost use Rattle.table.specs.After.{after};
ghost use Rattle.table.specs.Damage.{figure_of, done_of};
ghost use Rattle.table.specs.Layout.{record_place, runs_end};
ghost use Rattle.table.specs.Limits.{deepest};
ghost use Rattle.nodes.specs.Values.{arm_value};
ghost use Rattle.secondary_update.specs.Insert.{split♯, split_name, There, insert♯, auxiliary_insert♯, insert♯-zero};
ghost use Rattle.secondary_update.specs.Insert.{mending_steps, alone_steps, mending-turns, alone-turns};

use crate::descent::{Insertion, descend};
use geometry::{Axis, Mark};
use nodes::arm::Arm;
use nodes::primary::Primary;
use nodes::record::Record;
use nodes::secondary::Secondary;
use nodes::tree::Tree;
use table::damage::Damaged;
use table::{limits, slots};

// Makes a node of a leaf and the mark m of slot s in a tree of either kind, the smaller left, named by the larger; its arm goes to the word `at`. Gives the
// name.
#[inline]
pub fn split<T: Tree>(t: &mut [u32], tree: T, at: usize, q: Arm<T>, m: Mark, s: u32) -> u32
    requires { ((arm_value q).node / 2 < T.capacity tree) × (s < T.capacity tree) × There (T.end tree) (T.capacity tree) at t.old }
    ensures name { result ≡ split_name T.Along.along (mark_value m) s (arm_value q) t.old }
    ensures slot { result < T.capacity tree }
    ensures words { t.new ≡ split♯ T.Along.along (T.place tree) (mark_value m) s at (arm_value q) t.old }
{
    let new = Arm::leaf(s, T::Along::at(m), m.grade);
    let name = q.node.slot();
    if T::Along::below(m, slots::load(t, name)) {
        Record::store(t, tree, name, new, q);
        Arm::store(t, at, Arm::over(name, new, q));
        return name;
    }
    Record::store(t, tree, s, q, new);
    Arm::store(t, at, Arm::over(s, q, new));
    s
}

// A tree by itself, whose nodes carry nothing, and of which nothing is mended.
#[derive(Clone, Copy)]
struct Alone<T> {
    tree: T,
}

impl<T: Tree> Insertion<T> for Alone<T> {
    ghost tree = { λ alone. alone.tree };

    ghost steps = { λ alone. alone_steps T.Along.along (T.capacity alone.tree) (T.place alone.tree) };

    ghost rest = { λ alone m s turns. insert♯ T.Along.along turns (T.capacity alone.tree) (T.place alone.tree) m s false };

    ghost most = { λ alone. 0 };

    const MENDS: bool = false;

    ghost MENDS = { false };

    fn tree(self) -> T {
        self.tree
    }

    fn deeper(self) -> Alone<T> {
        self
    }

    fn grow(self, t: &mut [u32], name: u32, m: Mark, s: u32) -> Result<u32, Damaged> {
        Ok(0)
    }

    fn begin(self, t: &mut [u32], made: u32, k: u32, m: Mark, s: u32) -> Result<u32, Damaged> {
        Ok(0)
    }

    // Never asked.
    fn mend(self, t: &mut [u32], at: usize, m: Mark, s: u32, turn: u32) -> Result<u32, Damaged> {
        Err(Damaged)
    }

    ghost used_up = { λ alone m s. insert♯-zero 0 refl T.Along.along (T.capacity alone.tree) (T.place alone.tree) m s false };

    ghost turns = { λ alone. alone-turns T.Along.along (T.capacity alone.tree) (T.place alone.tree) };
}

// Inserts the mark m of slot s beneath the arm at the word `at` of a tree of either kind alone, from a turn of the way on. Nothing is mended.
pub fn put<T: Tree>(
    t: &mut [u32],
    tree: T,
    at: usize,
    m: Mark,
    s: u32,
    turn: u32,
) -> Result<(), Damaged>
    requires { (s < T.capacity tree) × There (T.end tree) (T.capacity tree) at t.old }
    ensures { after (done_of result) t.new
        ≡ insert♯ T.Along.along (deepest - turn) (T.capacity tree) (T.place tree) (mark_value m) s false at t.old }
{
    descend(t, Alone { tree }, at, m, s, turn)?;
    Ok(())
}

// An auxiliary tree. Its unbalanced node nearest the root is built afresh once the mark is in: from there on nothing is mended.
#[derive(Clone, Copy)]
struct Mending {
    tree: Secondary,
}

impl Insertion<Secondary> for Mending {
    ghost tree = { λ mending. mending.tree };

    ghost steps = { λ mending. mending_steps along_y mending.tree.capacity (record_place mending.tree.base) };

    ghost rest = { λ mending m s turns. insert♯ along_y turns mending.tree.capacity (record_place mending.tree.base) m s true };

    ghost most = { λ mending. mending.tree.capacity };

    const MENDS: bool = true;

    ghost MENDS = { true };

    fn tree(self) -> Secondary {
        self.tree
    }

    fn deeper(self) -> Mending {
        self
    }

    fn grow(self, t: &mut [u32], name: u32, m: Mark, s: u32) -> Result<u32, Damaged> {
        Ok(0)
    }

    fn begin(self, t: &mut [u32], made: u32, k: u32, m: Mark, s: u32) -> Result<u32, Damaged> {
        Ok(0)
    }

    fn mend(self, t: &mut [u32], at: usize, m: Mark, s: u32, turn: u32) -> Result<u32, Damaged> {
        put(t, self.tree, at, m, s, turn)?;
        let a = Arm::load(t, at);
        let fresh = secondary_build::build::rebuild(
            t, self.tree, a.node, a.weight, None, a.weight,
        )?;
        Arm::store(t, at, fresh);
        Ok(a.weight)
    }

    ghost used_up = { λ mending m s. insert♯-zero 0 refl along_y mending.tree.capacity (record_place mending.tree.base) m s true };

    ghost turns = { λ mending. mending-turns along_y mending.tree.capacity (record_place mending.tree.base) };
}

// Inserts the mark m, which stands in slot s, into the auxiliary tree of the main node named `owner`; gives the
// weight of the node built afresh, or 0. Records that are not all there are damage.
pub fn insert(t: &mut [u32], tree: Secondary, owner: u32, m: Mark, s: u32) -> Result<u32, Damaged>
    requires { (s < tree.capacity) × (owner < tree.capacity) × (runs_end tree.capacity ≤ length t.old) }
    ensures is { after (figure_of result) t.new ≡ auxiliary_insert♯ tree.base tree.capacity (mark_value m) s owner t.old }
    ensures within { IfOk result (λ n. n ≤ tree.capacity) }
{
    if tree.lacks_level(t) {
        return Err(Damaged);
    }
    let at = Primary::auxiliary_place(owner);
    descend(t, Mending { tree }, at, m, s, 0)
}
