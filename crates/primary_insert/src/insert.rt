// Insertion into the two-fold tree: on the way down in the main tree, each node's auxiliary tree is updated.
ghost use Rattle.std.specs.Prelude.{◌≡◌, refl, true, ◌^◌, ◌<◌, ◌≤◌, length};
ghost use Rattle.geometry.specs.Values.{mark_value};
ghost use Rattle.table.specs.After.{after};
ghost use Rattle.table.specs.Damage.{figure_of};
ghost use Rattle.table.specs.Layout.{runs_end};
ghost use Rattle.primary_insert.specs.Insert.{insert_beneath♯, insert_beneath♯-zero, main_steps, main-turns, main_insert♯};

use geometry::Mark;
use nodes::arm::Arm;
use nodes::primary::Primary;
use nodes::secondary::Secondary;
use secondary_update::descent::{Insertion, descend};
use secondary_update::insert;
use table::damage::Damaged;
use table::{layout, limits, slots};
use twofold_layout::levels;

// The main tree at the nodes of one depth, which carry the auxiliary trees of a level.
#[derive(Clone, Copy)]
struct Depth {
    level: Secondary,
}

impl Insertion<Primary> for Depth {
    ghost tree = { λ depth. record { capacity = depth.level.capacity } };

    ghost steps = { λ depth m s turns.
        main_steps (insert_beneath♯ turns depth.level.capacity m s) depth.level.capacity m s depth.level.base };

    ghost rest = { λ depth m s turns. insert_beneath♯ turns depth.level.capacity m s depth.level.base };

    ghost most = { λ depth. 2 ^ 32 };

    const MENDS: bool = true;

    ghost MENDS = { true };

    fn tree(self) -> Primary {
        Primary {
            capacity: self.level.capacity,
        }
    }

    fn deeper(self) -> Depth {
        Depth {
            level: levels::next(self.level),
        }
    }

    fn grow(self, t: &mut [u32], name: u32, m: Mark, s: u32) -> Result<u32, Damaged> {
        insert::insert(t, self.level, name, m, s)
    }

    // Two marks are balanced: nothing is built afresh.
    fn begin(self, t: &mut [u32], made: u32, k: u32, m: Mark, s: u32) -> Result<u32, Damaged> {
        let other = slots::load(t, k);
        Primary::store_auxiliary(t, made, Arm::leaf(k, other.y, other.grade));
        insert::insert(t, self.level, made, m, s)
    }

    // From here on the mark goes into the main tree alone, which is then built afresh with all its auxiliary trees.
    fn mend(self, t: &mut [u32], at: usize, m: Mark, s: u32, turn: u32) -> Result<u32, Damaged> {
        insert::put(t, self.tree(), at, m, s, 0)?;
        let a = Arm::load(t, at);
        let fresh = primary_build::build::rebuild(t, self.level, a.node, a.weight, None, a.weight)?;
        Arm::store(t, at, fresh.arm);
        Ok(a.weight)
    }

    ghost used_up = { λ depth m s. insert_beneath♯-zero 0 refl depth.level.capacity m s depth.level.base };

    ghost turns = { λ depth. main-turns depth.level.capacity depth.level.base };
}

// Inserts the mark m, which stands in slot s; gives the weight of the main node built afresh, or 0. The first mark is a lone leaf.
pub fn insert(t: &mut [u32], capacity: u32, m: Mark, s: u32) -> Result<u32, Damaged>
    requires { (s < capacity) × (runs_end capacity ≤ length t.old) }
    ensures { after (figure_of result) t.new ≡ main_insert♯ capacity (mark_value m) s t.old }
{
    let root: Arm<Primary> = Arm::load(t, layout::ROOT);
    if root.weight == 0 {
        let leaf: Arm<Primary> = Arm::leaf(s, m.x, m.grade);
        Arm::store(t, layout::ROOT, leaf);
        return Ok(0);
    }
    let base = levels::top(capacity);
    let level = Secondary { base, capacity };
    descend(t, Depth { level }, layout::ROOT, m, s, 0)
}
