// Strike from the main tree, with its nodes' auxiliary trees.
ghost use Rattle.std.specs.Prelude.{◌≡◌, ◌+◌, ◌<◌, ◌≤◌, Some, length};
ghost use Rattle.geometry.specs.Values.{mark_value};
ghost use Rattle.table.specs.After.{after};
ghost use Rattle.table.specs.Damage.{figure_of};
ghost use Rattle.table.specs.Layout.{main_place, runs_end};
ghost use Rattle.nodes.specs.Values.{arm_value};
ghost use Rattle.secondary_update.specs.Strike.{Lent};
ghost use Rattle.secondary_update.specs.Values.{struck_value, strike_outcome, written_if};
ghost use Rattle.primary_strike.specs.Strike.{lifted♯, struck_afresh♯, main, main_beside, main_node_over, main_strike♯};

use crate::lift;
use geometry::Mark;
use nodes::arm::Arm;
use nodes::primary::{Primary, PrimaryNode};
use nodes::record::Record;
use nodes::secondary::Secondary;
use nodes::weights;
use secondary_update::walk;
use secondary_update::walk::{Striking, Struck, Target};
use table::damage::Damaged;
use table::{layout, limits};
use twofold_layout::levels;

// The main tree at the nodes of one depth, by the level of their auxiliary trees.
#[derive(Clone, Copy)]
struct Depth {
    level: Secondary,
}

#[tactic(auto, unfolding(secondary_update::specs::Updates::strike_of))]
impl Striking for Depth {
    type Of = Primary;

    // The arm of its auxiliary tree.
    type Beside = Arm<Secondary>;

    ghost how = { main };

    ghost tree = { λ depth. record { capacity = depth.level.capacity } };

    ghost base = { λ depth. depth.level.base };

    ghost writing = { λ depth a. main_node_over (Some (arm_value a)) };

    #[inline]
    fn tree(self) -> Primary {
        Primary {
            capacity: self.level.capacity,
        }
    }

    #[inline]
    fn deeper(self) -> Depth {
        Depth {
            level: levels::next(self.level),
        }
    }

    #[inline]
    fn strike_beside(
        self,
        t: &mut [u32],
        name: u32,
        target: &Target,
    ) -> Result<Arm<Secondary>, Damaged>
        requires { (name < self.level.capacity) × Lent self.level.capacity (runs_end self.level.capacity) t.old }
        ensures { after (written_if (λ a. main_node_over (Some (arm_value a))) result) t.new
            ≡ main_beside self.level.capacity main_place (mark_value target.now.mark) target.now.slot self.level.base name t.old }
    {
        let u = secondary_update::strike::strike(t, self.level, name, target.mark, target.slot)?;
        Ok(u.arm)
    }

    #[inline]
    fn write(
        self,
        t: &mut [u32],
        beside: Arm<Secondary>,
        name: u32,
        l: Arm<Primary>,
        r: Arm<Primary>,
        rebuilt: u32,
        first: u32,
    ) -> Struck<Primary>
        requires { (name < self.level.capacity) × Lent self.level.capacity (runs_end self.level.capacity) t.old }
        ensures { after (struck_value result) t.new
            ≡ main_node_over (Some (arm_value beside)) name (arm_value l) (arm_value r) rebuilt first t.old }
    {
        Record::store(t, self.tree(), name, l, r);
        Primary::store_auxiliary(t, name, beside);
        let arm = Arm::over(name, l, r);
        Struck {
            arm,
            rebuilt,
            first,
        }
    }

    fn lifted(self, t: &mut [u32], sibling: Arm<Primary>, first: u32) -> Struck<Primary>
        requires { Lent self.level.capacity (runs_end self.level.capacity) t.old }
        ensures { after (struck_value result) t.new ≡ lifted♯ self.level.capacity self.level.base (arm_value sibling) first t.old }
    {
        let level = self.level;
        let below = self.deeper().level;
        lift::lift(t, below, level.base, sibling.node, limits::SIBLING_DEEPEST);
        Struck {
            arm: sibling,
            rebuilt: 0,
            first,
        }
    }

    fn afresh(
        self,
        t: &mut [u32],
        node: PrimaryNode,
        weight: u32,
        s: u32,
    ) -> Result<Struck<Primary>, Damaged>
        requires { (0 < self.level.capacity) × Lent self.level.capacity (runs_end self.level.capacity) t.old }
        ensures { after (strike_outcome result) t.new ≡ struck_afresh♯ self.level.capacity s self.level.base weight node.0 t.old }
    {
        let many = weights::fewer(weight);
        let fresh = primary_build::build::rebuild(t, self.level, node, weight, Some(s), many)?;
        Ok(Struck {
            arm: fresh.arm,
            rebuilt: many,
            first: fresh.first,
        })
    }
}

// Strikes the mark m of slot s; gives the weight of the main node built afresh, or 0. Striking a lone leaf leaves no tree.
pub fn strike(t: &mut [u32], capacity: u32, m: Mark, s: u32) -> Result<u32, Damaged>
    requires { runs_end capacity ≤ length t.old }
    ensures { after (figure_of result) t.new ≡ main_strike♯ capacity (mark_value m) s t.old }
{
    let root: Arm<Primary> = Arm::load(t, layout::ROOT);
    if root.node.is_leaf() {
        Arm::store(t, layout::ROOT, Arm::<Primary>::none());
        return Ok(0);
    }
    let top = Depth {
        level: Secondary {
            base: levels::top(capacity),
            capacity,
        },
    };
    let target = Target { mark: m, slot: s };
    let u = walk::strike_beneath(t, top, root.node, root.weight, &target, limits::DEEPEST)?;
    if u.arm.weight == 0 {
        return Err(Damaged);
    }
    Arm::store(t, layout::ROOT, u.arm);
    Ok(u.rebuilt)
}
