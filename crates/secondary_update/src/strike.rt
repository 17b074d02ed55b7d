// Strike from an auxiliary tree: its records all stand in one level, and its nodes have no more than their children.
ghost use Rattle.std.specs.Prelude.{◌≡◌, ◌+◌, ◌<◌, ◌≤◌, length, IfOk};
ghost use Rattle.model.specs.Sheet.{along_y};
ghost use Rattle.geometry.specs.Values.{mark_value};
ghost use Rattle.table.specs.After.{after};
ghost use Rattle.table.specs.Layout.{record_place, runs_end, level_end};
ghost use Rattle.nodes.specs.Values.{arm_value};
ghost use Rattle.secondary_update.specs.Strike.{Lent, node_over, strike_afresh, auxiliary, auxiliary_strike♯};
ghost use Rattle.secondary_update.specs.Updates.{strike_of};
ghost use Rattle.secondary_update.specs.Values.{struck_value, strike_outcome, StrikeLeaves};

use crate::walk;
use crate::walk::{Striking, Struck, Target};
use geometry::Mark;
use nodes::arm::Arm;
use nodes::primary::Primary;
use nodes::record::Record;
use nodes::secondary::{Secondary, SecondaryNode};
use nodes::weights;
use table::damage::Damaged;
use table::{limits, runs};

#[tactic(auto, unfolding(crate::specs::Strike::node_over, crate::specs::Updates::strike_of))]
impl Striking for Secondary {
    type Of = Secondary;

    type Beside = ();

    ghost how = { auxiliary along_y };

    ghost tree = { λ tree. tree };

    ghost base = { λ tree. 0 };

    ghost writing = { λ tree beside. node_over (record_place tree.base) };

    #[inline]
    fn tree(self) -> Secondary {
        self
    }

    #[inline]
    fn deeper(self) -> Secondary {
        self
    }

    #[inline]
    fn strike_beside(self, t: &mut [u32], name: u32, target: &Target) -> Result<(), Damaged> {
        Ok(())
    }

    #[inline]
    fn write(
        self,
        t: &mut [u32],
        beside: (),
        name: u32,
        l: Arm<Secondary>,
        r: Arm<Secondary>,
        rebuilt: u32,
        first: u32,
    ) -> Struck<Secondary>
        requires { (name < self.capacity) × Lent self.capacity (level_end self.base self.capacity) t.old }
        ensures { after (struck_value result) t.new
            ≡ node_over (record_place self.base) name (arm_value l) (arm_value r) rebuilt first t.old }
    {
        Record::store(t, self, name, l, r);
        let arm = Arm::over(name, l, r);
        Struck {
            arm,
            rebuilt,
            first,
        }
    }

    #[inline]
    fn lifted(self, t: &mut [u32], sibling: Arm<Secondary>, first: u32) -> Struck<Secondary>
        requires { Lent self.capacity (level_end self.base self.capacity) t.old }
        ensures { after (struck_value result) t.new ≡ after (strike_of (arm_value sibling) 0 first) t.old }
    {
        Struck {
            arm: sibling,
            rebuilt: 0,
            first,
        }
    }

    // Where the words hold no such tree, none is left.
    fn afresh(
        self,
        t: &mut [u32],
        node: SecondaryNode,
        weight: u32,
        s: u32,
    ) -> Result<Struck<Secondary>, Damaged>
        requires { (0 < self.capacity) × Lent self.capacity (level_end self.base self.capacity) t.old }
        ensures { after (strike_outcome result) t.new ≡ strike_afresh along_y self.capacity (record_place self.base) s weight node.0 t.old }
    {
        let many = weights::fewer(weight);
        let fresh = secondary_build::build::rebuild(t, self, node, weight, Some(s), many);
        Ok(Struck {
            arm: fresh.unwrap_or(Arm::none()),
            rebuilt: many,
            first: runs::run_slot(t, self.capacity, 0),
        })
    }
}

// Strikes the mark m of slot s from the auxiliary tree of the main node named `owner`, which has two marks or more; the unbalanced node nearest the root is
// built afresh. Records that are not all there are damage, and so is no tree left.
pub fn strike(
    t: &mut [u32],
    tree: Secondary,
    owner: u32,
    m: Mark,
    s: u32,
) -> Result<Struck<Secondary>, Damaged>
    requires { (owner < tree.capacity) × (runs_end tree.capacity ≤ length t.old) }
    ensures { StrikeLeaves result t.new (auxiliary_strike♯ tree.base tree.capacity (mark_value m) s owner t.old) }
{
    if tree.lacks_level(t) {
        return Err(Damaged);
    }
    let root = Primary::load_auxiliary(t, owner);
    let target = Target { mark: m, slot: s };
    let u = walk::strike_beneath(t, tree, root.node, root.weight, &target, limits::DEEPEST)?;
    if u.arm.weight == 0 {
        return Err(Damaged);
    }
    Ok(u)
}
