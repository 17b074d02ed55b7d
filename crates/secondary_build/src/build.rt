// Building a tree of ordered slots, and building a tree afresh. No call is made for a half of one slot.
ghost use Rattle.std.specs.Prelude.{◌≡◌, ◌+◌, ◌<◌, ◌≤◌, length, IfOk};
ghost use Rattle.model.specs.Sheet.{along_y};
ghost use Rattle.table.specs.After.{after};
ghost use Rattle.table.specs.Layout.{record_width, record_place, runs_end, level_end};
ghost use Rattle.nodes.specs.Values.{arm_value};
ghost use Rattle.nodes.specs.Collect.{left_out};
ghost use Rattle.secondary_build.specs.Build.{run_leaf, build_over, build♯, rebuild♯};
ghost use Rattle.secondary_build.specs.Values.{rebuilt_arm};

use geometry::Axis;
use nodes::arm::Arm;
use nodes::record::Record;
use nodes::secondary::{Secondary, SecondaryNode};
use nodes::tree::Tree;
use table::damage::Damaged;
use table::{runs, slots};

// The leaf of the slot at place i of run A, in a tree of either kind.
#[tactic(auto, unfolding(crate::specs::Build::run_leaf))]
pub fn leaf<T: Tree>(t: &[u32], capacity: u32, i: u32) -> Arm<T>
    requires { (i < capacity) × (runs_end capacity ≤ length t.now) }
    ensures { arm_value result ≡ run_leaf T.Along.along capacity i t.now }
{
    let s = runs::run_slot(t, capacity, i);
    let m = slots::load(t, s);
    Arm::leaf(s, T::Along::at(m), m.grade)
}

// Makes the node of that name over two trees.
fn make_node(
    t: &mut [u32],
    tree: Secondary,
    name: u32,
    l: Arm<Secondary>,
    r: Arm<Secondary>,
) -> Arm<Secondary>
    requires { record_place tree.base name + record_width ≤ length t.old }
    ensures { after (arm_value result) t.new ≡ build_over (record_place tree.base) name (arm_value l) (arm_value r) t.old }
{
    Record::store(t, tree, name, l, r);
    Arm::over(name, l, r)
}

fn build_two(t: &mut [u32], tree: Secondary, i: u32) -> Arm<Secondary>
    requires { (i + 2 ≤ tree.capacity) × (runs_end tree.capacity ≤ length t.old) × (level_end tree.base tree.capacity ≤ length t.old) }
    ensures { after (arm_value result) t.new ≡ build♯ along_y 2 (record_place tree.base) tree.capacity i 2 t.old }
{
    let l = leaf(t, tree.capacity, i);
    let r = leaf(t, tree.capacity, i + 1);
    let name = runs::run_slot(t, tree.capacity, i + 1);
    make_node(t, tree, name, l, r)
}

fn build_three(t: &mut [u32], tree: Secondary, i: u32) -> Arm<Secondary>
    requires { (i + 3 ≤ tree.capacity) × (runs_end tree.capacity ≤ length t.old) × (level_end tree.base tree.capacity ≤ length t.old) }
    ensures { after (arm_value result) t.new ≡ build♯ along_y 3 (record_place tree.base) tree.capacity i 3 t.old }
{
    let l = leaf(t, tree.capacity, i);
    let r = build_two(t, tree, i + 1);
    let name = runs::run_slot(t, tree.capacity, i + 1);
    make_node(t, tree, name, l, r)
}

// Builds a tree of the n slots of run A from its place i on: the first half goes left.
pub fn build(t: &mut [u32], tree: Secondary, i: u32, n: u32) -> Arm<Secondary>
    requires { (0 < n) × (i + n ≤ tree.capacity) × (runs_end tree.capacity ≤ length t.old) × (level_end tree.base tree.capacity ≤ length t.old) }
    ensures { after (arm_value result) t.new ≡ build♯ along_y n (record_place tree.base) tree.capacity i n t.old }
{
    match n {
        1 => leaf(t, tree.capacity, i),
        2 => build_two(t, tree, i),
        3 => build_three(t, tree, i),
        _ => {
            let half = n / 2;
            let l = build(t, tree, i, half);
            let r = build(t, tree, i + half, n - half);
            let name = runs::run_slot(t, tree.capacity, i + half);
            make_node(t, tree, name, l, r)
        }
    }
}

// Builds the tree of a node of that weight afresh without the slot `but`, if one is given, which leaves it `many` slots, where the words hold such a tree.
pub fn rebuild(
    t: &mut [u32],
    tree: Secondary,
    node: SecondaryNode,
    weight: u32,
    but: Option<u32>,
    many: u32,
) -> Result<Arm<Secondary>, Damaged>
    requires { (runs_end tree.capacity ≤ length t.old) × (level_end tree.base tree.capacity ≤ length t.old) }
    ensures is { after (rebuilt_arm result) t.new
        ≡ rebuild♯ along_y (record_place tree.base) tree.capacity (left_out but) many weight node.0 t.old }
    ensures weight { IfOk result (λ a. (a.weight ≡ many) × (0 < many) × (many ≤ tree.capacity)) }
{
    if node.gather(t, tree, weight, but, many) {
        Ok(build(t, tree, 0, many))
    } else {
        Err(Damaged)
    }
}
