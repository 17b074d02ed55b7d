// Finding a mark.
ghost use Rattle.std.specs.Prelude.{◌≡◌, ◌≤◌, length};
ghost use Rattle.geometry.specs.Values.{mark_value};
ghost use Rattle.table.specs.Layout.{slots_end};
ghost use Rattle.table.specs.Limits.{deepest};
ghost use Rattle.primary_search.specs.Find.{find_beneath♯, find_from♯};

use geometry::Mark;
use nodes::arm::Arm;
use nodes::primary::{Primary, PrimaryNode};
use nodes::record::Record;
use table::damage::Damaged;
use table::{layout, limits, slots};

// The slot beneath a node that has the mark m, if there is one. A node that is of no slot of the table is damage.
#[tactic(auto, using(crate::proofs::Walks::finds), unfolding(crate::specs::Find::find_node, crate::specs::Find::find_leaf))]
fn find_beneath(
    t: &[u32],
    capacity: u32,
    m: Mark,
    start: PrimaryNode,
) -> Result<Option<u32>, Damaged>
    requires { slots_end capacity ≤ length t.now }
    ensures { result ≡ find_beneath♯ deepest t.now capacity (mark_value m) start.0 }
{
    let mut node = start;
    for turn in 0..limits::DEEPEST {
        let s = node.slot();
        if capacity <= s {
            return Err(Damaged);
        }
        if node.is_leaf() {
            return Ok(m.same(slots::load(t, s)).then_some(s));
        }
        let way = Record::way(t, Primary { capacity }, s, m);
        node = way.child.node;
    }
    Err(Damaged)
}

// The slot that has the mark m, if there is one; damage where the words hold no tree.
#[tactic(auto, unfolding(crate::specs::Find::find_root))]
pub fn find(t: &[u32], capacity: u32, m: Mark) -> Result<Option<u32>, Damaged>
    requires { slots_end capacity ≤ length t.now }
    ensures { result ≡ find_from♯ t.now capacity (mark_value m) }
{
    let root = Arm::load(t, layout::ROOT);
    if root.weight == 0 {
        return Ok(None);
    }
    find_beneath(t, capacity, m, root.node)
}
