// The check of a table.
ghost use Rattle.std.specs.Prelude.{◌≡◌};
ghost use Rattle.checking.specs.Check.{root_stands, sound_tree♯, live♯};
ghost use Rattle.checking.specs.Verdict.{Verdict};
ghost use Rattle.nodes.specs.Values.{arm_value};

use crate::checked::Checked;
use crate::main_tree::MainTree;
use crate::walk;
use nodes::arm::Arm;
use nodes::primary::Primary;
use table::damage::Damaged;
use table::{header, layout, limits};
use twofold_layout::levels;

// Whether a root's arm is that of a tree by the rules, of as many marks as are live.
fn root_stands(k: &Checked, root: Arm<Primary>) -> bool
    ensures { result ≡ root_stands k.now.capacity k.now.live (arm_value root) k.now.t.now }
{
    let tree = MainTree { of: *k };
    let top = levels::top(k.capacity);
    root.weight == k.live
        && (k.live == 0 || walk::span(&tree, top, root, limits::DEEPEST).is_some())
}

// Whether the words hold a tree by the rules, and have every other slot free, each once.
fn holds_tree(k: &Checked) -> bool
    ensures { result ≡ sound_tree♯ k.now.capacity k.now.live k.now.t.now }
{
    k.is_inverse() && root_stands(k, Arm::load(k.t, layout::ROOT))
}

// The check, with its mirror for a contract; `check` says what it means.
fn live_marks(t: &[u32]) -> Result<u32, Damaged>
    ensures { result ≡ live♯ t.now }
{
    let Some(own) = header::own(t) else {
        return Err(Damaged);
    };
    if own.words < t.len() {
        return Err(Damaged);
    }
    let k = Checked {
        t,
        capacity: own.capacity,
        live: own.live,
    };
    if holds_tree(&k) {
        Ok(k.live)
    } else {
        Err(Damaged)
    }
}

// The live marks of a table that is sound and has no words but its own; every other run of words is damaged.
pub fn check(t: &[u32]) -> Result<u32, Damaged>
    ensures { Verdict t.now result }
{
    live_marks(t)
}
