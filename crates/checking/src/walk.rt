// The walk through a tree, of either kind.
ghost use Rattle.std.specs.Prelude.{◌≡◌, ℕ, Bool, ◌+◌, ◌<◌, ◌≤◌, length, IfSome};
ghost use Rattle.table.specs.Layout.{record_width};
ghost use Rattle.nodes.specs.Values.{arm_value};
ghost use Rattle.checking.specs.Span.{NodeTest, Within, has_leaf♯, stands_over♯, tree_span};
ghost use Rattle.checking.specs.declared.checked.Checked.{Checked};

use crate::arms;
use crate::checked::Checked;
use crate::ends::Ends;
use geometry::Axis;
use nodes::arm::Arm;
use nodes::record::Record;
use nodes::tree::Tree;

// A tree to be walked, of the kind T: where it stands, and what is asked of its slots and of its inner nodes beside their arms. A level is told by the word at
// which it begins.
pub trait Walk<T: Tree>: Copy {
    ghost of: { Self → Checked };

    ghost tree: { Self → T };

    // Whether a slot may stand in the tree.
    ghost slot: { Self → ℕ → Bool };

    // Where the level beneath one begins.
    ghost next: { Self → ℕ → ℕ };

    // What is asked of an inner node, by its level, its name and its weight.
    ghost test: { Self → ℕ → ℕ → ℕ → NodeTest };

    fn of(&self) -> Checked<'_>
        ensures { result ≡ of self.now };

    fn tree(&self) -> T
        ensures { result ≡ tree self.now };

    fn may_stand(&self, s: u32) -> bool
        requires { s < (of self.now).capacity }
        ensures { result ≡ slot self.now s };

    fn beneath(&self, base: u32) -> u32
        ensures { result ≡ next self.now base };

    // Whether the inner node of that name and weight passes, whose least and greatest slots are x.first and x.last.
    fn passes(&self, base: u32, name: u32, weight: u32, x: Ends) -> bool
        requires { (name < (of self.now).capacity) × Within (of self.now).capacity x }
        ensures { result ≡ test self.now base name weight x.first x.last };

    ghost record_there: { (w : Self) (name : ℕ) → name < (of w).capacity → T.place (tree w) name + record_width ≤ length (of w).t.now };
}

// Whether an arm is that of the leaf of slot s, which may stand there.
fn has_leaf<T: Tree, W: Walk<T>>(w: &W, s: u32, a: Arm<T>) -> bool
    requires { s < (W.of w.now).capacity }
    ensures { result ≡ has_leaf♯ T.Along.along (W.slot w.now) s (arm_value a) (W.of w.now).t.now }
{
    let m = w.of().mark(s);
    w.may_stand(s) && a == Arm::leaf(s, T::Along::at(m), m.grade)
}

// Whether a node of that name and weight stands over two trees: it is named after the right one's least slot, the marks of the left one are below those of the
// right one, and it passes.
fn stands_over<T: Tree, W: Walk<T>>(
    w: &W,
    base: u32,
    name: u32,
    weight: u32,
    x: Ends,
    y: Ends,
) -> bool
    requires { (name < (W.of w.now).capacity) × Within (W.of w.now).capacity x × Within (W.of w.now).capacity y }
    ensures { result ≡ stands_over♯ T.Along.along (W.test w.now base name weight) name x y (W.of w.now).t.now }
{
    let k = w.of();
    let both = Ends {
        first: x.first,
        last: y.last,
    };
    y.first == name
        && T::Along::below(k.mark(x.last), k.mark(name))
        && w.passes(base, name, weight, both)
}

// The tree of an arm, where its root's level begins at base. A node of no slot is damage.
pub fn span<T: Tree, W: Walk<T>>(w: &W, base: u32, a: Arm<T>, fuel: u32) -> Option<Ends>
    ensures is { result
        ≡ tree_span T.Along.along (W.of w.now).capacity (T.place (W.tree w.now)) (W.slot w.now) (W.next w.now) (W.test w.now) fuel (W.of w.now).t.now base
        (arm_value a) }
    ensures within { IfSome result (Within (W.of w.now).capacity) }
{
    if fuel == 0 {
        return None;
    }
    let k = w.of();
    let name = a.node.slot();
    if k.capacity <= name {
        return None;
    }
    if a.node.is_leaf() {
        let both = Ends {
            first: name,
            last: name,
        };
        return has_leaf(w, name, a).then_some(both);
    }
    let p = Record::load(k.t, w.tree(), name);
    if !arms::fits(a, name, p.left, p.right) {
        return None;
    }
    let next = w.beneath(base);
    let x = span(w, next, p.left, fuel - 1)?;
    let y = span(w, next, p.right, fuel - 1)?;
    let both = Ends {
        first: x.first,
        last: y.last,
    };
    stands_over(w, base, name, a.weight, x, y).then_some(both)
}
