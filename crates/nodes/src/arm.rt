// Numbers of nodes, and arms, of either kind of tree (docs/LAYOUT.md). Words are loaded and stored where the caller knows them to be there.
ghost use Rattle.std.specs.Prelude.{◌≡◌, ◌+◌, ◌/◌, ◌%◌, ◌<◌, ◌≤◌, eqb, length};
ghost use Rattle.table.specs.Layout.{arm_width};
ghost use Rattle.nodes.specs.Arms.{leaf_number, inner_number, no_arm, leaf_arm, over_arm, grown_arm, arm_at, put_arm};
ghost use Rattle.nodes.specs.Arms.{renamed, first_left};
ghost use Rattle.nodes.specs.Values.{arm_value};

use crate::tree::Tree;
use crate::weights;
use std::marker::PhantomData;
use table::{grades, runs};

// A node's number in a tree of the kind T: 2 s for the leaf of slot s, 2 s + 1 for the inner node named s.
#[derive_where(Clone, Copy, PartialEq, Eq)]
pub struct Node<T>(pub u32, PhantomData<T>);

// What points to a tree: its root, its weight, its cell along the tree's axis, and the figure of its grades. Weight 0: no tree.
#[derive_where(Clone, Copy, PartialEq, Eq)]
pub struct Arm<T> {
    pub node: Node<T>,
    pub weight: u32,
    pub least: u32,
    pub greatest: u32,
    pub grades: u32,
}

// The name of a node once slot s is struck: the least slot left in its right child, if that was s.
#[tactic(auto, unfolding(crate::specs::Arms::renamed))]
pub fn renamed(capacity: u32, name: u32, s: u32, first: u32) -> u32
    requires { name < capacity }
    ensures is { result ≡ renamed capacity name s first }
    ensures within { result < capacity }
{
    if name == s {
        return runs::as_slot(capacity, first);
    }
    name
}

// The least slot that is left of a node once a leaf that is its child is struck, where that was its left child and so the least: the node's name. Else 0.
#[tactic(auto, unfolding(crate::specs::Arms::first_left))]
pub fn first_left(left: bool, name: u32) -> u32
    ensures { result ≡ first_left left name }
{
    if left { name } else { 0 }
}

#[tactic(auto, unfolding(crate::specs::Arms::leaf_number, crate::specs::Arms::inner_number))]
impl<T: Tree> Node<T> {
    pub fn leaf(s: u32) -> Node<T>
        ensures { result.0 ≡ leaf_number s }
    {
        Node(2 * (s % 2147483648), PhantomData)
    }

    pub fn inner(name: u32) -> Node<T>
        ensures { result.0 ≡ inner_number name }
    {
        Node(2 * (name % 2147483648) + 1, PhantomData)
    }

    pub fn is_leaf(self) -> bool
        ensures { result ≡ eqb (self.0 % 2) 0 }
    {
        self.0 % 2 == 0
    }

    // A leaf's slot, or the slot that names an inner node.
    pub fn slot(self) -> u32
        ensures { result ≡ self.0 / 2 }
    {
        self.0 / 2
    }
}

#[tactic(auto, unfolding(crate::specs::Arms::leaf_arm, crate::specs::Arms::over_arm, crate::specs::Arms::grown_arm, crate::specs::Arms::arm_at))]
impl<T: Tree> Arm<T> {
    pub fn none() -> Arm<T>
        ensures { arm_value result ≡ no_arm }
    {
        Arm {
            node: Node(0, PhantomData),
            weight: 0,
            least: 0,
            greatest: 0,
            grades: 0,
        }
    }

    // The leaf of slot s, at the coordinate v and of that grade.
    pub fn leaf(s: u32, v: u32, grade: u32) -> Arm<T>
        ensures { arm_value result ≡ leaf_arm s v grade }
    {
        let node = Node::leaf(s);
        let grades = grades::of_grade(grade);
        Arm {
            node,
            weight: 1,
            least: v,
            greatest: v,
            grades,
        }
    }

    // The inner node of that name over two trees.
    pub fn over(name: u32, l: Arm<T>, r: Arm<T>) -> Arm<T>
        ensures { arm_value result ≡ over_arm name (arm_value l) (arm_value r) }
    {
        let node = Node::inner(name);
        let weight = weights::sum(l.weight, r.weight);
        let grades = grades::join(l.grades, r.grades);
        Arm {
            node,
            weight,
            least: l.least,
            greatest: r.greatest,
            grades,
        }
    }

    // The same root with one mark more, at the coordinate v and of that grade.
    pub fn grown(self, v: u32, grade: u32) -> Arm<T>
        ensures { arm_value result ≡ grown_arm (arm_value self) v grade }
    {
        let weight = weights::sum(self.weight, 1);
        let least = self.least.min(v);
        let greatest = self.greatest.max(v);
        let grades = grades::join(self.grades, grades::of_grade(grade));
        Arm {
            node: self.node,
            weight,
            least,
            greatest,
            grades,
        }
    }

    // The arm at the word `at`, which is there; that of the main tree's root stands at layout::ROOT.
    pub fn load(t: &[u32], at: usize) -> Arm<T>
        requires { at + arm_width ≤ length t.now }
        ensures { arm_value result ≡ arm_at t.now at }
    {
        Arm {
            node: Node(t[at], PhantomData),
            weight: t[at + 1],
            least: t[at + 2],
            greatest: t[at + 3],
            grades: t[at + 4],
        }
    }

    pub fn store(t: &mut [u32], at: usize, a: Arm<T>)
        requires { at + arm_width ≤ length t.old }
        ensures { t.new ≡ put_arm t.old at (arm_value a) }
    {
        let node = a.node;
        t[at] = node.0;
        t[at + 1] = a.weight;
        t[at + 2] = a.least;
        t[at + 3] = a.greatest;
        t[at + 4] = a.grades;
    }
}
