// Whether the arm of an inner node, of the main tree or of an auxiliary tree, is what its children's arms say.
ghost use Rattle.std.specs.Prelude.{◌≡◌};
ghost use Rattle.nodes.specs.Values.{arm_value};
ghost use Rattle.checking.specs.Span.{fits♯};

use nodes::arm::Arm;
use nodes::tree::Tree;
use nodes::weights;

// Weights are compared as sums that do not go round, so the weights beneath a node fall and the walk ends soon on any words.
pub fn fits<T: Tree>(a: Arm<T>, name: u32, l: Arm<T>, r: Arm<T>) -> bool
    ensures { result ≡ fits♯ name (arm_value a) (arm_value l) (arm_value r) }
{
    let over = Arm::over(name, l, r);
    !weights::disagree(l.weight, r.weight, a.weight)
        && weights::balanced(l.weight, r.weight)
        && a == over
}
