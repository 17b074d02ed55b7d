// Weights of nodes: words, at most 65,536 in a sound table; sums go round at 2^32.
ghost use Rattle.std.specs.Prelude.{◌≡◌, not, ◌+◌, ◌-◌, eqb};
ghost use Rattle.nodes.specs.Weights.{sum, is_heavy, balanced, unbalances};

// The weight of a node over children of these weights.
#[tactic(auto, unfolding(crate::specs::Weights::sum))]
pub fn sum(l: u32, r: u32) -> u32
    ensures { result ≡ sum l r }
{
    l.wrapping_add(r)
}

// One mark less.
pub fn fewer(w: u32) -> u32
    ensures { result ≡ w - 1 }
{
    w.saturating_sub(1)
}

// Whether the weights of two children do not add up to their node's.
pub fn disagree(l: u32, r: u32, w: u32) -> bool
    ensures { result ≡ not (eqb (l + r) w) }
{
    u64::from(l) + u64::from(r) != u64::from(w)
}

// Whether a child has a quarter of its node's weight or more, where the other child has `sibling`. A node is balanced where both of its children do.
pub fn is_heavy(w: u32, sibling: u32) -> bool
    ensures { result ≡ is_heavy w sibling }
{
    u64::from(w) + u64::from(sibling) <= 4 * u64::from(w)
}

// Whether a node over children of these weights is balanced.
pub fn balanced(l: u32, r: u32) -> bool
    ensures { result ≡ balanced l r }
{
    let w = u64::from(l) + u64::from(r);
    w <= 4 * u64::from(l) && w <= 4 * u64::from(r)
}

// Whether a balanced node is balanced with one mark less in the child of weight w: that child can only become too light.
pub fn stays_balanced(w: u32, sibling: u32) -> bool
    ensures { result ≡ is_heavy (w - 1) sibling }
{
    is_heavy(fewer(w), sibling)
}

// Whether a balanced node is not balanced with one mark more in the child of weight w, where it is to be mended: its sibling can only become too light.
#[tactic(auto, unfolding(crate::specs::Weights::unbalances))]
pub fn unbalances(mends: bool, w: u32, sibling: u32) -> bool
    ensures { result ≡ unbalances mends w sibling }
{
    mends && 4 * u64::from(sibling) < u64::from(sibling) + u64::from(w) + 1
}
