// Strike from the two-fold tree (document 01, "The tree"): the mark leaves the main tree and every auxiliary tree on the way. The sibling of its leaf takes
// the parent's place, one level up; where a main node will not be balanced, it is built afresh of its other slots.
#![tactic(auto)]

pub mod lift;
pub mod strike;
