// Insertion into an auxiliary tree and strike from one (document 01, "The tree"): the mark stands in its slot, and a tree tells where
// its level begins. An insertion writes arms on its way down, a strike records on its way back,
// and its walk is that of the main tree's strike too.
#![tactic(auto)]

pub mod descent;
pub mod insert;
pub mod strike;
pub mod walk;
