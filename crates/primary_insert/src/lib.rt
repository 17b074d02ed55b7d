// Insertion into the two-fold tree (document 01, "The tree"): the mark stands in its slot, and is put into the main tree and into every auxiliary tree on
// the way. Where a main node will not be balanced, the mark goes into the main tree alone from there on, and that node is built afresh.
#![tactic(auto)]

pub mod insert;
