// Searching the main tree: for a mark, and for the marks of a box through main and auxiliary trees (document 01, "The search and its visits"), in words that
// have every slot of the capacity they are given. Where the words hold no tree, every search ends all the same, and says so: a finding by Damaged,
// a count and a listing by a tally that no sound table gives.
#![tactic(auto)]

pub mod count;
pub mod find;
pub mod list;
