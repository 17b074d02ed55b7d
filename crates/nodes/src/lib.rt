// Nodes of main and auxiliary trees in the words of a table: weights, numbers, arms and records (docs/LAYOUT.md), and the collection of a tree's slots.
#![tactic(auto)]

pub mod arm;
mod collect;
pub mod primary;
pub mod record;
pub mod secondary;
pub mod tree;
pub mod weights;
