// Building, rebuilding and copying auxiliary trees: a tree tells where its level begins. The caller knows that the runs and the records of that
// level are there.
#![tactic(auto)]

pub mod build;
pub mod copy;
