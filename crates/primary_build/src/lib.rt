// Building the main tree with all its auxiliary trees (000's BUILD): the slots are collected in the order of x into run A; the two halves are built, which
// leaves each in the order of y; they are merged by y through run B, and the auxiliary tree of this depth is built of them. The caller knows that the runs are
// there.
#![tactic(auto)]

pub mod build;
mod merge;
