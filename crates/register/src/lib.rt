// The six calls of the register (document 01, "Where each call may stop"), on numbers and lent words. Each tests its rows in the paper's order, then lends
// the table's own words, W(C) of those lent, to the crates below: words beyond are never written because nobody is lent them.
#![tactic(auto)]

pub mod answers;
pub mod check;
pub mod count;
pub mod insert;
pub mod list;
pub mod open;
pub mod refusal;
pub mod strike;
mod update;
