// Whole tables: emptying one, and inserting and striking a mark with its slot. What a sound table is stands in twofold_layout's specs/Sound. Finding, counting
// and listing are primary_search's.
#![tactic(auto)]

pub mod empty;
pub mod insert;
pub mod strike;
