// The two-fold tree in the words of a table: where the records of its auxiliary trees stand. What it is for words to hold one is in specs/.
#![tactic(auto)]

pub mod levels;
