// The words of a table (docs/LAYOUT.md): reading and writing them. Marks of slots and the runs are read and written where the caller knows them to be there.
// Every other word is tested: past the end it reads as 0 and is not written; a mark of a list has one test for all its words.
#![tactic(auto)]

pub mod damage;
pub mod figures;
pub mod grades;
pub mod header;
pub mod layout;
pub mod limits;
pub mod runs;
pub mod slots;
pub mod tally;
pub mod words;
