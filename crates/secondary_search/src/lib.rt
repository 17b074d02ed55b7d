// Searching along one axis (document 01, "The search and its visits"): the count of either kind of tree (`search`), of an auxiliary tree for the marks on a
// box's side along y (`count`), and the listing of an auxiliary tree. Every tally goes on from the caller's; a search that meets damage, or more visits than it
// may make, is lost.
#![tactic(auto)]

pub mod count;
pub mod end;
pub mod list;
pub mod search;
