// A dialogue of the line program (document 01, "The planner and the line program"): lines performed on the register, with their responses in lent bytes.
#![tactic(auto)]

mod dialogue;

pub use dialogue::Dialogue;
