// The line program's texts (document 01, "The planner and the line program"): a command read off a line, and a response written into lent bytes.
#![tactic(auto)]

pub mod command;
pub mod input;
pub mod number;
pub mod response;
