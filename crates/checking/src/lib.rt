// Whether a table is sound (document 01, "Where each call may stop": the check call), by reading alone and with no scratch. `used` and `place` are inverse
// to each other; the leaves of the main tree hold marks with grades, in order, as many as are live; those of an auxiliary tree hold marks, in its order,
// none outside its node's by x, as many as the node's weight; every arm is what stands beneath it. By counting, that is all (proofs/Exact).
#![tactic(auto)]

pub mod arms;
pub mod auxiliary_tree;
pub mod check;
pub mod checked;
pub mod ends;
pub mod main_tree;
pub mod slots;
pub mod walk;
