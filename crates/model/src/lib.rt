// Pure definitions (specs/) and laws (proofs/); no code.
#![tactic(auto)]
