// No code: what is claimed of runs, in the crate runs, is proved in proofs/.

#![tactic(auto)]
