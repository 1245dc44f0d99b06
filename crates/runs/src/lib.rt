// No code: the runs of a whole group, and what is claimed of them, stand in specs/, and
// single runs that try it in proofs/.

#![tactic(auto)]
