// No code: the laws of the definitions stand in proofs/.

#![tactic(auto)]
