// No code: what the contracts promise and what the texts are, as runs, stands in specs/ and proofs/.

#![tactic(auto)]
