// No function: `specs/Promise.antt` states what the crates below promise together, and `proofs/Promise.antt` proves it.
#![tactic(auto)]
