// The demands, stated of the definitions that the public contracts cite, and their proofs. No code.
#![tactic(auto)]
