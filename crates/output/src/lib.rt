// What the programs print for an input, and that they print no other. No code.
#![tactic(auto)]
