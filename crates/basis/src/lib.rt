// Mathematics that every crate shares: choices by a test, sums, division of slices. No code.
#![tactic(auto)]
