// A plan of tasks in slices: what a run is, and the theorems on it. No code.
#![tactic(auto)]
