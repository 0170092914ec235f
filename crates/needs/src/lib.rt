// Which needs lead the filling run of a plan to a run that was seen: definitions and theorems, no code.
#![tactic(auto)]
