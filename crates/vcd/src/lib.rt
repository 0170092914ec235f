// The form of a run as a Value Change Dump: definitions and theorems, no code.
#![tactic(auto)]
