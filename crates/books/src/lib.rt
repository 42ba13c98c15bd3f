// Specifications only: the exact books of a run, and what one placing does to a sound state and to its book. No function.
#![tactic(auto)]
