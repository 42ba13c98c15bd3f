// Specifications only: the loops that an exam reads of a run's mesh are those that `front_loops` lists. No function.
#![tactic(auto)]
