// Specifications only: what the start of a run leaves, `from_boundary`. No function.
#![tactic(auto)]
