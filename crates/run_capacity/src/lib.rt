// Specifications only: runs in lists of different lengths. No function.
#![tactic(auto)]
