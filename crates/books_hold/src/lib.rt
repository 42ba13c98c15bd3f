// Specifications only: the theorem that the exact books of every run hold. No function.
#![tactic(auto)]
