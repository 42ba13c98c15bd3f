// Specifications only: the front of a paving as closed loops of linked nodes. No function.
#![tactic(auto)]
