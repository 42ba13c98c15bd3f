// Specifications only: the stepped mesh of a run balances. No function.
#![tactic(auto)]
