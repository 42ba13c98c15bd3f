// Specifications only: the quads that a quad must come after are tied to what the exact books of a run say of it. No function.
#![tactic(auto)]
