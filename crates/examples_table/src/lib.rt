// Specifications only: SCOPE's table of edges and its worked examples, computed from the definitions. No function.
#![tactic(auto)]
