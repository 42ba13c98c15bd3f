// Specifications only: the mesh of a run covers each point as often as its sampled outline goes round it. No function.
#![tactic(auto)]
