// Specifications only: the fours of points of a 4 by 4 lattice that make small quads, and what holds of their list. No function.
#![tactic(auto)]
