// Specifications only: every node of a run is a double within 1,001, and every quad placed turns as the books claim. No function.
#![tactic(auto)]
