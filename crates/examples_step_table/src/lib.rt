// Specifications only: steps and previews of the worked square, computed from the definitions. No function.
#![tactic(auto)]
