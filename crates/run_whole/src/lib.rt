// Specifications only: a whole run, from the field to the end of paving. No function.
#![tactic(auto)]
