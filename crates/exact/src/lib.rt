// Specifications only: floats as whole numbers of units, how far each operation is from the exact result, and the sine theorem. No function.
#![tactic(auto)]
