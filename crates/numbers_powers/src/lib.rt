// Specifications only: a product with a power of two below 1 is a quotient by one above 1. No function.
#![tactic(auto)]
