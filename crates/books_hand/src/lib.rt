// Hand-stepped sequences keep the exact books: theorems only (proofs/Sequences.antt).
#![tactic(auto)]
