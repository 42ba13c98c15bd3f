// Specifications only: general laws that every crate above cites. No function.
#![tactic(auto)]
