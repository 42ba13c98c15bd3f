// Specifications only: how often steps go round a point. No function.
#![tactic(auto)]
