// Specifications only: which drawn outlines are sound (SCOPE, sound outlines), and the word whole. No function.
#![tactic(auto)]
