// Specifications only: in a hand-stepped sequence no front loop and no quad has nodes of two origins, and the numbers stay written. No function.
#![tactic(auto)]
