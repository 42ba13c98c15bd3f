// The loops of a mesh as it is lent, and what reading one answers, in `specs/`. No function: `loop_reads` has the code.
#![tactic(auto)]
