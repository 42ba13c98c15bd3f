// The estimate between the nodes of a quad, from the thresholds at its corners, in `specs/`. No function: `exam_results` has the code.
#![tactic(auto)]
