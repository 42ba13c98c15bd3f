// Specifications only: thresholds that come and go at the nodes of a mesh, and the two figures kept of them. No function: `exam_results` has the code.
#![tactic(auto)]
