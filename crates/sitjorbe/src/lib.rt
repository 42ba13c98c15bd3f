// The library that a host links, libsitjorbe.a: each entry calls the function of its name in the proved crate that it comes from, and states that
// function's clauses again.
// C links these names.
#![tactic(auto)]

pub mod bowl_steps;
pub mod convex_quads;
pub mod cross_field;
pub mod exam_desk;
pub mod hand_step;
pub mod lent_places;
pub mod many_directions;
pub mod paving_run;
pub mod point_cover;
pub mod point_queries;
pub mod points_file;
pub mod shape;
pub mod sound;
pub mod test_order;
