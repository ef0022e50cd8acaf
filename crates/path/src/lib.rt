// The turn to come, drawn: the guidance repeated over a model of the plane.
#![tactic(auto)]

pub mod draw;
pub mod model;
