// The public guidance calls.
#![tactic(auto)]

mod commands;
mod entries;
pub mod plane;
mod waypoint;
