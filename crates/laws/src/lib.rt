// The control laws below the public guidance calls, ported from stable-flight.
#![tactic(auto)]

pub mod config;
pub mod math;
pub mod navigation;
pub mod tecs;
pub mod types;
