// The guidance for a host in C or Rust, which holds it: functions over numbers, byte slices and plain structs, which `host_c` exports.
#![tactic(auto)]

pub mod config;
pub mod mode;
pub mod reading;
pub mod run;
pub mod writing;
