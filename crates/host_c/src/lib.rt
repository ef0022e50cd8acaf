// What C calls of `host`, under its names and clauses: a library exports nothing, and no crate can stand on what exports. Its modules
// are those of `host`.
#![tactic(auto)]

pub mod config;
pub mod mode;
pub mod reading;
pub mod run;
pub mod writing;
