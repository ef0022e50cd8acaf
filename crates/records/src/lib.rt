// Configuration and call records, read and written: document 01, "Records and desk program".
#![tactic(auto)]

pub mod call;
pub mod call_writer;
pub mod config;
