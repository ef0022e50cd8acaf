// Routes for a host in C or Rust, an object of its own in the archive: so each object calls the guidance from one place.
#![tactic(auto)]

pub mod route;
