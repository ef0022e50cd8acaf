// Document 01, "Arithmetic, the lowest crate": all is f32, each operation rounded once, in the order written.
#![tactic(auto)]

pub mod order;
pub mod root;
pub mod trigonometry;
pub mod vector;
