//! All floats of a cloth that are over their limit, and the lines that tell them.
#![tactic(auto)]

pub mod laws;
mod lines;
pub mod list;
pub mod long_float;
pub mod text;
