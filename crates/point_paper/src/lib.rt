//! Papers of colours, whose readings are counted, and papers of truth values.
#![tactic(auto)]

pub mod bit_paper;
pub mod laws;
pub mod paper;
