//! The machine of a loom, which lifts the warp ends by a card.
#![tactic(auto)]

pub mod laws;
pub mod machine;
mod reading;
