//! What looms weave: cloths that are lifted from the cards of a version, their digests, and the law that ties them to the drawdown.
#![tactic(auto)]

mod counts;
pub mod digest;
pub mod laws;
mod lifter;
pub mod loom;
mod weaver;
