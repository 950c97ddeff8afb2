//! Sets of the tiles of a paper.
#![tactic(auto)]

mod columns;
pub mod laws;
pub mod marks;
