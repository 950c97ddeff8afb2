//! Tiles of a paper, and which tiles a change in one of them can reach.
#![tactic(auto)]

mod crossing;
pub mod grid;
mod kinds;
pub mod laws;
mod set_bits;
mod walk;
mod window;
