//! The newest version and its cards, published by one desk and read by looms that never wait.
#![tactic(auto)]

mod board;
pub mod desk_end;
pub mod laws;
pub mod loom_end;
pub mod newest;
mod publishing;
mod reading;
pub mod told;

pub use board::{Board, Put, View};
