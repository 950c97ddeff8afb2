//! What the studio meets of the outside: files by name, streams that take bytes, and the moments at which a caller may look on.
#![tactic(auto)]

pub mod faults;
pub mod file_shelf;
pub mod file_write;
pub mod gate;
pub mod held_gate;
pub mod laws;
mod line_room;
pub mod memory_shelf;
pub mod memory_sink;
pub mod names;
pub mod open_file;
pub mod output_sink;
pub mod phrases;
pub mod pieces;
pub mod program;
mod room;
pub mod shelf;
pub mod sink;
pub mod sure_shelf;
pub mod sure_sink;
