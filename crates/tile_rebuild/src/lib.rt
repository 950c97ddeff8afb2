//! A tile rebuilt from the lines that cross it: its bound cells from the colours of its picks and columns, and whether a cell of it is
//! long from their bits. And all tiles of a paper at once, in one pass over it.
#![tactic(auto)]

pub mod bind_job;
pub mod bit_lines;
pub mod cells;
pub mod check_job;
pub mod colour_lines;
pub mod job;
pub mod laws;
pub mod long_cells;
pub mod part;
pub mod parts;
pub mod rebuild;
pub mod room;
pub mod some_tiles;
pub mod whole;
mod whole_long;
