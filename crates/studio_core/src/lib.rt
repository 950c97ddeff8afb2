//! The core of the studio: the present paper, its bound cells tile by tile, and the replies to acts as if all were found anew each time.
#![tactic(auto)]

mod answering;
pub mod given;
mod giving;
mod opening;
pub mod refusal;
mod rooms;
mod settling;
pub mod tile_core;
mod touching;
mod walking;
