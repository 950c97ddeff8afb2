//! Cards, one for each pick of a cloth, and the chain of bytes in which they are kept and handed on.
#![tactic(auto)]

mod card_fault;
pub mod card_set;
mod cutting;
pub mod decoder;
pub mod eight_bytes;
pub mod fault;
mod holes;
pub mod laws;
mod plan;
mod so_far;
mod writing;
