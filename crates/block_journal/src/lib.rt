//! A journal on a disk: blocks of marks, of which each crash leaves all that were acknowledged, whole and in order.
#![tactic(auto)]

mod decode;
mod encode;
pub mod journal;
pub mod laws;
pub mod mark;
pub mod open;
