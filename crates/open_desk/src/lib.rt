//! A desk that callers on threads of their own act on, one act at a time.
#![tactic(auto)]

pub mod closed;
pub mod comparing;
mod doing;
pub mod locked;
pub mod open_desk;
pub mod pass;
pub mod receipt;
pub mod refusal;
pub mod shape;
