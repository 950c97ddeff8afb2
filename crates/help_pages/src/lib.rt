//! The pages of help, one for each command, and the version.
#![tactic(auto)]

pub mod page;
