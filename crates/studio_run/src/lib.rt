//! The studio as one call: from the words of the command line to what is put out or written.
#![tactic(auto)]

pub mod answer;
pub mod command;
pub mod laws;
mod lifting;
mod opening;
mod plain_end;
mod run_end;
