//! Whether bytes are the report of a legal log of a session, of which log, and else which line breaks them first.
#![tactic(auto)]

mod acting;
pub mod check;
mod checker;
mod digests;
mod ending;
mod lines;
mod papers;
mod texts;
pub mod version;
mod weaving;
