//! When a report passes, told without a checker: the first line that breaks it, what may come behind lines that were read, and that
//! whatever passes can be finished.
#![tactic(auto)]

pub mod laws;
