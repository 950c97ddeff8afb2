//! The run of a session. In each shift painters mail their acts, the foreman paints, commits and publishes, and looms weave, all at once;
//! whatever schedule comes, the log is a legal one.
#![tactic(auto)]

pub mod alone;
pub mod desk;
mod foreman;
pub mod laws;
pub mod looms;
mod mail;
mod plans;
pub mod run;
mod shares;
pub mod shift;
mod unread;
