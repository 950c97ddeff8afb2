//! Tests of the studio as one call, from the words of a command line to what it prints and writes, over shelves and
//! sinks in memory.
//!
//! They stand in a crate of their own, so that the crate below is not proved once more with them.
#![tactic(auto)]

#[cfg(test)]
mod calls;
#[cfg(test)]
mod chains;
#[cfg(test)]
mod commands;
#[cfg(test)]
mod files;
#[cfg(test)]
mod greatest;
#[cfg(test)]
mod images;
#[cfg(test)]
mod outside;
#[cfg(test)]
mod overlaps;
#[cfg(test)]
mod refusals;
#[cfg(test)]
mod sessions;
#[cfg(test)]
mod weaving;
