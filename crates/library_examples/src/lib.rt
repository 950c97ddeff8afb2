//! The examples of docs/library.md, as tests: each block of that page stands in a file of this crate, word for word.
#![tactic(auto)]

#[cfg(test)]
mod chains;
#[cfg(test)]
mod floats;
#[cfg(test)]
mod images;
#[cfg(test)]
mod weaves;
