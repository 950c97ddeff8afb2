//! Tests of the rules of the cloth: weaves, paper, acts, binders, ties, cast-out hooks, floats and tiles.
//!
//! They stand in a crate of their own, so that the crates below are not proved once more with them. What a clause says of every
//! input is not tried again here.
#![tactic(auto)]

#[cfg(test)]
mod acts;
#[cfg(test)]
mod binders;
#[cfg(test)]
mod blocks;
#[cfg(test)]
mod books;
#[cfg(test)]
mod castings;
#[cfg(test)]
mod expect;
#[cfg(test)]
mod floats;
#[cfg(test)]
mod grids;
#[cfg(test)]
mod marks;
#[cfg(test)]
mod papers;
#[cfg(test)]
mod ties;
