//! A disk with one file, what a crash may leave of it, and how a block is put there so that each crash leaves all of it or none.
#![tactic(auto)]

pub mod call;
pub mod disk;
pub mod file_disk;
pub mod memory_disk;
pub mod put_block;
