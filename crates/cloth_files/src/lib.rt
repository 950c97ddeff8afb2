//! The files that the studio writes beside its report: the image of a cloth or of a paper, and the chain of its cards. Each is bytes in
//! memory, exact.
#![tactic(auto)]

mod cards;
mod drawings;
mod images;
pub mod laws;
mod lifting;
mod pixels;

pub use cards::chain_file;
pub use drawings::{drawdown_file, paper_file};
pub use images::{image_of_cloth, image_of_paper};
pub use lifting::{LiftRefusal, lifted_file};
