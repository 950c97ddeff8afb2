//! What a run leaves: the acts that were done, and the repeats that were woven.

use crate::entry::Entry;
use draft_model::cloth::Cloth;
use mill_base::listed::Listed;

/// A woven repeat: its shift, counted from 0, and the number of the version that it was woven from. The digest is SHA-256 (FIPS 180-4)
/// of its rows from pick 0 on, each packed into bytes. The rows are kept where the session shows them.
#[derive(Drop)]
pub struct Repeat {
    pub shift: u32,
    pub version: u32,
    pub digest: [u8; 32],
    pub rows: Option<Cloth>,
}

/// The entries in the order in which the acts were done, and for each loom its repeats in the order in which it wove them.
#[derive(Drop)]
pub struct RunLog {
    pub entries: Listed<Entry>,
    pub looms: Listed<Listed<Repeat>>,
}
