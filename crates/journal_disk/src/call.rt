//! The calls that act on a disk, as a disk in memory keeps them.
use mill_base::listed::Listed;

/// A write.
#[derive(Debug, Drop)]
pub struct Written {
    /// The place of its first byte, in bytes from the start.
    pub at: u64,
    /// What it was asked to put there.
    pub bytes: Listed<u8>,
    /// How many of them, from the front, it put.
    pub put: u64,
}

/// A call that acted on the disk. A read is none, and neither is a sync that failed.
#[derive(Debug, Drop)]
pub enum Call {
    Write(Written),
    /// A sync that succeeded.
    Sync,
}
