//! What became of a result.

/// The answer to a result that is given to a core.
#[derive(Clone, Copy, Debug, PartialEq, Eq)]
pub enum Given {
    /// Its cells or its flag are the tile's, and the tile's mark is cleared.
    Installed,
    /// It was made of lines that are no longer those of the paper, or it is a check beside a tile that is still to be bound.
    Stale,
    /// Its tile has no mark of its kind.
    Unmarked,
}
