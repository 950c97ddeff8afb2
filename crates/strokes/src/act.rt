//! Acts: what a painter does, one after another.

/// What a painter does to a paper. Columns are counted from the left and picks from the bottom, both from 0. What each
/// act paints is this project's own rule; a stamp and a half drop put a motif, named by its number, round the repeat.
#[derive(Clone, Copy, Debug, PartialEq, Eq)]
pub enum Act {
    /// One cell.
    Dot {
        colour: u8,
        column: u32,
        pick: u32,
    },
    /// All cells between two corners, both included.
    Rect {
        colour: u8,
        column0: u32,
        pick0: u32,
        column1: u32,
        pick1: u32,
    },
    /// A straight line of cells from the first corner to the second, both included.
    Line {
        colour: u8,
        column0: u32,
        pick0: u32,
        column1: u32,
        pick1: u32,
    },
    /// A motif with its lowest left cell at a cell.
    Stamp {
        motif: u32,
        column: u32,
        pick: u32,
    },
    /// The same, and after it the motif once more, half the paper further to the right and half the paper further up.
    HalfDrop {
        motif: u32,
        column: u32,
        pick: u32,
    },
    /// Nothing is painted: the paper as it is becomes the next version, if its cloth keeps the float limits.
    Commit,
}

/// The kinds of acts, each with a first word of its own.
#[derive(Clone, Copy, Debug, PartialEq, Eq)]
pub enum ActKind {
    Dot,
    Rect,
    Line,
    Stamp,
    HalfDrop,
    Commit,
}
