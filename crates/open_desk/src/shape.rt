//! What the user of an open desk fixes.
ghost use Rattle.std.specs.Prelude.{ℕ};

/// The numbers of an open desk. Its user implements this for a type of its own.
pub trait Shape {
    /// The columns of the design.
    const COLUMNS: u32;
    /// The picks of the design.
    const PICKS: u32;
    /// The colours of the design's book.
    const COLOURS: u32;
    /// How many callers there are, from 1 to 64.
    const CALLERS: u32;
    /// How many acts each caller may do; of all callers together at most 65,536.
    const ACTS: u32;

    ghost COLUMNS: { ℕ };

    ghost PICKS: { ℕ };

    ghost COLOURS: { ℕ };

    ghost CALLERS: { ℕ };

    ghost ACTS: { ℕ };
}
