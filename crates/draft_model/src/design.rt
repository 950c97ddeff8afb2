//! A design: all that stays the same while papers are painted.
ghost use Rattle.std.specs.Prelude.{◌≡◌, IfOk};

use casting_out::casting::Casting;
use harness_ties::tie::Tie;
use mill_base::memory::OutOfMemory;
use mill_base::size::Size;
use weave_book::book::Book;
use weave_book::weaves::Weave;

/// What a paper is read by: the weaves of its colours, the tie, the hooks, and which floats are too long.
///
/// A run of unlifted cells along a pick, or of lifted cells along an end, floats on the face; the others float on the back. The limits
/// are the greatest numbers of cells that such a float may have. `raise` and `sink` are the binders (this project's own terms).
#[derive(Drop)]
pub struct Design {
    /// The columns and picks of the paper.
    pub size: Size,
    /// The weave of each colour.
    pub book: Book,
    /// The column of each end.
    pub tie: Tie,
    /// The hook of each column.
    pub casting: Casting,
    /// The weave whose marks lift cells of a float that is too long.
    pub raise: Weave,
    /// The weave whose marks lower cells of a float that is too long.
    pub sink: Weave,
    /// The limit of unlifted cells along a pick.
    pub weft_face: u32,
    /// The limit of lifted cells along a pick.
    pub weft_back: u32,
    /// The limit of lifted cells along an end.
    pub warp_face: u32,
    /// The limit of unlifted cells along an end.
    pub warp_back: u32,
    /// The side, in columns and picks, of the tiles in which a paper is rebuilt.
    pub tile: u32,
}

impl Design {
    /// An equal design in memory of its own.
    pub fn copy(&self) -> Result<Design, OutOfMemory>
        ensures { IfOk result (λ d. d ≡ self.now) }
    {
        Ok(Design {
            size: self.size,
            book: self.book.copy()?,
            tie: self.tie.copy()?,
            casting: self.casting.copy()?,
            raise: self.raise.copy(),
            sink: self.sink.copy(),
            weft_face: self.weft_face,
            weft_back: self.weft_back,
            warp_face: self.warp_face,
            warp_back: self.warp_back,
            tile: self.tile,
        })
    }
}
