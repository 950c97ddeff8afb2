//! What of a design the rebuilding of a tile uses.
ghost use Rattle.std.specs.Prelude.{◌≡◌, ◌↔◌, IfOk, IsTrue};
ghost use Rattle.tile_rebuild.specs.Tiles.{parts_of};
ghost use Rattle.tile_rebuild.specs.inner.Numbers.{HaveNumbers};

use draft_model::design::Design;
use harness_ties::tie::Tie;
use mill_base::memory::OutOfMemory;
use mill_base::size::Size;
use weave_book::book::Book;
use weave_book::weaves::Weave;

/// All of a design but its casting: the hooks of its columns decide nothing here.
#[derive(Drop)]
pub struct Parts {
    pub size: Size,
    pub book: Book,
    pub tie: Tie,
    pub raise: Weave,
    pub sink: Weave,
    pub weft_face: u32,
    pub weft_back: u32,
    pub warp_face: u32,
    pub warp_back: u32,
    pub tile: u32,
}

impl Parts {
    /// The parts of a design in memory of their own.
    pub fn of(design: &Design) -> Result<Parts, OutOfMemory>
        ensures { IfOk result (λ parts. parts ≡ parts_of design.now) }
    {
        Ok(Parts {
            size: design.size,
            book: design.book.copy()?,
            tie: design.tie.copy()?,
            raise: design.raise.copy(),
            sink: design.sink.copy(),
            weft_face: design.weft_face,
            weft_back: design.weft_back,
            warp_face: design.warp_face,
            warp_back: design.warp_back,
            tile: design.tile,
        })
    }

    /// Whether they are the parts of a design. It takes no memory.
    pub fn are_of(&self, design: &Design) -> bool
        ensures { IsTrue result ↔ (self.now ≡ parts_of design.now) }
    {
        self.have_numbers_of(design)
            && self.book.equals(&design.book)
            && self.tie.equals(&design.tie)
            && self.raise.equals(&design.raise)
            && self.sink.equals(&design.sink)
    }

    fn have_numbers_of(&self, design: &Design) -> bool
        ensures { IsTrue result ↔ HaveNumbers self.now (parts_of design.now) }
    {
        self.size == design.size
            && self.weft_face == design.weft_face
            && self.weft_back == design.weft_back
            && self.warp_face == design.warp_face
            && self.warp_back == design.warp_back
            && self.tile == design.tile
    }
}
