//! What a session file says, table by table, before the image of its opening paper is read.

use crate::session::ShiftPlan;
use casting_out::casting::Casting;
use harness_ties::tie::Tie;
use mill_base::face::Face;
use mill_base::listed::Listed;
use mill_base::name_text::NameText;
use mill_base::size::Size;
use strokes::motifs::Motifs;
use weave_book::weaves::Weave;

/// The single values of the top table.
#[derive(Drop)]
pub struct Head {
    /// In which of two ways the float limits are written: 1 or 2.
    pub format: u32,
    pub looms: u32,
    pub show_rows: bool,
    pub faces: Listed<Face>,
}

/// The greatest lengths of floats.
#[derive(Clone, Copy, Debug, PartialEq, Eq)]
pub struct FloatLimits {
    pub weft_face: u32,
    pub weft_back: u32,
    pub warp_face: u32,
    pub warp_back: u32,
}

/// What the table `design` says, without the opening paper.
#[derive(Drop)]
pub struct DesignPart {
    pub size: Size,
    pub casting: Casting,
    pub limits: FloatLimits,
    pub raise: Weave,
    pub sink: Weave,
    pub tile: u32,
}

/// A colour of the book: its weave, and the numbers of its red, green and blue.
#[derive(Drop)]
pub struct Colour {
    pub weave: Weave,
    pub rgb: Listed<u16>,
}

/// A paper of one colour, or the image in the file of a name.
#[derive(Drop)]
pub enum Opening {
    Plain(u32),
    Image(NameText),
}

/// All that a session file says.
#[derive(Drop)]
pub struct SessionDraft {
    pub head: Head,
    pub design: DesignPart,
    pub colours: Listed<Colour>,
    pub tie: Tie,
    pub motifs: Motifs,
    pub opening: Opening,
    pub shifts: Listed<ShiftPlan>,
}
