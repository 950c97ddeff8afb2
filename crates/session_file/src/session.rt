//! A session: a design, its opening paper, and what painters and looms are to do in each shift.

use draft_model::design::Design;
use mill_base::face::Face;
use mill_base::listed::Listed;
use point_paper::paper::Paper;
use strokes::act::Act;
use strokes::motifs::Motifs;

/// What the studio is to run.
#[derive(Drop)]
pub struct Session {
    /// What the papers are read by.
    pub design: Design,
    /// The paper that the first shift begins with.
    pub opening: Paper,
    /// The red of each of 256 colours, then the green, then the blue; 0 where the book has no such colour.
    pub colour_map: Listed<u16>,
    /// The motifs that acts name.
    pub motifs: Motifs,
    /// How many looms weave, numbered from 0.
    pub looms: u32,
    /// Whether a report has the rows of each repeat beside its digest.
    pub show_rows: bool,
    /// The side of the cloth that each loom has upwards.
    pub faces: Listed<Face>,
    /// The shifts, one after another.
    pub shifts: Listed<ShiftPlan>,
}

/// A shift: how many repeats each loom weaves, and the acts of each painter in their order.
#[derive(Drop)]
pub struct ShiftPlan {
    pub repeats: Listed<u32>,
    pub painters: Listed<Listed<Act>>,
}
