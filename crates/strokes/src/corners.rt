//! Two corners.

/// Two cells of a paper, each by its column and its pick: the corners of a rectangle, or the ends of a line.
#[derive(Clone, Copy)]
pub(crate) struct Corners {
    pub(crate) column0: u32,
    pub(crate) pick0: u32,
    pub(crate) column1: u32,
    pub(crate) pick1: u32,
}
