//! Faces of a cloth.

/// Which side of the cloth lies upwards in the loom. With the face up a lifted end is a hole in the card; with the face
/// down it is the other way round.
#[derive(Clone, Copy, Debug, PartialEq, Eq)]
pub enum Face {
    Up,
    Down,
}
