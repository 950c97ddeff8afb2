//! The published list, as the desk's end tells it to a loom's end.
ghost use Rattle.std.specs.Prelude.{◌≡◌, ◌+◌, length};

use crate::desk_end::DeskEnd;

/// What `DeskEnd::tell` gives: the list that is published now. It carries no cards. It borrows its desk, so that
/// nothing is published between the telling and the learning.
#[derive(Drop)]
pub struct Told<'a> {
    pub desk: &'a mut DeskEnd,
}

impl<'a> Told<'a> {
    /// The version of the list's last entry.
    pub fn version(&self) -> u32
        ensures { result + 1 ≡ length self.now.desk.now.list }
    {
        self.desk.version()
    }
}
