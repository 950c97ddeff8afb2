//! How the desk keeps its two copies of the published list.
ghost use Rattle.std.specs.Prelude.{◌≡◌, ◌+◌, ◌<◌, [], ◌∷◌, ◌++◌, length, IfOk, MatchResult};
ghost use Rattle.shed_publish.specs.Versions.{version_of, IsPublished};
ghost use Rattle.shed_publish.specs.inner.Rule.{entries_of};
ghost use Rattle.shed_publish.specs.inner.Writers.{IsWriter, list_of};

use crate::board::{Board, Looks, Published, Put, View};
use crate::newest::Newest;
use left_right::writer::Writer;
use std::alloc::{AllocError, Global};
use std::sync::Wait;

/// The place of the desk, of which there is one.
pub(crate) type Writes = Writer<Board, Put, View, Published>;

/// A list of one entry.
pub(crate) fn one_entry(alloc: Global, entry: Newest) -> Result<Board, AllocError>
    ensures { IfOk result (λ b. entries_of b ≡ version_of entry ∷ []) }
{
    let mut entries = Vec::new(alloc);
    entries.push(entry)?;
    Ok(Board { entries })
}

// The entry is appended at the end of the list that is shown. Where it cannot be published it stays pending, and the
// next one takes its place.
pub(crate) fn publish_entry<R: Wait>(
    rt: &R,
    mut writer: Writes,
    next: Newest,
) -> (Writes, Result<(), AllocError>)
    requires writer { IsWriter writer }
    requires next { IsPublished (list_of writer ++ version_of next ∷ []) }
    ensures writer { IsWriter result.0 }
    ensures list { MatchResult result.1 (λ _. list_of result.0 ≡ list_of writer ++ version_of next ∷ []) (λ _. list_of result.0 ≡ list_of writer) }
{
    let at = writer.published().entries.len();
    let Ok(()) = writer.append(Put { at, entry: next }) else {
        return (writer, Err(AllocError));
    };
    writer.publish_as::<Looks, R>(rt)
}

/// The version of the last entry.
pub(crate) fn last_version(board: &Board) -> u32
    requires published { IsPublished (entries_of board.now) }
    requires some { 0 < length (entries_of board.now) }
    ensures { result + 1 ≡ length (entries_of board.now) }
{
    match board.entries.last() {
        Some(last) => last.version,
        None => unreachable!(),
    }
}
