//! The acts of a block.
ghost use Rattle.std.specs.Prelude.{◌≡◌, ◌∷◌, ◌++◌, [], true, IfOk, OnErr};
ghost use Rattle.version_journal.specs.Entries.{is_accepted as the_is_accepted};
ghost use Rattle.studio_core.specs.Cores.{entry_by};
ghost use Rattle.version_keep.specs.Blocks.{allowed, is_next as is_the_next, marks_of, reply_to};
ghost use Rattle.version_keep.specs.Doings.{AreStarts, IsDoing, IsMarkOf, ends, is_taken};

use crate::acting::do_act;
use crate::counts::{count_mark, is_next};
use block_journal::mark::Mark;
use mill_base::memory::OutOfMemory;
use session_file::session::Session;
use std::alloc::Global;
use studio_core::tile_core::Core;
use version_journal::entry::Reply;

/// Does the acts of a block, where it is one that the session allows. Else it stops at the first act that makes it none.
pub fn take_block(
    alloc: Global,
    session: &Session,
    starts: &[u32],
    core: &mut Core,
    counts: &mut Vec<u32>,
    block: &[Mark],
) -> Result<bool, OutOfMemory>
    requires starts { AreStarts session.now starts.now }
    requires doing { IsDoing session.now core.old counts.old.items }
    ensures doing { IsDoing session.now core.new counts.new.items }
    ensures answer { IfOk result (λ good. good ≡ allowed session.now (marks_of core.old.entries) block.now) }
    ensures taken { IfOk result (λ good. good ≡ true → marks_of core.new.entries ≡ marks_of core.old.entries ++ block.now) }
{
    for at in 0..block.len() {
        let last = at + 1 == block.len();
        let good = take_mark(alloc, session, starts, core, counts, &block[at], last)?;
        if !good {
            return Ok(false);
        }
    }
    Ok(!block.is_empty())
}

// Does the act of a mark, where it is a next one. Answers whether it is, and is an accepted commit just where the block ends.
fn take_mark(
    alloc: Global,
    session: &Session,
    starts: &[u32],
    core: &mut Core,
    counts: &mut Vec<u32>,
    mark: &Mark,
    last: bool,
) -> Result<bool, OutOfMemory>
    requires starts { AreStarts session.now starts.now }
    requires doing { IsDoing session.now core.old counts.old.items }
    ensures doing { IsDoing session.now core.new counts.new.items }
    ensures answer { IfOk result (λ good. good ≡ is_taken session.now (marks_of core.old.entries) mark.now last) }
    ensures taken { IfOk result (λ good. good ≡ true → marks_of core.new.entries ≡ marks_of core.old.entries ++ mark.now ∷ []) }
{
    if !is_next(session, starts, counts, core, mark) {
        return Ok(false);
    }
    let reply = do_next(alloc, session, core, counts, mark)?;
    Ok(ends_block(is_accepted(&reply), last))
}

// Does the act of a mark that is a next one.
pub fn do_next(
    alloc: Global,
    session: &Session,
    core: &mut Core,
    counts: &mut Vec<u32>,
    mark: &Mark,
) -> Result<Reply, OutOfMemory>
    requires doing { IsDoing session.now core.old counts.old.items }
    requires mark { IsMarkOf session.now mark.now }
    requires next { is_the_next session.now (marks_of core.old.entries) mark.now ≡ true }
    ensures doing { IsDoing session.now core.new counts.new.items }
    ensures reply { IfOk result (λ reply. reply ≡ reply_to session.now (marks_of core.old.entries) mark.now) }
    ensures entries { IfOk result (λ reply. core.new.entries ≡ core.old.entries ++ entry_by mark.now.shift mark.now.painter mark.now.number reply ∷ []) }
    ensures kept { OnErr result (core.new.entries ≡ core.old.entries) }
{
    let reply = do_act(alloc, session, core, mark)?;
    count_mark(session, counts, mark);
    Ok(reply)
}

// Whether an act ends its block just where it is the last: so it is where it is an accepted commit.
fn ends_block(accepted: bool, last: bool) -> bool
    ensures { result ≡ ends accepted last }
{
    if last { accepted } else { !accepted }
}

/// Whether a reply is that to an accepted commit.
pub fn is_accepted(reply: &Reply) -> bool
    ensures { result ≡ the_is_accepted reply.now }
{
    matches!(reply, Reply::Accepted(_))
}
