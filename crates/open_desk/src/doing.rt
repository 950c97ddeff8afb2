//! One act on the core.
ghost use Rattle.std.specs.Prelude.{◌≡◌, ◌<◌, ◌+◌, ◌-◌, ◌^◌, ◌++◌, ◌∷◌, [], false, length, slice_index, slice_set, All, IfOk, IsOk, OnErr, OnOk};
ghost use Rattle.version_journal.specs.Journals.{History, committed, is_commit as is_a_commit};
ghost use Rattle.studio_core.specs.Cores.{entry_by};
ghost use Rattle.studio_core.specs.Histories.{IsAt};
ghost use Rattle.open_desk.specs.Locks.{IsActed, settled};

use crate::receipt::Receipt;
use mill_base::memory::OutOfMemory;
use mill_base::steps::Steps;
use std::marker::Brand;
use std::sync::ledger::{Blank, Ledger};
use strokes::act::Act;
use strokes::prepared::Prepared;
use studio_core::tile_core::Core;
use version_journal::entry::Reply;

// Whether the act is a commit.
fn is_commit(act: &Act) -> bool
    ensures { result ≡ is_a_commit act.now }
{
    matches!(act, Act::Commit)
}

// Replies to a commit. Its steps tick a counter of their own, which goes with the call.
fn commit_with<L: Ledger>(
    core: &mut Core,
    caller: u32,
    number: u32,
    blank: Blank,
) -> Result<Reply, OutOfMemory>
    requires spare { 0 < core.old.spare }
    requires blank { (blank.name ≡ L.name) × (blank.parts ≡ L.parts) × (L.parts ≡ 1) }
    ensures entries { IfOk result (λ reply. core.new.entries ≡ core.old.entries ++ entry_by 0 caller number reply ∷ []) }
    ensures spare { IfOk result (λ reply. core.new.spare + 1 ≡ core.old.spare) }
    ensures design { core.new.design ≡ core.old.design }
    ensures err { OnErr result (core.new ≡ settled core.old core.new) }
    ensures at { IfOk result (λ reply. (h : History) → IsAt h core.old
        → IsAt (committed core.old.design h) core.new × ((committed core.old.design h).replies ≡ h.replies ++ reply ∷ [])) }
    ensures stays { OnErr result ((h : History) → IsAt h core.old → IsAt h core.new) }
{
    let (book, all) = blank.open::<L>();
    let mut steps = Steps::new(book, all);
    core.commit(0, caller, number, &mut steps)
}

/// Does an act, which becomes the caller's act of this number. A paint takes no memory. Where memory is refused to a commit, the core may
/// be settled.
pub(crate) fn do_act(
    core: &mut Core,
    caller: u32,
    number: u32,
    act: &Prepared,
) -> Result<Reply, OutOfMemory>
    requires spare { 0 < core.old.spare }
    requires size { act.now.size ≡ core.old.design.size }
    requires colours { All (λ span. span.colour < length core.old.design.book) act.now.spans }
    ensures done { IfOk result (λ reply. IsActed caller number act.now reply core.old core.new) }
    ensures painted { is_a_commit act.now.act ≡ false → IsOk result }
    ensures err { OnErr result (core.new ≡ settled core.old core.new) }
    ensures stays { OnErr result ((h : History) → IsAt h core.old → IsAt h core.new) }
{
    if is_commit(act.act()) {
        return commit_with::<Brand>(core, caller, number, Blank::new(1));
    }
    core.paint(0, caller, number, act);
    Ok(Reply::Painted)
}

/// Does an act as the caller's next, which `counts` counts, and makes its receipt.
pub(crate) fn do_next(
    core: &mut Core,
    counts: &mut Vec<u32>,
    caller: u32,
    act: &Prepared,
) -> Result<Receipt, OutOfMemory>
    requires caller { caller < length counts.old.items }
    requires count { slice_index counts.old.items caller < 2 ^ 32 - 1 }
    requires spare { 0 < core.old.spare }
    requires size { act.now.size ≡ core.old.design.size }
    requires colours { All (λ span. span.colour < length core.old.design.book) act.now.spans }
    ensures place { IfOk result (λ receipt. receipt.place ≡ length core.old.entries) }
    ensures act { IfOk result (λ receipt. receipt.act ≡ act.now.act) }
    ensures done { IfOk result (λ receipt. IsActed caller (slice_index counts.old.items caller + 1) act.now receipt.reply core.old core.new) }
    ensures counts { OnOk result (counts.new.items ≡ slice_set counts.old.items caller (slice_index counts.old.items caller + 1)) }
    ensures same_counts { OnErr result (counts.new.items ≡ counts.old.items) }
    ensures painted { is_a_commit act.now.act ≡ false → IsOk result }
    ensures err { OnErr result (core.new ≡ settled core.old core.new) }
    ensures stays { OnErr result ((h : History) → IsAt h core.old → IsAt h core.new) }
{
    let _ = core.design();
    let place = core.entries().len() as u32;
    let number = counts[caller as usize] + 1;
    let reply = do_act(core, caller, number, act)?;
    counts[caller as usize] = number;
    Ok(Receipt {
        place,
        act: *act.act(),
        reply,
    })
}
