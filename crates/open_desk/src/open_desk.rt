//! The desk that callers on threads of their own act on.
ghost use Rattle.std.specs.Prelude.{◌≡◌, ◌+◌, ◌*◌, ◌<◌, ◌≤◌, ◌++◌, ◌∷◌, [], length, sum_by, All, IfErr, IfOk, None, OnErr, OnOk};
ghost use Rattle.std.specs.Vec.{vec_capacity};
ghost use Rattle.mill_base.specs.Lines.{line_by};
ghost use Rattle.draft_model.specs.Designs.{Fits, IsPaperOf};
ghost use Rattle.version_journal.specs.Journals.{float_kept};
ghost use Rattle.studio_core.specs.Refusals.{IsStartRefusal};
ghost use Rattle.open_desk.specs.Closings.{IsCloseRefusal, IsClosed, core_of};
ghost use Rattle.open_desk.specs.Histories.{OneHistory};
ghost use Rattle.open_desk.specs.Passes.{new_pass, told};
ghost use Rattle.open_desk.specs.Refusals.{IsRefusalOf};

use crate::closed::{CloseRefusal, Closed};
use crate::locked::Locked;
use crate::pass::{Pass, passes_of};
use crate::receipt::Receipt;
use crate::refusal::ActRefusal;
use crate::shape::Shape;
use draft_model::design::Design;
use mill_base::listed::Listed;
use mill_base::memory::OutOfMemory;
use point_paper::paper::Paper;
use std::alloc::Global;
use std::sync::ledger::{Blank, Ledger};
use std::sync::{Mutex, Wait};
use strokes::prepared::Prepared;
use studio_core::refusal::StartRefusal;

/// A desk that callers act on from threads of their own. The core stands under one lock, and each act is done under that lock.
#[derive(Drop)]
pub struct OpenDesk<L: Ledger, N: Shape> {
    lock: Mutex<Locked<L, N>>,
    lists: Vec<Listed<Receipt>>,
    ghost empty: { lists.items ≡ [] },
    ghost room: { N.CALLERS ≤ vec_capacity lists },
}

// No list of receipts, and room for one of each caller.
fn room_for_lists(alloc: Global, callers: u32) -> Result<Vec<Listed<Receipt>>, OutOfMemory>
    ensures none { IfOk result (λ v. v.items ≡ []) }
    ensures room { IfOk result (λ v. callers ≤ vec_capacity v) }
{
    Ok(Vec::with_capacity(alloc, callers as usize)?)
}

impl<L: Ledger, N: Shape> OpenDesk<L, N> {
    /// A desk whose core has the opening as version 0, and a pass for each caller. The blank, of a ledger of its own, has as many parts as
    /// there are callers. The opening is refused where its bound paper keeps a float over its limit.
    pub fn start(
        alloc: Global,
        design: Design,
        opening: Paper,
        blank: Blank,
    ) -> Result<(OpenDesk<L, N>, Vec<Pass<L, N>>), StartRefusal>
        requires fits { Fits design }
        requires paper { IsPaperOf design opening }
        requires columns { design.size.columns ≡ N.COLUMNS }
        requires picks { design.size.picks ≡ N.PICKS }
        requires colours { length design.book ≡ N.COLOURS }
        requires callers { (1 ≤ N.CALLERS) × (N.CALLERS ≤ 64) }
        requires acts { N.ACTS * N.CALLERS ≤ 65536 }
        requires name { blank.name ≡ L.name }
        requires parts { (blank.parts ≡ L.parts) × (L.parts ≡ N.CALLERS) }
        ensures passes { IfOk result (λ started. started.1.items ≡ line_by N.CALLERS new_pass) }
        ensures sound { OnOk result (float_kept design opening ≡ None) }
        ensures refusal { IfErr result (IsStartRefusal design opening) }
    {
        let (book, mut all) = blank.open::<L>();
        let passes = passes_of(alloc, &mut all)?;
        let lists = room_for_lists(alloc, N::CALLERS)?;
        let locked = Locked::start(alloc, design, opening, book, all)?;
        let desk = OpenDesk {
            lock: Mutex::new(locked),
            lists,
        };
        Ok((desk, passes))
    }

    /// Does an act under the lock, for which it may wait. A refusal leaves the pass and the entries of the desk as they were.
    pub fn act<R: Wait>(
        &self,
        rt: &R,
        pass: &mut Pass<L, N>,
        act: &Prepared,
    ) -> Result<Receipt, ActRefusal>
        requires columns { act.now.size.columns ≡ N.COLUMNS }
        requires picks { act.now.size.picks ≡ N.PICKS }
        requires colours { All (λ span. span.colour < N.COLOURS) act.now.spans }
        ensures receipt { IfOk result (λ receipt. pass.new ≡ record { number = pass.old.number; receipts = pass.old.receipts ++ receipt ∷ []; share = pass.old.share + 1 }) }
        ensures act { IfOk result (λ receipt. receipt.act ≡ act.now.act) }
        ensures few { OnOk result (length pass.old.receipts < N.ACTS) }
        ensures refusal { IfErr result (IsRefusalOf N.ACTS (length pass.old.receipts)) }
        ensures err { OnErr result (pass.new ≡ pass.old) }
    {
        let mine = pass.receipts.len() as u32;
        let receipt = self
            .lock
            .lock(rt)
            .act(pass.number, mine, &mut pass.share, act)?;
        pass.receipts.push_reserved(receipt);
        Ok(receipt)
    }

    /// Closes the desk with the passes of all its callers, by number: the receipts of each are compared with its entries. It takes no
    /// memory, and waits for nobody.
    pub fn close(self, passes: Vec<Pass<L, N>>) -> Result<Closed, CloseRefusal>
        requires passes { length passes.items ≡ N.CALLERS }
        requires parts { L.parts ≡ N.CALLERS }
        ensures history { IfOk result (λ closed. OneHistory closed.core.design N.CALLERS closed.opening closed.acts closed.core.entries closed.receipts) }
        ensures receipts { IfOk result (λ closed. closed.receipts ≡ told passes.items) }
        ensures closed { IfOk result IsClosed }
        ensures count { IfOk result (λ closed. length closed.core.entries ≡ sum_by length (told passes.items)) }
        ensures refusal { IfErr result (IsCloseRefusal N.CALLERS (told passes.items)) }
        ensures refused_count { IfErr result (λ refusal. length (core_of refusal).entries ≡ sum_by length (told passes.items)) }
    {
        let OpenDesk { lock, lists } = self;
        lock.into_inner().close(lists, passes)
    }
}
