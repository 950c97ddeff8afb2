//! What stands under the lock of an open desk.
ghost use Rattle.std.specs.Prelude.{◌≡◌, ◌≢◌, ◌+◌, ◌*◌, ◌<◌, ◌≤◌, ◌^◌, [], false, length, replicate, slice_index, sum_by, All, IfErr, IfOk, IsOk, None, OnErr, OnOk};
ghost use Rattle.std.specs.Vec.{vec_capacity};
ghost use Rattle.draft_model.specs.Designs.{Fits, IsPaperOf};
ghost use Rattle.version_journal.specs.Journals.{float_kept, is_commit};
ghost use Rattle.studio_core.specs.Refusals.{IsStartRefusal};
ghost use Rattle.open_desk.specs.Closings.{IsCloseRefusal, core_of};
ghost use Rattle.open_desk.specs.Histories.{OneHistory, count_of};
ghost use Rattle.open_desk.specs.Locks.{IsDone, IsLocked, IsShaped, settled};
ghost use Rattle.open_desk.specs.Passes.{told};
ghost use Rattle.open_desk.specs.Refusals.{IsActRefusal};
ghost use Rattle.open_desk.specs.declared.refusal.ActRefusal.TheVariants as refusal;

use crate::closed::{CloseRefusal, Closed, close};
use crate::doing::do_next;
use crate::pass::{Pass, gather};
use crate::receipt::Receipt;
use crate::refusal::ActRefusal;
use crate::shape::Shape;
use draft_model::design::Design;
use mill_base::listed::Listed;
use mill_base::memory::OutOfMemory;
use point_paper::paper::Paper;
use std::alloc::Global;
use std::marker::{Model, PhantomData};
use std::sync::ledger::{Book, Ledger, Share};
use strokes::prepared::Prepared;
use studio_core::refusal::StartRefusal;
use studio_core::tile_core::Core;

/// The core of an open desk, the paper that it started from, and a copy of the act of each entry. Whenever the lock is free, the entries
/// are a history of one thread.
#[derive(Drop)]
pub struct Locked<L: Ledger, N: Shape> {
    core: Core,
    opening: Paper,
    acts: Vec<Prepared>,
    counts: Vec<u32>,
    book: Book<L>,
    rest: Share<L>,
    shape: PhantomData<N>,
}

impl<L: Ledger, N: Shape> Model for Locked<L, N> {
    ghost use Rattle.std.specs.Prelude.{◌≡◌};
    ghost use Rattle.std.specs.Vec.{vec_capacity};
    ghost use Rattle.open_desk.specs.Locks.{IsShaped, LockedValue};
    ghost use Rattle.open_desk.specs.inner.Kept.{IsKept};

    ghost Value = { LockedValue };

    ghost view = { λ k. record { core = k.core; opening = k.opening; acts = k.acts.items } };

    ghost invariant = { λ k. IsShaped N.COLUMNS N.PICKS N.COLOURS k.core
        × IsKept N.CALLERS N.ACTS (record { core = k.core; opening = k.opening; acts = k.acts.items }) k.counts.items k.book.total (vec_capacity k.acts)
        × (k.rest.parts ≡ 0) × (k.rest.amount ≡ 0) };
}

// No act, and room for so many.
fn room_for_acts(alloc: Global, acts: u32) -> Result<Vec<Prepared>, OutOfMemory>
    ensures none { IfOk result (λ v. v.items ≡ []) }
    ensures room { IfOk result (λ v. acts ≤ vec_capacity v) }
{
    Ok(Vec::with_capacity(alloc, acts as usize)?)
}

// A count of 0 for each caller.
fn zeros(alloc: Global, callers: u32) -> Result<Vec<u32>, OutOfMemory>
    ensures { IfOk result (λ v. v.items ≡ replicate callers 0) }
{
    Ok(Vec::from_elem(alloc, 0u32, callers as usize)?)
}

// Whether a caller with so many receipts may do an act.
fn may_act<N: Shape>(counts: &[u32], caller: u32, mine: u32) -> Result<(), ActRefusal>
    requires { caller < length counts.now }
    ensures ok { OnOk result ((mine ≢ N.ACTS) × (mine ≡ slice_index counts.now caller)) }
    ensures err { IfErr result (λ e. (e ≢ refusal.OutOfMemory) × IsActRefusal N.ACTS mine (slice_index counts.now caller) e) }
{
    if mine == N::ACTS {
        return Err(ActRefusal::Full { kept: mine });
    }
    let found = counts[caller as usize];
    if mine != found {
        return Err(ActRefusal::Differs { mine, found });
    }
    Ok(())
}

impl<L: Ledger, N: Shape> Locked<L, N> {
    /// A core with the opening as version 0 and no entry. The opening is refused where its bound paper keeps a float over its limit.
    pub fn start(
        alloc: Global,
        design: Design,
        opening: Paper,
        book: Book<L>,
        rest: Share<L>,
    ) -> Result<Locked<L, N>, StartRefusal>
        requires fits { Fits design }
        requires paper { IsPaperOf design opening }
        requires columns { design.size.columns ≡ N.COLUMNS }
        requires picks { design.size.picks ≡ N.PICKS }
        requires colours { length design.book ≡ N.COLOURS }
        requires room { N.ACTS * N.CALLERS < 2 ^ 32 }
        requires book { book.total ≡ 0 }
        requires rest { (rest.parts ≡ 0) × (rest.amount ≡ 0) }
        ensures none { IfOk result (λ locked. locked.core.entries ≡ []) }
        ensures opening { IfOk result (λ locked. locked.opening ≡ opening) }
        ensures design { IfOk result (λ locked. locked.core.design ≡ design) }
        ensures sound { OnOk result (float_kept design opening ≡ None) }
        ensures refusal { IfErr result (IsStartRefusal design opening) }
    {
        let all = N::ACTS * N::CALLERS;
        let kept = opening.copy()?;
        let acts = room_for_acts(alloc, all)?;
        let counts = zeros(alloc, N::CALLERS)?;
        let core = Core::start(alloc, design, opening, all)?;
        Ok(Locked {
            core,
            opening: kept,
            acts,
            counts,
            book,
            rest,
            shape: PhantomData,
        })
    }

    /// Does an act of a caller that has so many receipts, with the caller's share of the ledger.
    pub fn act(
        &mut self,
        caller: u32,
        mine: u32,
        share: &mut Share<L>,
        act: &Prepared,
    ) -> Result<Receipt, ActRefusal>
        requires caller { caller < N.CALLERS }
        requires part { 0 < share.old.parts }
        requires columns { act.now.size.columns ≡ N.COLUMNS }
        requires picks { act.now.size.picks ≡ N.PICKS }
        requires colours { All (λ span. span.colour < N.COLOURS) act.now.spans }
        ensures before { IsLocked N.CALLERS N.ACTS self.old }
        ensures after { IsLocked N.CALLERS N.ACTS self.new }
        ensures done { IfOk result (λ receipt. IsDone caller act.now receipt self.old self.new) }
        ensures mine { OnOk result ((mine ≢ N.ACTS) × (mine ≡ count_of caller self.old.core.entries)) }
        ensures few { OnOk result (mine < N.ACTS) }
        ensures refusal { IfErr result (IsActRefusal N.ACTS mine (count_of caller self.old.core.entries)) }
        ensures refused { IfErr result (λ e. e ≢ refusal.OutOfMemory → self.new ≡ self.old) }
        ensures paint { is_commit act.now.act ≡ false → OnErr result (self.new ≡ self.old) }
        ensures err { OnErr result (self.new ≡ record self.old { core = settled self.old.core self.new.core }) }
        ensures counted { OnOk result (share.new.amount ≡ share.old.amount + 1) }
        ensures uncounted { OnErr result (share.new.amount ≡ share.old.amount) }
        ensures parts { share.new.parts ≡ share.old.parts }
    {
        may_act::<N>(&self.counts, caller, mine)?;
        let copy = act.copy()?;
        let receipt = do_next(&mut self.core, &mut self.counts, caller, act)?;
        self.acts.push_reserved(copy);
        self.book.add(share, 1);
        Ok(receipt)
    }

    /// Takes the core out, and compares all receipts with its entries. It takes no memory, since there is room for the lists of receipts.
    pub fn close(
        self,
        lists: Vec<Listed<Receipt>>,
        passes: Vec<Pass<L, N>>,
    ) -> Result<Closed, CloseRefusal>
        requires empty { lists.items ≡ [] }
        requires room { N.CALLERS ≤ vec_capacity lists }
        requires passes { length passes.items ≡ N.CALLERS }
        requires parts { L.parts ≡ N.CALLERS }
        ensures history { IfOk result (λ closed. OneHistory self.core.design N.CALLERS self.opening self.acts self.core.entries (told passes.items)) }
        ensures closed { IfOk result (λ closed. closed ≡ record { core = self.core; opening = self.opening; acts = self.acts; receipts = told passes.items }) }
        ensures locked { IsLocked N.CALLERS N.ACTS self }
        ensures count { length self.core.entries ≡ sum_by length (told passes.items) }
        ensures refusal { IfErr result (IsCloseRefusal N.CALLERS (told passes.items)) }
        ensures core { IfErr result (λ refusal. core_of refusal ≡ self.core) }
    {
        let Locked {
            core,
            opening,
            acts,
            counts: _,
            mut book,
            mut rest,
            shape: _,
        } = self;
        let mut lists = lists;
        gather(passes, &mut lists, &mut rest);
        book.audit(&mut rest);
        close(core, opening, acts, lists)
    }
}
