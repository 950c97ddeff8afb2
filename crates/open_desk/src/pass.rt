//! What each caller keeps.
ghost use Rattle.std.specs.Prelude.{◌≡◌, ◌+◌, ◌<◌, ◌≤◌, [], length, sum_by, IfOk, OnOk};
ghost use Rattle.std.specs.Vec.{vec_capacity};
ghost use Rattle.mill_base.specs.Lines.{line_by};
ghost use Rattle.open_desk.specs.Passes.{new_pass, told};

use crate::receipt::Receipt;
use crate::shape::Shape;
use mill_base::listed::Listed;
use mill_base::memory::OutOfMemory;
use std::alloc::Global;
use std::marker::{Model, PhantomData};
use std::sync::ledger::{Ledger, Share};

/// A caller's part of a desk: its number, counted from 0, and the receipts of its acts in order. It belongs to the desk of its ledger.
#[derive(Drop)]
pub struct Pass<L: Ledger, N: Shape> {
    pub(crate) number: u32,
    pub(crate) receipts: Vec<Receipt>,
    pub(crate) share: Share<L>,
    shape: PhantomData<N>,
}

impl<L: Ledger, N: Shape> Model for Pass<L, N> {
    ghost use Rattle.std.specs.Prelude.{◌≡◌, ◌≤◌};
    ghost use Rattle.std.specs.Vec.{vec_capacity};
    ghost use Rattle.open_desk.specs.Passes.{IsPass, PassValue};

    ghost Value = { PassValue };

    ghost view = { λ p. record { number = p.number; receipts = p.receipts.items; share = p.share.amount } };

    ghost invariant = { λ p. IsPass N.CALLERS N.ACTS (record { number = p.number; receipts = p.receipts.items; share = p.share.amount })
        × (N.ACTS ≤ vec_capacity p.receipts) × (p.share.parts ≡ 1) };
}

impl<L: Ledger, N: Shape> Pass<L, N> {
    // A pass without receipts, with room for all.
    fn new(alloc: Global, number: u32, share: Share<L>) -> Result<Pass<L, N>, OutOfMemory>
        requires caller { number < N.CALLERS }
        requires part { share.parts ≡ 1 }
        requires none { share.amount ≡ 0 }
        ensures { IfOk result (λ pass. pass ≡ new_pass number) }
    {
        let receipts = Vec::with_capacity(alloc, N::ACTS as usize)?;
        Ok(Pass {
            number,
            receipts,
            share,
            shape: PhantomData,
        })
    }

    /// The number of the caller.
    pub fn number(&self) -> u32
        ensures number { result ≡ self.now.number }
        ensures caller { result < N.CALLERS }
    {
        self.number
    }

    /// The receipts of the caller's acts, in their order. There are as many as the ledger has counted.
    pub fn receipts(&self) -> &[Receipt]
        ensures receipts { result.now ≡ self.now.receipts }
        ensures counted { self.now.share ≡ length self.now.receipts }
        ensures few { length self.now.receipts ≤ N.ACTS }
    {
        let _ = &self.share;
        &self.receipts
    }
}

/// A pass for each caller, each with a part of the ledger.
pub(crate) fn passes_of<L: Ledger, N: Shape>(
    alloc: Global,
    all: &mut Share<L>,
) -> Result<Vec<Pass<L, N>>, OutOfMemory>
    requires parts { all.old.parts ≡ N.CALLERS }
    requires none { all.old.amount ≡ 0 }
    ensures passes { IfOk result (λ passes. passes.items ≡ line_by N.CALLERS new_pass) }
    ensures parts { OnOk result (all.new.parts ≡ 0) }
    ensures none { all.new.amount ≡ 0 }
{
    let mut passes = Vec::with_capacity(alloc, N::CALLERS as usize)?;
    for number in 0..N::CALLERS {
        let share = all.split_off(1, 0);
        let pass = Pass::new(alloc, number, share)?;
        passes.push(pass)?;
    }
    Ok(passes)
}

/// The receipts of all passes, pass by pass, and their shares as one.
pub(crate) fn gather<L: Ledger, N: Shape>(
    passes: Vec<Pass<L, N>>,
    lists: &mut Vec<Listed<Receipt>>,
    all: &mut Share<L>,
)
    requires empty { lists.old.items ≡ [] }
    requires room { length passes.items ≤ vec_capacity lists.old }
    requires none { (all.old.parts ≡ 0) × (all.old.amount ≡ 0) }
    ensures lists { lists.new.items ≡ told passes.items }
    ensures parts { all.new.parts ≡ length passes.items }
    ensures amount { all.new.amount ≡ sum_by length (told passes.items) }
{
    for pass in passes {
        let Pass {
            number: _,
            receipts,
            share,
            shape: _,
        } = pass;
        all.merge(share);
        lists.push_reserved(Listed::of(receipts));
    }
}
