//! A chain that comes in pieces.
ghost use Rattle.std.specs.Prelude.{◌≡◌, ◌+◌, ◌^◌, ◌<◌, ◌≤◌, ◌++◌, [], ℕ, List, None, Some, length, vec_capacity, IfOk, IfErr};
ghost use Rattle.card_image.specs.Places.{chain_length};
ghost use Rattle.card_image.specs.Faults.{chain_fault, end_fault};
ghost use Rattle.card_image.specs.Chains.{Chain};
ghost use Rattle.card_image.specs.Fed.{WasFed, told as told_of};
ghost use Rattle.card_image.specs.Sets.{design_by};
ghost use Rattle.card_image.specs.inner.Decoders.{design_of};

use crate::card_set::CardSet;
use crate::fault::ChainFault;
use crate::plan::Plan;
use crate::so_far::fault_past;
use casting_out::casting::Casting;
use mill_base::memory::OutOfMemory;
use std::alloc::Global;
use std::marker::Model;

/// Reads the chain of a design (this project's own format) from pieces of any size.
#[derive(Drop)]
pub struct Decoder {
    plan: Plan,
    bytes: Vec<u8>,
    fault: Option<ChainFault>,
}

impl Model for Decoder {
    ghost use Rattle.std.specs.Prelude.{vec_capacity};
    ghost use Rattle.card_image.specs.Fed.{DecoderValue};
    ghost use Rattle.card_image.specs.inner.Decoders.{IsDecoder, design_of};

    ghost Value = { DecoderValue };

    ghost view = { λ d. record { design = design_of d.plan; bytes = d.bytes.items; fault = d.fault } };

    ghost invariant = { λ d. IsDecoder (design_of d.plan) d.bytes.items (vec_capacity d.bytes) d.fault };
}

fn told(fault: Option<ChainFault>) -> Result<(), ChainFault>
    ensures { result ≡ told_of fault }
{
    match fault {
        None => Ok(()),
        Some(fault) => Err(fault),
    }
}

// Adds a piece to the bytes so far, which show no fault. It takes no memory.
fn take_in(plan: &Plan, bytes: &mut Vec<u8>, piece: &[u8]) -> Option<ChainFault>
    requires short { length bytes.old.items ≤ chain_length (design_of plan.now) }
    requires room { chain_length (design_of plan.now) ≤ vec_capacity bytes.old }
    requires clean { chain_fault (design_of plan.now) bytes.old.items ≡ None }
    ensures fault { result ≡ chain_fault (design_of plan.now) (bytes.old.items ++ piece.now) }
    ensures bytes { result ≡ None → bytes.new.items ≡ bytes.old.items ++ piece.now }
    ensures short { length bytes.new.items ≤ chain_length (design_of plan.now) }
    ensures room { chain_length (design_of plan.now) ≤ vec_capacity bytes.new }
{
    let from = bytes.len();
    let whole = plan.length();
    let taken = piece.len().min(whole - from);
    let Ok(()) = bytes.extend_from_slice(&piece[..taken]) else {
        unreachable!();
    };
    if let Some(fault) = fault_past(plan, bytes, from) {
        return Some(fault);
    }
    if taken < piece.len() {
        return Some(ChainFault::Excess { kept: whole as u64 });
    }
    None
}

impl Decoder {
    /// A decoder that was fed nothing, for the cards of so many picks.
    pub fn new(alloc: Global, casting: &Casting, picks: u32) -> Result<Decoder, OutOfMemory>
        ensures design { IfOk result (λ d. d.design ≡ design_by casting.now picks) }
        ensures fed { IfOk result (λ d. WasFed d []) }
    {
        let plan = Plan::new(alloc, casting, picks)?;
        let bytes = Vec::with_capacity(alloc, plan.length())?;
        Ok(Decoder {
            plan,
            bytes,
            fault: None,
        })
    }

    /// Takes the next piece, and tells the first fault that the bytes so far show. It takes no memory.
    pub fn feed(&mut self, piece: &[u8]) -> Result<(), ChainFault>
        ensures design { self.new.design ≡ self.old.design }
        ensures answer { (fed : List ℕ) → WasFed self.old fed
            → result ≡ told_of (chain_fault self.old.design (fed ++ piece.now)) }
        ensures fed { (fed : List ℕ) → WasFed self.old fed → WasFed self.new (fed ++ piece.now) }
    {
        if let Some(fault) = self.fault {
            return Err(fault);
        }
        self.fault = take_in(&self.plan, &mut self.bytes, piece);
        told(self.fault)
    }

    /// The cards of the chain that was fed, or its first fault. It takes no memory.
    pub fn finish(self) -> Result<CardSet, ChainFault>
        ensures cards { (fed : List ℕ) → WasFed self fed
            → IfOk result (λ set. (set.design ≡ self.design) × Chain self.design fed set.face set.holes) }
        ensures fault { (fed : List ℕ) → WasFed self fed → IfErr result (λ f. end_fault self.design fed ≡ Some f) }
    {
        if let Some(fault) = self.fault {
            return Err(fault);
        }
        let whole = self.plan.length();
        let found = self.bytes.len();
        if found < whole {
            return Err(ChainFault::Truncated {
                kept: whole as u64,
                found: found as u64,
            });
        }
        let Decoder { plan, bytes, .. } = self;
        let Plan {
            hooks,
            picks,
            columns,
            ..
        } = plan;
        Ok(CardSet::of_chain(hooks, picks, columns, bytes))
    }
}
