//! The first fault of the bytes of a chain so far.
ghost use Rattle.std.specs.Prelude.{◌≡◌, ◌+◌, ◌-◌, ◌*◌, ◌^◌, ◌<◌, ◌≤◌, None, length, take};
ghost use Rattle.card_image.specs.Firsts.{first_of};
ghost use Rattle.card_image.specs.Places.{card_place, chain_length, number_at};
ghost use Rattle.card_image.specs.Faults.{begins as begins_with, card_fault as fault_of_card, head_fault as fault_of_head, magic_fault as fault_of_magic, once, header_fault, chain_fault};
ghost use Rattle.card_image.specs.inner.Decoders.{design_of};

use crate::card_fault::{card_fault, number_in};
use crate::fault::ChainFault;
use crate::plan::Plan;
use crate::writing::{MAGIC_DOWN, MAGIC_UP};

fn begins(first: &[u8], whole: &[u8]) -> bool
    ensures { result ≡ begins_with first.now whole.now }
{
    let mut at = 0;
    while at < first.len() {
        if at >= whole.len() {
            return false;
        }
        if first[at] != whole[at] {
            return false;
        }
        at += 1;
    }
    true
}

fn magic_fault(first: &[u8]) -> Option<ChainFault>
    ensures { result ≡ fault_of_magic first.now }
{
    if begins(first, &MAGIC_UP) || begins(first, &MAGIC_DOWN) {
        None
    } else {
        Some(ChainFault::BadMagic)
    }
}

fn field_fault(field: u8, kept: u32, bytes: &[u8], at: usize) -> Option<ChainFault>
    requires { at < 2 ^ 60 }
    ensures { result ≡ once bytes.now (at + 4) (header_fault field kept (number_at bytes.now at)) }
{
    if bytes.len() < at + 4 {
        return None;
    }
    let found = number_in(bytes, at);
    if found == kept {
        return None;
    }
    Some(ChainFault::BadHeader { field, kept, found })
}

// The fault before the first card.
#[tactic(auto, unfolding(crate::specs::Faults::head_fault), using(std::proofs::lemmas::List::take_min))]
fn head_fault(hooks: u32, picks: u32, bytes: &[u8]) -> Option<ChainFault>
    ensures { result ≡ fault_of_head hooks picks bytes.now }
{
    let magic = magic_fault(&bytes[..4usize.min(bytes.len())]);
    let size = field_fault(0, hooks, bytes, 4).or(field_fault(1, picks, bytes, 8));
    magic.or(size)
}

// The fault of the cards, where those before a pick have none.
fn cards_fault(plan: &Plan, bytes: &[u8], from: u32) -> Option<ChainFault>
    requires room { chain_length (design_of plan.now) < 2 ^ 62 }
    requires from { from ≤ plan.now.picks }
    requires before { first_of (fault_of_card plan.now.hooks plan.now.columns.items bytes.now) from ≡ None }
    ensures { result ≡ first_of (fault_of_card plan.now.hooks plan.now.columns.items bytes.now) plan.now.picks }
{
    let size = 8 + (plan.hooks as usize + 7) / 8;
    let mut at = 12 + from as usize * size;
    for pick in from..plan.picks {
        if bytes.len() < at + 4 {
            return None;
        }
        if let Some(fault) = card_fault(plan, pick, bytes, at) {
            return Some(fault);
        }
        at += size;
    }
    None
}

// How many whole cards stand in so many bytes, and at most so many.
fn cards_in(hooks: usize, picks: u32, len: usize) -> u32
    requires few { hooks < 2 ^ 32 }
    ensures some { result ≤ picks }
    ensures there { 0 < result → card_place hooks result ≤ len }
{
    if len < 12 {
        return 0;
    }
    ((len - 12) / (8 + (hooks + 7) / 8)).min(picks as usize) as u32
}

/// The first fault of the bytes so far, which are no more than a chain, where the first `from` of them show none. The
/// cards that were there whole are not looked at again.
pub fn fault_past(plan: &Plan, bytes: &[u8], from: usize) -> Option<ChainFault>
    requires room { chain_length (design_of plan.now) < 2 ^ 62 }
    requires from { from ≤ length bytes.now }
    requires whole { length bytes.now ≤ chain_length (design_of plan.now) }
    requires before { chain_fault (design_of plan.now) (take from bytes.now) ≡ None }
    ensures { result ≡ chain_fault (design_of plan.now) bytes.now }
{
    if let Some(fault) = head_fault(plan.hooks, plan.picks, bytes) {
        return Some(fault);
    }
    let first = cards_in(plan.hooks as usize, plan.picks, from);
    cards_fault(plan, bytes, first)
}
