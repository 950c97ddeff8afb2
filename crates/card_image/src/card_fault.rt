//! The faults of one card of a chain.
ghost use Rattle.std.specs.Prelude.{◌≡◌, ◌+◌, ◌-◌, ◌*◌, ◌^◌, ◌<◌, ◌≤◌, length};
ghost use Rattle.mill_base.specs.Below.{count_below};
ghost use Rattle.card_image.specs.Places.{hole_bytes, card_place, number_at, hole_at};
ghost use Rattle.card_image.specs.Faults.{has_pad as has_pad_bit, first_idle as least_idle, holes_fault as fault_of_holes, card_fault as fault_of_card, number_fault as fault_of_number, once};
ghost use Rattle.card_image.specs.inner.Masks.{IsMask};

use crate::fault::ChainFault;
use crate::holes::{count_within, has_hole};
use crate::plan::Plan;
use byteorder::{BigEndian, ByteOrder};

/// The number in four bytes, the highest first.
pub fn number_in(bytes: &[u8], at: usize) -> u32
    requires { at + 4 ≤ length bytes.now }
    ensures { result ≡ number_at bytes.now at }
{
    BigEndian::read_u32(&bytes[at..])
}

fn has_pad(hooks: usize, holes: &[u8]) -> bool
    requires few { hooks < 2 ^ 32 }
    requires whole { length holes.now ≡ hole_bytes hooks }
    ensures { result ≡ has_pad_bit hooks (hole_at holes.now 0) }
{
    for k in 0..8 * ((hooks + 7) / 8) - hooks {
        if has_hole(holes, hooks + k) {
            return true;
        }
    }
    false
}

fn first_idle(plan: &Plan, holes: &[u8]) -> Option<u32>
    requires { length holes.now ≡ hole_bytes plan.now.hooks }
    ensures { result ≡ least_idle plan.now.hooks plan.now.columns.items (hole_at holes.now 0) }
{
    for hook in 0..plan.hooks {
        if has_hole(holes, hook as usize) && !has_hole(&plan.mask, hook as usize) {
            return Some(hook);
        }
    }
    None
}

fn count_holes(hooks: u32, holes: &[u8]) -> u32
    requires { length holes.now ≡ hole_bytes hooks }
    ensures { result ≡ count_below (hole_at holes.now 0) hooks }
{
    let mut count = 0;
    for hook in 0..hooks {
        if has_hole(holes, hook as usize) {
            count += 1;
        }
    }
    count
}

// The fault of the holes of a whole card, hook by hook.
#[tactic(auto, unfolding(crate::specs::Faults::holes_fault))]
fn slow_fault(plan: &Plan, pick: u32, written: u32, holes: &[u8]) -> Option<ChainFault>
    requires { length holes.now ≡ hole_bytes plan.now.hooks }
    ensures { result ≡ fault_of_holes plan.now.hooks plan.now.columns.items pick written (hole_at holes.now 0) }
{
    if has_pad(plan.hooks as usize, holes) {
        return Some(ChainFault::PadBit(pick));
    }
    if let Some(hook) = first_idle(plan, holes) {
        return Some(ChainFault::IdleHole { card: pick, hook });
    }
    let found = count_holes(plan.hooks, holes);
    if found == written {
        return None;
    }
    Some(ChainFault::HoleCount {
        kept: written,
        found,
    })
}

// The fault of the holes of a whole card. Where all holes are at hooks of columns the count alone can be wrong.
fn holes_fault(plan: &Plan, pick: u32, written: u32, holes: &[u8]) -> Option<ChainFault>
    requires { length holes.now ≡ hole_bytes plan.now.hooks }
    ensures { result ≡ fault_of_holes plan.now.hooks plan.now.columns.items pick written (hole_at holes.now 0) }
{
    let Some(found) = count_within(holes, &plan.mask) else {
        return slow_fault(plan, pick, written, holes);
    };
    if found == u64::from(written) {
        return None;
    }
    Some(ChainFault::HoleCount {
        kept: written,
        found: found as u32,
    })
}

fn number_fault(pick: u32, bytes: &[u8], at: usize) -> Option<ChainFault>
    requires { at < 2 ^ 63 }
    ensures { result ≡ once bytes.now (at + 4) (fault_of_number pick (number_at bytes.now at)) }
{
    if bytes.len() < at + 4 {
        return None;
    }
    let found = number_in(bytes, at);
    if found == pick {
        return None;
    }
    Some(ChainFault::CardNumber { kept: pick, found })
}

fn whole_fault(plan: &Plan, pick: u32, bytes: &[u8], at: usize) -> Option<ChainFault>
    requires { at < 2 ^ 63 }
    ensures { result ≡ once bytes.now (at + (8 + hole_bytes plan.now.hooks))
        (fault_of_holes plan.now.hooks plan.now.columns.items pick (number_at bytes.now (at + 4))
        (hole_at bytes.now (at + 8))) }
{
    let size = (plan.hooks as usize + 7) / 8;
    if bytes.len() < at + (8 + size) {
        return None;
    }
    let written = number_in(bytes, at + 4);
    holes_fault(plan, pick, written, &bytes[at + 8..at + 8 + size])
}

/// The fault of the card of a pick, which begins at a place.
pub fn card_fault(plan: &Plan, pick: u32, bytes: &[u8], at: usize) -> Option<ChainFault>
    requires room { at < 2 ^ 63 }
    requires at { at ≡ card_place plan.now.hooks pick }
    ensures { result ≡ fault_of_card plan.now.hooks plan.now.columns.items bytes.now pick }
{
    number_fault(pick, bytes, at).or(whole_fault(plan, pick, bytes, at))
}
