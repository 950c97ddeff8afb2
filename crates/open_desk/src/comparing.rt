//! Receipts against the entries that they are of.
ghost use Rattle.std.specs.Prelude.{◌≡◌, ◌≢◌, ◌<◌, ◌^◌, false, true, length, None, IfSome};
ghost use Rattle.open_desk.specs.Differences.{AgreeBelow, AllAgree, DifferFirst, IsFirstDifference};
ghost use Rattle.open_desk.specs.Histories.{is_of, receipt_at, receipts_of};

use crate::receipt::Receipt;
use mill_base::listed::Listed;
use strokes::prepared::Prepared;
use version_journal::entry::Entry;

/// A receipt of a caller that is not the place, the act and the reply of its entry, and what these are: None where the caller has no such
/// entry.
#[derive(Clone, Copy, Debug, PartialEq, Eq)]
pub struct Difference {
    pub caller: u32,
    pub told: Receipt,
    pub kept: Option<Receipt>,
}

// The receipt of the entry at a place.
fn receipt_of(acts: &[Prepared], entries: &[Entry], place: u32) -> Receipt
    requires acts { place < length acts.now }
    requires entries { place < length entries.now }
    ensures { result ≡ receipt_at acts.now entries.now place }
{
    Receipt {
        place,
        act: *acts[place as usize].act(),
        reply: entries[place as usize].reply,
    }
}

// Whether two receipts are equal.
fn is_same(one: &Receipt, other: &Receipt) -> bool
    ensures same { result ≡ true → one.now ≡ other.now }
    ensures apart { result ≡ false → one.now ≢ other.now }
{
    one.place == other.place && one.act == other.act && one.reply == other.reply
}

// Whether the entry is the caller's.
fn is_of_caller(entry: &Entry, caller: u32) -> bool
    ensures { result ≡ is_of caller entry.now }
{
    entry.painter == caller
}

// The first receipt of a caller that is not that of its entry. Entries past the last receipt are not compared.
fn first_of_caller(
    caller: u32,
    acts: &[Prepared],
    entries: &[Entry],
    receipts: &[Receipt],
) -> Option<Difference>
    requires as_many { length acts.now ≡ length entries.now }
    requires few { length entries.now < 2 ^ 32 }
    ensures caller { IfSome result (λ d. d.caller ≡ caller) }
    ensures none { result ≡ None → AgreeBelow (length receipts.now) receipts.now (receipts_of acts.now entries.now caller) }
    ensures some { IfSome result (λ d. DifferFirst receipts.now (receipts_of acts.now entries.now caller) d.told d.kept) }
{
    let mut k = 0;
    for place in 0..entries.len() as u32 {
        if is_of_caller(&entries[place as usize], caller) {
            if k == receipts.len() {
                return None;
            }
            let told = receipts[k];
            let kept = receipt_of(acts, entries, place);
            if !is_same(&told, &kept) {
                return Some(Difference {
                    caller,
                    told,
                    kept: Some(kept),
                });
            }
            k += 1;
        }
    }
    if k == receipts.len() {
        return None;
    }
    Some(Difference {
        caller,
        told: receipts[k],
        kept: None,
    })
}

/// The first receipt, by caller and then in the order of the caller's list, that is not the place, the act and the reply of that caller's
/// entry. List i is that of caller i. Entries without a receipt are not told.
pub fn first_difference(
    acts: &[Prepared],
    entries: &[Entry],
    lists: &[Listed<Receipt>],
) -> Option<Difference>
    requires as_many { length acts.now ≡ length entries.now }
    requires few { length entries.now < 2 ^ 32 }
    requires callers { length lists.now < 2 ^ 32 }
    ensures none { result ≡ None → AllAgree (length lists.now) acts.now entries.now lists.now }
    ensures some { IfSome result (λ d. IsFirstDifference (length lists.now) acts.now entries.now lists.now d.caller d.told d.kept) }
{
    for caller in 0..lists.len() as u32 {
        let receipts = lists[caller as usize].as_slice();
        if let Some(difference) = first_of_caller(caller, acts, entries, receipts) {
            return Some(difference);
        }
    }
    None
}
