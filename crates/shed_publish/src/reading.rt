//! How a loom reads the published list.
ghost use Rattle.std.specs.Prelude.{◌≡◌, ◌≢◌, List, true, false, IsTrue, ◌↔◌, map, drop, length, IfSome};
ghost use Rattle.shed_publish.specs.Ends.{Differ, EndsWith, Knows, SawMore, SawOrStayed, SawOther};
ghost use Rattle.shed_publish.specs.Versions.{version_of, IsPrefix};
ghost use Rattle.shed_publish.specs.declared.newest.Version.{Version as Entry};
ghost use Rattle.shed_publish.specs.inner.Places.{seen_at};
ghost use Rattle.shed_publish.specs.inner.Rule.{entries_of};

use crate::board::{Board, Looks, Published, View};
use crate::newest::Newest;
use left_right::reader::Reader;
use std::sync::Arc;

/// The place of a loom.
pub(crate) type Reads = Reader<Board, View, Published>;

// The last entry, where its cards take one owner more.
fn last_of(board: &Board) -> Option<Newest>
    ensures { IfSome result (λ n. EndsWith (entries_of board.now) (version_of n)) }
{
    let last = board.entries.last()?;
    let version = last.version;
    match Arc::try_clone(&last.cards) {
        Ok(cards) => Some(Newest { version, cards }),
        Err(_) => None,
    }
}

/// One reading of the last entry. None comes where the desk's end is closed, or the cards took no owner more.
pub(crate) fn read_newest(reader: Reads) -> (Reads, Option<Newest>)
    ensures seen { SawOrStayed (seen_at reader.place) (seen_at result.0.place) }
    ensures later { IsPrefix (seen_at reader.place).list (seen_at result.0.place).list }
    ensures knows { (list : List Entry) → Knows list (seen_at reader.place) → Knows list (seen_at result.0.place) }
    ensures some { IfSome result.1 (λ n. EndsWith (seen_at result.0.place).list (version_of n) × SawMore (seen_at reader.place) (seen_at result.0.place)) }
{
    match reader.enter_as::<Looks>() {
        Ok(reading) => {
            let newest = last_of(reading.get());
            (reading.leave(), newest)
        }
        Err(reader) => (reader, None),
    }
}

fn same_entry(one: &Newest, other: &Newest) -> bool
    ensures { IsTrue result ↔ (version_of one.now ≡ version_of other.now) }
{
    one.version == other.version && one.cards.equals(&other.cards)
}

fn same_entries(one: &[Newest], other: &[Newest]) -> bool
    ensures same { result ≡ true → map version_of one.now ≡ map version_of other.now }
    ensures differ { result ≡ false → map version_of one.now ≢ map version_of other.now }
{
    if one.len() != other.len() {
        return false;
    }
    for (k, entry) in one.iter().enumerate() {
        if !same_entry(entry, &other[k]) {
            return false;
        }
    }
    true
}

// Whether two lists are of one length and have the same entries from the place `known` on.
fn same_from(one: &Board, other: &Board, known: u32) -> bool
    ensures length { result ≡ true → length (entries_of one.now) ≡ length (entries_of other.now) }
    ensures entries { result ≡ true → drop known (entries_of one.now) ≡ drop known (entries_of other.now) }
    ensures differ { result ≡ false → Differ known (entries_of one.now) (entries_of other.now) }
{
    let len = one.entries.len();
    if len != other.entries.len() {
        return false;
    }
    let from = len.min(known as usize);
    same_entries(&one.entries[from..], &other.entries[from..])
}

/// One reading, and whether the list that it sees is the other one, in length and in the entries from the place `known`
/// on. It is not that one either where there was no reading.
pub(crate) fn read_same(reader: Reads, other: &Board, known: u32) -> (Reads, bool)
    ensures seen { SawOrStayed (seen_at reader.place) (seen_at result.0.place) }
    ensures later { IsPrefix (seen_at reader.place).list (seen_at result.0.place).list }
    ensures knows { (list : List Entry) → Knows list (seen_at reader.place) → Knows list (seen_at result.0.place) }
    ensures more { result.1 ≡ true → SawMore (seen_at reader.place) (seen_at result.0.place) }
    ensures told { result.1 ≡ true → (list : List Entry) → Knows list (seen_at reader.place) → IsPrefix list (seen_at result.0.place).list }
    ensures length { result.1 ≡ true → length (seen_at result.0.place).list ≡ length (entries_of other.now) }
    ensures same { result.1 ≡ true → drop known (seen_at result.0.place).list ≡ drop known (entries_of other.now) }
    ensures other { result.1 ≡ false → SawOther known (entries_of other.now) (seen_at reader.place) (seen_at result.0.place) }
{
    match reader.enter_as::<Looks>() {
        Ok(reading) => {
            let same = same_from(reading.get(), other, known);
            (reading.leave(), same)
        }
        Err(reader) => (reader, false),
    }
}
