//! How a journal is opened.
ghost use Rattle.std.specs.Prelude.{◌≡◌, ◌⊎◌, ◌≤◌, ◌<◌, ◌^◌, ◌+◌, ◌++◌, ◌∷◌, ℕ, List, [], length, take, slice_index, vec_capacity, IfSome, IfOk, IfErr, OnOk};
ghost use Rattle.mill_base.specs.Causes.{HasCause};
ghost use Rattle.journal_disk.specs.Disks.{AtRest, seen};
ghost use Rattle.journal_disk.specs.Told.{BothTold};
ghost use Rattle.block_journal.specs.Journals.{AllGood, StandsTo, header, joined};
ghost use Rattle.block_journal.specs.declared.mark.Mark.{Mark as MarkOf};
ghost use Rattle.block_journal.specs.Opens.{BrokenAt, HasHeader, OpenFaultRose, MatchRefusal, NotJournalAt, ReadTo};

use crate::decode::next_block;
use crate::mark::{Mark, Rule};
use journal_disk::disk::{Disk, Failed};
use mill_base::memory::OutOfMemory;
use std::alloc::{AllocError, Global};

/// How many bytes of a file are read: as many as a journal can have up to its last block, and a block of the greatest size behind it.
pub(crate) const MOST_BYTES: u64 = 2_097_152;

/// Why a journal was not opened.
#[derive(Clone, Copy, Debug, PartialEq, Eq)]
pub enum KeepRefusal {
    /// The disk failed.
    Fault,
    /// The byte of this number is missing or not that of the header.
    NotJournal(u32),
    /// The block of this number, counted from 0, is not good.
    Broken(u32),
    /// Memory was refused.
    OutOfMemory,
}

impl From<OutOfMemory> for KeepRefusal {
    ghost use Rattle.block_journal.specs.declared.open.KeepRefusal.TheVariants.{OutOfMemory};

    ghost from_gives = { λ _ refusal. refusal ≡ OutOfMemory };

    fn from(_error: OutOfMemory) -> KeepRefusal {
        KeepRefusal::OutOfMemory
    }
}

impl From<AllocError> for KeepRefusal {
    ghost use Rattle.block_journal.specs.declared.open.KeepRefusal.TheVariants.{OutOfMemory};

    ghost from_gives = { λ _ refusal. refusal ≡ OutOfMemory };

    fn from(_error: AllocError) -> KeepRefusal {
        KeepRefusal::OutOfMemory
    }
}

impl From<Failed> for KeepRefusal {
    ghost use Rattle.block_journal.specs.declared.open.KeepRefusal.TheVariants.{Fault};

    ghost from_gives = { λ _ refusal. refusal ≡ Fault };

    fn from(_error: Failed) -> KeepRefusal {
        KeepRefusal::Fault
    }
}

/// Reads the journal in the bytes into `marks`, and answers the place behind its blocks.
pub(crate) fn read_back<R: Rule>(
    rule: &mut R,
    digest: &[u8],
    bytes: &[u8],
    marks: &mut Vec<Mark>,
) -> Result<usize, KeepRefusal>
    requires empty { marks.old.items ≡ [] }
    requires digest { length digest.now ≡ 32 }
    requires fresh { R.taken rule.old ≡ [] }
    requires within { (blocks : List (List MarkOf)) → AllGood (R.allows rule.old) [] blocks → length (joined blocks) ≤ R.most rule.old }
    requires few { R.most rule.old ≤ 65536 }
    ensures stands { IfOk result (λ place. StandsTo (R.allows rule.old) digest.now bytes.now marks.new.items place) }
    ensures few { OnOk result (length marks.new.items ≤ R.most rule.old) }
    ensures taken { OnOk result (R.taken rule.new ≡ marks.new.items) }
    ensures allows { R.allows rule.new ≡ R.allows rule.old }
    ensures most { R.most rule.new ≡ R.most rule.old }
    ensures refused { IfErr result (λ refusal. MatchRefusal refusal ⊥ (λ at. NotJournalAt digest.now bytes.now at) (λ k. BrokenAt (R.allows rule.old) digest.now bytes.now k)) }
    ensures room { vec_capacity marks.old ≤ vec_capacity marks.new }
{
    check_header(digest, bytes)?;
    read_blocks(rule, digest, bytes, marks)
}

fn check_header(digest: &[u8], bytes: &[u8]) -> Result<(), KeepRefusal>
    requires { length digest.now ≡ 32 }
    ensures ok { OnOk result (HasHeader digest.now bytes.now) }
    ensures refused { IfErr result (λ refusal. MatchRefusal refusal ⊥ (λ at. NotJournalAt digest.now bytes.now at) (λ k. ⊥)) }
{
    for at in 0..36u32 {
        let index = at as usize;
        if index == bytes.len() {
            return Err(KeepRefusal::NotJournal(at));
        }
        if bytes[index] != header_byte(digest, index) {
            return Err(KeepRefusal::NotJournal(at));
        }
    }
    if bytes.len() == 36 {
        return Err(KeepRefusal::NotJournal(36));
    }
    Ok(())
}

fn header_byte(digest: &[u8], index: usize) -> u8
    requires digest { length digest.now ≡ 32 }
    requires index { index < 36 }
    ensures { result ≡ slice_index (header digest.now) index }
{
    match index {
        0 => 74,
        1 => 83,
        2 => 84,
        3 => 49,
        _ => digest[index - 4],
    }
}

#[tactic(auto, using(crate::proofs::Reading::read_stands))]
fn read_blocks<R: Rule>(
    rule: &mut R,
    digest: &[u8],
    bytes: &[u8],
    marks: &mut Vec<Mark>,
) -> Result<usize, KeepRefusal>
    requires empty { marks.old.items ≡ [] }
    requires header { HasHeader digest.now bytes.now }
    requires fresh { R.taken rule.old ≡ [] }
    requires within { (blocks : List (List MarkOf)) → AllGood (R.allows rule.old) [] blocks → length (joined blocks) ≤ R.most rule.old }
    requires few { R.most rule.old ≤ 65536 }
    ensures stands { IfOk result (λ place. StandsTo (R.allows rule.old) digest.now bytes.now marks.new.items place) }
    ensures few { OnOk result (length marks.new.items ≤ R.most rule.old) }
    ensures taken { OnOk result (R.taken rule.new ≡ marks.new.items) }
    ensures allows { R.allows rule.new ≡ R.allows rule.old }
    ensures most { R.most rule.new ≡ R.most rule.old }
    ensures refused { IfErr result (λ refusal. MatchRefusal refusal ⊥ (λ at. ⊥) (λ k. BrokenAt (R.allows rule.old) digest.now bytes.now k)) }
    ensures room { vec_capacity marks.old ≤ vec_capacity marks.new }
{
    let mut place = 36;
    let mut count = 0;
    while bytes[place] == 1 {
        place = read_block(rule, digest, bytes, marks, place, count)?;
        count += 1;
    }
    Ok(place)
}

// Reads one block, and answers the place behind it.
fn read_block<R: Rule>(
    rule: &mut R,
    digest: &[u8],
    bytes: &[u8],
    marks: &mut Vec<Mark>,
    place: usize,
    count: u32,
) -> Result<usize, KeepRefusal>
    requires read { ReadTo (R.allows rule.old) digest.now bytes.now marks.old.items place count }
    requires starts { slice_index bytes.now place ≡ 1 }
    requires taken { R.taken rule.old ≡ marks.old.items }
    ensures read { IfOk result (λ next. ReadTo (R.allows rule.old) digest.now bytes.now marks.new.items next (count + 1)) }
    ensures further { IfOk result (λ next. place < next) }
    ensures more { OnOk result (length marks.old.items < length marks.new.items) }
    ensures taken { OnOk result (R.taken rule.new ≡ marks.new.items) }
    ensures allows { R.allows rule.new ≡ R.allows rule.old }
    ensures most { R.most rule.new ≡ R.most rule.old }
    ensures refused { IfErr result (λ refusal. MatchRefusal refusal ⊥ (λ at. ⊥) (λ k. BrokenAt (R.allows rule.old) digest.now bytes.now k)) }
    ensures room { vec_capacity marks.old ≤ vec_capacity marks.new }
{
    let alloc = *marks.allocator();
    let Some(block) = next_block(alloc, &bytes[place + 1..])? else {
        return Err(KeepRefusal::Broken(count));
    };
    if !rule.take(&block)? {
        return Err(KeepRefusal::Broken(count));
    }
    marks.extend_from_slice(&block)?;
    Ok(place + 5 + 12 * block.len())
}

// The first bytes of a disk that has so many: all of them, or `MOST_BYTES`.
pub(crate) fn read_front<D: Disk>(
    alloc: Global,
    disk: &mut D,
    len: u64,
) -> Result<Vec<u8>, KeepRefusal>
    requires { IfSome (D.told disk.old) (λ log. len ≡ length (seen log)) }
    ensures bytes { IfOk result (λ bytes. IfSome (D.told disk.old) (λ log. bytes.items ≡ take 2097152 (seen log))) }
    ensures told { D.told disk.new ≡ D.told disk.old }
    ensures cause { OpenFaultRose (D.faults disk.old) (D.faults disk.new) result }
    ensures refused { IfErr result (λ refusal. MatchRefusal refusal (Unit {0}) (λ at. ⊥) (λ k. ⊥)) }
{
    let mut bytes = Vec::from_elem(alloc, 0u8, len.min(MOST_BYTES) as usize)?;
    let count = disk.read(0, &mut bytes)?;
    bytes.truncate(count as usize);
    Ok(bytes)
}

// Makes a journal without blocks of a disk without bytes.
pub(crate) fn write_header<D: Disk>(
    alloc: Global,
    disk: &mut D,
    digest: &[u8],
) -> Result<(), KeepRefusal>
    requires { IfSome (D.told disk.old) (λ log. seen log ≡ []) }
    ensures put { OnOk result (IfSome (D.told disk.new) (λ log. AtRest log × (seen log ≡ header digest.now ++ 0 ∷ []))) }
    ensures told { BothTold (D.told disk.old) (D.told disk.new) (λ old new. Unit {0}) }
    ensures cause { OpenFaultRose (D.faults disk.old) (D.faults disk.new) result }
    ensures refused { IfErr result (λ refusal. MatchRefusal refusal (Unit {0}) (λ at. ⊥) (λ k. ⊥)) }
{
    let mut bytes = Vec::with_capacity(alloc, 37)?;
    bytes.extend_from_slice(&[74, 83, 84, 49])?;
    bytes.extend_from_slice(digest)?;
    bytes.extend_from_slice(&[0])?;
    disk.write_at(0, &bytes)?;
    disk.sync()?;
    Ok(())
}
