//! A journal of blocks.
ghost use Rattle.std.specs.Prelude.{◌≡◌, ◌≤◌, ◌<◌, ◌^◌, ◌+◌, ◌-◌, ◌*◌, ◌++◌, List, [], None, Some, length, vec_capacity, IfSome, IfOk, IfErr, OnOk, OnErr};
ghost use Rattle.journal_disk.specs.Disks.{AtRest, LeavesOnly, seen};
ghost use Rattle.journal_disk.specs.Told.{BothTold};
ghost use Rattle.block_journal.specs.Journals.{AllGood, IsGood, Rule as RuleOf, StandsTo, joined};
ghost use Rattle.block_journal.specs.Opens.{BrokenAt, MatchRefusal, NotJournalAt, OnlySynced, OpenFaultRose, RefusedFor};
ghost use Rattle.block_journal.specs.declared.mark.Mark.{Mark as MarkOf};
ghost use Rattle.block_journal.specs.Keeps.{IsKept, IsReady, WithOrWithout, KeepsAll, Answers, FaultRose};

use crate::encode::encode;
use crate::mark::{Mark, Rule};
use crate::open::{KeepRefusal, read_back, read_front, write_header};
use journal_disk::disk::Disk;
use journal_disk::put_block::put_block;
use mill_base::memory::OutOfMemory;
use std::alloc::Global;
use std::marker::Model;

/// The most marks of a block.
pub const BLOCK_MARKS: u32 = 65_536;

/// Where the first block stands: behind the header.
pub const FIRST_BLOCK: u64 = 36;

/// Why a block was not added.
#[derive(Clone, Copy, Debug, PartialEq, Eq)]
pub enum AddRefusal {
    /// The disk failed. The journal is to be opened again.
    Fault,
    /// The add of this number, counted from 0, failed.
    Closed(u32),
}

/// An open journal. It keeps its blocks' marks, and the place behind the blocks, in bytes from the start of the file.
#[derive(Drop)]
pub struct BlockJournal {
    digest: Vec<u8>,
    marks: Vec<Mark>,
    place: u64,
    spare: u32,
    // room for a block's bytes
    buffer: Vec<u8>,
    adds: u32,
    failed: Option<u32>,
}

impl Model for BlockJournal {
    ghost use Rattle.std.specs.Prelude.{length, vec_capacity};
    ghost use Rattle.block_journal.specs.Journals.{JournalView, HasRoom};

    ghost Value = { JournalView };

    ghost view = { λ k. record { digest = k.digest.items; marks = k.marks.items; place = k.place; spare = k.spare; adds = k.adds; failed = k.failed } };

    ghost invariant = { λ k. HasRoom (length k.marks.items) k.spare k.place k.adds (vec_capacity k.marks) (vec_capacity k.buffer) };
}

impl BlockJournal {
    /// Opens the journal on a disk, with room for all marks that the rule can allow. A disk without bytes gets the header, and then is
    /// a journal without blocks. On any other disk nothing is written. It begins with a sync.
    pub fn open<R: Rule, D: Disk>(
        alloc: Global,
        disk: &mut D,
        rule: &mut R,
        digest: &[u8],
    ) -> Result<BlockJournal, KeepRefusal>
        requires digest { length digest.now ≡ 32 }
        requires fresh { R.taken rule.old ≡ [] }
        requires within { (blocks : List (List MarkOf)) → AllGood (R.allows rule.old) [] blocks → length (joined blocks) ≤ R.most rule.old }
        requires few { R.most rule.old ≤ 65536 }
        ensures stands { IfOk result (λ journal. IsKept (R.allows rule.old) (D.told disk.new) journal) }
        ensures digest { IfOk result (λ journal. journal.digest ≡ digest.now) }
        ensures unfailed { IfOk result (λ journal. (journal.failed ≡ None) × (journal.adds ≡ 0)) }
        ensures room { IfOk result (λ journal. length journal.marks + journal.spare ≡ R.most rule.old) }
        ensures taken { IfOk result (λ journal. R.taken rule.new ≡ journal.marks) }
        ensures allows { R.allows rule.new ≡ R.allows rule.old }
        ensures most { R.most rule.new ≡ R.most rule.old }
        ensures empty { IfOk result (λ journal. IfSome (D.told disk.old) (λ log. seen log ≡ [] → journal.marks ≡ [])) }
        ensures refused { IfErr result (λ refusal. IfSome (D.told disk.old) (λ log. RefusedFor (R.allows rule.old) digest.now (seen log) refusal)) }
        ensures told { BothTold (D.told disk.old) (D.told disk.new) (λ old new. 0 < length (seen old) → OnlySynced old new) }
        ensures cause { OpenFaultRose (D.faults disk.old) (D.faults disk.new) result }
    {
        disk.sync()?;
        let len = disk.len()?;
        if len == 0 {
            return begin(alloc, disk, rule.most(), digest);
        }
        go_on(alloc, disk, rule, digest, len)
    }

    // A journal that is a header, and has room for so many marks.
    fn without_blocks(alloc: Global, most: u32, digest: &[u8]) -> Result<BlockJournal, OutOfMemory>
        requires { most ≤ 65536 }
        ensures digest { IfOk result (λ journal. journal.digest ≡ digest.now) }
        ensures unfailed { IfOk result (λ journal. (journal.failed ≡ None) × (journal.adds ≡ 0)) }
        ensures room { IfOk result (λ journal. journal.spare ≡ most) }
        ensures marks { IfOk result (λ journal. (journal.marks ≡ []) × (journal.place ≡ 36)) }
    {
        Ok(BlockJournal {
            digest: Vec::from_slice(alloc, digest)?,
            marks: Vec::with_capacity(alloc, most as usize)?,
            place: FIRST_BLOCK,
            spare: most,
            buffer: Vec::with_capacity(alloc, 5 + 12 * most.min(BLOCK_MARKS) as usize)?,
            adds: 0,
            failed: None,
        })
    }

    /// The journal in these bytes, with room for all marks that the rule can allow.
    pub fn of_bytes<R: Rule>(
        alloc: Global,
        rule: &mut R,
        digest: &[u8],
        bytes: &[u8],
    ) -> Result<BlockJournal, KeepRefusal>
        requires digest { length digest.now ≡ 32 }
        requires fresh { R.taken rule.old ≡ [] }
        requires within { (blocks : List (List MarkOf)) → AllGood (R.allows rule.old) [] blocks → length (joined blocks) ≤ R.most rule.old }
        requires few { R.most rule.old ≤ 65536 }
        ensures stands { IfOk result (λ journal. StandsTo (R.allows rule.old) digest.now bytes.now journal.marks journal.place) }
        ensures digest { IfOk result (λ journal. journal.digest ≡ digest.now) }
        ensures unfailed { IfOk result (λ journal. (journal.failed ≡ None) × (journal.adds ≡ 0)) }
        ensures room { IfOk result (λ journal. length journal.marks + journal.spare ≡ R.most rule.old) }
        ensures taken { IfOk result (λ journal. R.taken rule.new ≡ journal.marks) }
        ensures allows { R.allows rule.new ≡ R.allows rule.old }
        ensures most { R.most rule.new ≡ R.most rule.old }
        ensures refused { IfErr result (λ refusal. MatchRefusal refusal ⊥ (λ at. NotJournalAt digest.now bytes.now at) (λ k. BrokenAt (R.allows rule.old) digest.now bytes.now k)) }
    {
        let most = rule.most();
        let mut marks = Vec::with_capacity(alloc, most as usize)?;
        let place = read_back(rule, digest, bytes, &mut marks)?;
        let buffer = Vec::with_capacity(alloc, 5 + 12 * most.min(BLOCK_MARKS) as usize)?;
        let digest = Vec::from_slice(alloc, digest)?;
        let spare = most - marks.len() as u32;
        Ok(BlockJournal {
            digest,
            marks,
            place: place as u64,
            spare,
            buffer,
            adds: 0,
            failed: None,
        })
    }

    /// The marks of the journal's blocks.
    pub fn marks(&self) -> &[Mark]
        ensures { result.now ≡ self.now.marks }
    {
        &self.marks
    }

    /// How many more marks there is room for.
    pub fn spare(&self) -> u32
        ensures { result ≡ self.now.spare }
    {
        self.spare
    }

    /// Puts the block on the disk behind the others. It takes no memory. After `Ok` it is acknowledged: from then on each crash leaves
    /// it. After `Fault` the journal takes no more blocks, and is to be opened again.
    pub fn add<D: Disk>(&mut self, disk: &mut D, block: &[Mark]) -> Result<(), AddRefusal>
        requires some { 1 ≤ length block.now }
        requires few { length block.now ≤ BLOCK_MARKS }
        requires room { length block.now ≤ self.old.spare }
        requires ready { self.old.failed ≡ None → IsReady (D.told disk.old) self.old.place }

        // Whatever the rule by which the disk stood for the marks and the block may follow them: at each moment of the call a crash
        // leaves the marks from before it, or these with the block.
        ensures crash { (rule : RuleOf) → self.old.failed ≡ None → IsKept rule (D.told disk.old) self.old → IsGood rule self.old.marks block.now
            → BothTold (D.told disk.old) (D.told disk.new) (λ old new. LeavesOnly old new (WithOrWithout rule self.old.digest self.old.marks block.now)) }
        // After it succeeded, the latter.
        ensures acknowledged { OnOk result ((rule : RuleOf) → IsKept rule (D.told disk.old) self.old → IsGood rule self.old.marks block.now
            → KeepsAll rule (D.told disk.new) self.old.digest (self.old.marks ++ block.now)) }
        ensures stands { OnOk result ((rule : RuleOf) → IsKept rule (D.told disk.old) self.old → IsGood rule self.old.marks block.now
            → IsKept rule (D.told disk.new) self.new) }

        ensures marks { OnOk result (self.new.marks ≡ self.old.marks ++ block.now) }
        ensures spare { OnOk result (self.new.spare ≡ self.old.spare - length block.now) }
        ensures open { OnOk result (self.new.failed ≡ None) }
        ensures adds { OnOk result (self.new.adds ≡ self.old.adds + 1) }
        ensures failed { self.old.failed ≡ None → OnErr result (self.new.failed ≡ Some self.old.adds) }
        ensures refused { OnErr result (self.new.marks ≡ self.old.marks) }
        ensures digest { self.new.digest ≡ self.old.digest }
        ensures answer { Answers self.old.failed result }
        ensures closed { IfSome self.old.failed (λ number. (self.new ≡ self.old) × (D.told disk.new ≡ D.told disk.old)) }
        ensures cause { FaultRose (D.faults disk.old) (D.faults disk.new) result }
    {
        if let Some(number) = self.failed {
            return Err(AddRefusal::Closed(number));
        }
        encode(&mut self.buffer, block);
        let Ok(()) = put_block(disk, self.place, &self.buffer) else {
            self.failed = Some(self.adds);
            return Err(AddRefusal::Fault);
        };
        append(&mut self.marks, block);
        self.place += 5 + 12 * block.len() as u64;
        self.spare -= block.len() as u32;
        self.adds += 1;
        Ok(())
    }
}

// Makes a journal without blocks of a disk without bytes. All room is made first, so that want of memory writes nothing.
fn begin<D: Disk>(
    alloc: Global,
    disk: &mut D,
    most: u32,
    digest: &[u8],
) -> Result<BlockJournal, KeepRefusal>
    requires digest { length digest.now ≡ 32 }
    requires most { most ≤ 65536 }
    requires empty { IfSome (D.told disk.old) (λ log. seen log ≡ []) }
    ensures stands { IfOk result (λ journal. (rule : RuleOf) → IsKept rule (D.told disk.new) journal) }
    ensures digest { IfOk result (λ journal. journal.digest ≡ digest.now) }
    ensures unfailed { IfOk result (λ journal. (journal.failed ≡ None) × (journal.adds ≡ 0)) }
    ensures marks { IfOk result (λ journal. journal.marks ≡ []) }
    ensures room { IfOk result (λ journal. length journal.marks + journal.spare ≡ most) }
    ensures told { BothTold (D.told disk.old) (D.told disk.new) (λ old new. Unit {0}) }
    ensures refused { IfErr result (λ refusal. MatchRefusal refusal (Unit {0}) (λ at. ⊥) (λ k. ⊥)) }
    ensures cause { OpenFaultRose (D.faults disk.old) (D.faults disk.new) result }
{
    let journal = BlockJournal::without_blocks(alloc, most, digest)?;
    write_header(alloc, disk, digest)?;
    Ok(journal)
}

// Reads the journal of a disk that has so many bytes, all of them on it.
fn go_on<R: Rule, D: Disk>(
    alloc: Global,
    disk: &mut D,
    rule: &mut R,
    digest: &[u8],
    len: u64,
) -> Result<BlockJournal, KeepRefusal>
    requires digest { length digest.now ≡ 32 }
    requires fresh { R.taken rule.old ≡ [] }
    requires within { (blocks : List (List MarkOf)) → AllGood (R.allows rule.old) [] blocks → length (joined blocks) ≤ R.most rule.old }
    requires few { R.most rule.old ≤ 65536 }
    requires some { 0 < len }
    requires len { IfSome (D.told disk.old) (λ log. len ≡ length (seen log)) }
    requires rest { IfSome (D.told disk.old) AtRest }
    ensures stands { IfOk result (λ journal. IsKept (R.allows rule.old) (D.told disk.new) journal) }
    ensures digest { IfOk result (λ journal. journal.digest ≡ digest.now) }
    ensures unfailed { IfOk result (λ journal. (journal.failed ≡ None) × (journal.adds ≡ 0)) }
    ensures room { IfOk result (λ journal. length journal.marks + journal.spare ≡ R.most rule.old) }
    ensures taken { IfOk result (λ journal. R.taken rule.new ≡ journal.marks) }
    ensures allows { R.allows rule.new ≡ R.allows rule.old }
    ensures most { R.most rule.new ≡ R.most rule.old }
    ensures refused { IfErr result (λ refusal. IfSome (D.told disk.old) (λ log. RefusedFor (R.allows rule.old) digest.now (seen log) refusal)) }
    ensures told { D.told disk.new ≡ D.told disk.old }
    ensures cause { OpenFaultRose (D.faults disk.old) (D.faults disk.new) result }
{
    let bytes = read_front(alloc, disk, len)?;
    BlockJournal::of_bytes(alloc, rule, digest, &bytes)
}

// Adds the block's marks, for which there is room.
fn append(marks: &mut Vec<Mark>, block: &[Mark])
    requires { length marks.old.items + length block.now ≤ vec_capacity marks.old }
    ensures marks { marks.new.items ≡ marks.old.items ++ block.now }
    ensures room { vec_capacity marks.old ≤ vec_capacity marks.new }
{
    let Ok(()) = marks.extend_from_slice(block) else {
        unreachable!();
    };
}
