//! A disk in memory, which keeps a record of its calls and fails where it is told to.
ghost use Rattle.std.specs.Prelude.{◌≡◌, ◌≤◌, ◌<◌, ◌^◌, ◌-◌, [], ◌∷◌, ◌++◌, Some, min, take, drop, length, OnOk, OnErr, IfOk};
ghost use Rattle.mill_base.specs.Causes.{HasCause, faults_after, risen};
ghost use Rattle.journal_disk.specs.declared.call.Call.TheVariants.{Write, Sync};
ghost use Rattle.journal_disk.specs.Disks.{put_over, seen};
ghost use Rattle.journal_disk.specs.Memory.{FailsWhereTold, SyncsAsTold, WritesAsTold, failing_of};
ghost use Rattle.journal_disk.specs.Told.{IsLength, Reads, Wrote, after_sync};

use crate::call::{Call, Written};
use crate::disk::{Disk, Failed};
use mill_base::listed::Listed;
use mill_base::memory::OutOfMemory;
use std::alloc::Global;
use std::marker::Model;

/// Which call of a disk in memory fails.
#[derive(Clone, Copy, Debug, PartialEq, Eq)]
pub struct Trouble {
    /// Its number among all calls of the disk, counted from 0.
    pub call: u64,
    /// How many of its bytes a failing write still puts, at most all.
    pub bytes: u64,
    /// Whether the disk stops there: all later calls fail too, and put nothing.
    pub stops: bool,
}

/// A file in memory. A call that finds no memory fails too.
#[derive(Drop)]
pub struct MemoryDisk {
    start: Vec<u8>,
    calls: Vec<Call>,
    bytes: Vec<u8>,
    faults: u64,
    count: u64,
    trouble: Option<Trouble>,
}

impl Model for MemoryDisk {
    ghost use Rattle.std.specs.Prelude.{◌≡◌};
    ghost use Rattle.journal_disk.specs.Disks.{seen};
    ghost use Rattle.journal_disk.specs.Memory.{Held};

    ghost Value = { Held };

    ghost view = { λ d. record { log = record { start = d.start.items; calls = d.calls.items }; faults = d.faults; count = d.count; trouble = d.trouble } };

    ghost invariant = { λ d. d.bytes.items ≡ seen (record { start = d.start.items; calls = d.calls.items }) };
}

impl MemoryDisk {
    /// A disk with these bytes, all of them on it, and nothing pending. The call that `trouble` names is to fail.
    pub fn new(
        alloc: Global,
        bytes: &[u8],
        trouble: Option<Trouble>,
    ) -> Result<MemoryDisk, OutOfMemory>
        ensures { IfOk result (λ disk. disk ≡ record { log = record { start = bytes.now; calls = [] }; faults = 0; count = 0; trouble = trouble }) }
    {
        Ok(MemoryDisk {
            start: Vec::from_slice(alloc, bytes)?,
            calls: Vec::new(alloc),
            bytes: Vec::from_slice(alloc, bytes)?,
            faults: 0,
            count: 0,
            trouble,
        })
    }

    /// What a read gives.
    pub fn bytes(&self) -> &[u8]
        ensures { result.now ≡ seen self.now.log }
    {
        &self.bytes
    }

    /// What stood on the disk at first.
    pub fn start(&self) -> &[u8]
        ensures { result.now ≡ self.now.log.start }
    {
        &self.start
    }

    /// The calls that acted on the disk, in their order.
    pub fn calls(&self) -> &[Call]
        ensures { result.now ≡ self.now.log.calls }
    {
        &self.calls
    }

    /// How many calls of the disk there were, of all kinds. At its greatest value the count stays.
    pub fn count(&self) -> u64
        ensures { result ≡ self.now.count }
    {
        self.count
    }

    /// How many of them failed.
    pub fn faults(&self) -> u64
        ensures { result ≡ self.now.faults }
    {
        self.faults
    }
}

// How many of its bytes the call of that number still puts, where it is to fail.
fn failing(trouble: Option<Trouble>, call: u64) -> Option<u64>
    ensures { result ≡ failing_of trouble call }
{
    let trouble = trouble?;
    if trouble.call == call {
        return Some(trouble.bytes);
    }
    if trouble.stops && trouble.call < call {
        return Some(0);
    }
    None
}

// Puts the first bytes and records the write, or leaves all as it was.
fn store(
    start: &[u8],
    bytes: &mut Vec<u8>,
    calls: &mut Vec<Call>,
    at: u64,
    asked: &[u8],
    put: usize,
) -> Result<(), OutOfMemory>
    requires held { bytes.old.items ≡ seen (record { start = start.now; calls = calls.old.items }) }
    requires place { at ≤ length bytes.old.items }
    requires part { put ≤ length asked.now }
    ensures held { bytes.new.items ≡ seen (record { start = start.now; calls = calls.new.items }) }
    ensures calls { OnOk result (calls.new.items ≡ calls.old.items ++ Write (record { at = at; bytes = asked.now; put = put }) ∷ []) }
    ensures calls_err { OnErr result (calls.new.items ≡ calls.old.items) }
{
    let alloc = *bytes.allocator();
    let next = overwritten(alloc, bytes, at as usize, &asked[..put])?;
    let asked = Listed::of(Vec::from_slice(alloc, asked)?);
    calls.push(Call::Write(Written {
        at,
        bytes: asked,
        put: put as u64,
    }))?;
    *bytes = next;
    Ok(())
}

fn overwritten(alloc: Global, bytes: &[u8], at: usize, part: &[u8]) -> Result<Vec<u8>, OutOfMemory>
    requires { at ≤ length bytes.now }
    ensures { IfOk result (λ next. next.items ≡ put_over bytes.now at part.now) }
{
    let mut next = Vec::from_slice(alloc, &bytes[..at])?;
    next.extend_from_slice(part)?;
    if part.len() < bytes.len() - at {
        next.extend_from_slice(&bytes[at + part.len()..])?;
    }
    Ok(next)
}

// Records a sync, or leaves all as it was.
fn note_sync(start: &[u8], bytes: &[u8], calls: &mut Vec<Call>) -> Result<(), OutOfMemory>
    requires held { bytes.now ≡ seen (record { start = start.now; calls = calls.old.items }) }
    ensures held { bytes.now ≡ seen (record { start = start.now; calls = calls.new.items }) }
    ensures calls { OnOk result (calls.new.items ≡ calls.old.items ++ Sync ∷ []) }
    ensures calls_err { OnErr result (calls.new.items ≡ calls.old.items) }
{
    calls.push(Call::Sync)?;
    Ok(())
}

// Copies what there is from a place on to the front of `out`, and answers how many bytes that were.
fn copy_from(bytes: &[u8], at: u64, out: &mut [u8]) -> u32
    requires { length out.old < 2 ^ 32 }
    ensures count { result ≡ min (length out.old) (length bytes.now - at) }
    ensures out { out.new ≡ take result (drop at bytes.now) ++ drop result out.old }
{
    let start = at.min(bytes.len() as u64) as usize;
    let count = out.len().min(bytes.len() - start);
    out[..count].copy_from_slice(&bytes[start..start + count]);
    count as u32
}

impl Disk for MemoryDisk {
    ghost told = { λ d. Some d.log };

    ghost faults = { λ d. d.faults };

    fn read(&mut self, at: u64, out: &mut [u8]) -> Result<u32, Failed>
        requires { length out.old < 2 ^ 32 }
        ensures bytes { Reads (Some self.old.log) at out.old out.new result }
        ensures told { self.new.log ≡ self.old.log }
        ensures faults { self.new.faults ≡ faults_after self.old.faults result }
        ensures cause { HasCause self.old.faults self.new.faults result }

        // As told when it was made.
        ensures fails { FailsWhereTold (failing_of self.old.trouble self.old.count) result }
        ensures count { self.new.count ≡ risen self.old.count }
        ensures trouble { self.new.trouble ≡ self.old.trouble }
    {
        let failing = failing(self.trouble, self.count);
        self.count = self.count.saturating_add(1);
        if failing.is_some() {
            self.faults = self.faults.saturating_add(1);
            return Err(Failed);
        }
        Ok(copy_from(&self.bytes, at, out))
    }

    fn write_at(&mut self, at: u64, bytes: &[u8]) -> Result<(), Failed>
        requires { at ≤ length (seen self.old.log) }
        ensures told { Wrote (Some self.old.log) (Some self.new.log) at bytes.now result }
        ensures faults { self.new.faults ≡ faults_after self.old.faults result }
        ensures cause { HasCause self.old.faults self.new.faults result }

        // As told when it was made.
        ensures writes { WritesAsTold (failing_of self.old.trouble self.old.count) self.old.log self.new.log at bytes.now result }
        ensures count { self.new.count ≡ risen self.old.count }
        ensures trouble { self.new.trouble ≡ self.old.trouble }
    {
        let failing = failing(self.trouble, self.count);
        self.count = self.count.saturating_add(1);
        let put = failing.unwrap_or(u64::MAX).min(bytes.len() as u64) as usize;
        let stored = store(
            &self.start,
            &mut self.bytes,
            &mut self.calls,
            at,
            bytes,
            put,
        );
        if failing.is_some() || stored.is_err() {
            self.faults = self.faults.saturating_add(1);
            return Err(Failed);
        }
        Ok(())
    }

    fn len(&mut self) -> Result<u64, Failed>
        ensures length { IsLength (Some self.old.log) result }
        ensures told { self.new.log ≡ self.old.log }
        ensures faults { self.new.faults ≡ faults_after self.old.faults result }
        ensures cause { HasCause self.old.faults self.new.faults result }

        // As told when it was made.
        ensures fails { FailsWhereTold (failing_of self.old.trouble self.old.count) result }
        ensures count { self.new.count ≡ risen self.old.count }
        ensures trouble { self.new.trouble ≡ self.old.trouble }
    {
        let failing = failing(self.trouble, self.count);
        self.count = self.count.saturating_add(1);
        if failing.is_some() {
            self.faults = self.faults.saturating_add(1);
            return Err(Failed);
        }
        Ok(self.bytes.len() as u64)
    }

    fn sync(&mut self) -> Result<(), Failed>
        ensures told { Some self.new.log ≡ after_sync (Some self.old.log) result }
        ensures faults { self.new.faults ≡ faults_after self.old.faults result }
        ensures cause { HasCause self.old.faults self.new.faults result }

        // As told when it was made.
        ensures syncs { SyncsAsTold (failing_of self.old.trouble self.old.count) self.old.log self.new.log result }
        ensures count { self.new.count ≡ risen self.old.count }
        ensures trouble { self.new.trouble ≡ self.old.trouble }
    {
        let failing = failing(self.trouble, self.count);
        self.count = self.count.saturating_add(1);
        if failing.is_some() || note_sync(&self.start, &self.bytes, &mut self.calls).is_err() {
            self.faults = self.faults.saturating_add(1);
            return Err(Failed);
        }
        Ok(())
    }
}
