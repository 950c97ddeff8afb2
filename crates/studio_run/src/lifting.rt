//! The command `lift`: a chain that is read, and the cloth that it lifts.
ghost use Rattle.std.specs.Prelude.{◌≡◌, ◌≤◌, IfOk, IfErr};
ghost use Rattle.mill_base.specs.Causes.{Rose};
ghost use Rattle.session_file.specs.Plans.{Fits};
ghost use Rattle.session_file.specs.Readings.{HeldIn};
ghost use Rattle.studio_run.specs.inner.Ends.{FailsToLift, IsChainFault, IsLifted, IsLiftedFrom, IsUnread, name_after, reads_after};

use crate::opening::open;
use cloth_files::{LiftRefusal, lifted_file};
use mill_base::limits::MAX_FILE_BYTES;
use mill_base::name_text::NameText;
use mill_io::shelf::{Shelf, ShelfRefusal};
use report_text::cause::Cause;
use session_file::session::Session;
use std::alloc::Global;

/// The image of the cloth that the chain of a file lifts.
#[tactic(auto, using(crate::proofs::Ends::refused_reads, crate::proofs::Ends::refused_name, crate::proofs::Ends::chain_reads, crate::proofs::Ends::chain_told))]
pub(crate) fn lift<H: Shelf>(
    alloc: Global,
    session: &Session,
    name: &str,
    shelf: &mut H,
) -> Result<Vec<u8>, Cause>
    requires fits { Fits session.now }
    ensures files { H.files shelf.new ≡ H.files shelf.old }
    ensures writes { H.write_faults shelf.new ≡ H.write_faults shelf.old }
    ensures reads { H.read_faults shelf.new ≡ reads_after (H.read_faults shelf.old) result }
    ensures failed { H.failed_name shelf.new ≡ name_after (H.failed_name shelf.old) result }
    ensures later { H.read_faults shelf.old ≤ H.read_faults shelf.new }
    ensures made { IfOk result (λ bytes. IsLifted session.now (H.files shelf.old) name.now bytes.items) }
    ensures fails { IfErr result (FailsToLift session.now (H.files shelf.old) name.now (Rose (H.read_faults shelf.old) (H.read_faults shelf.new)) (H.failed_name shelf.new)) }
{
    open(alloc, session)?;
    let chain = read_chain(alloc, name, shelf)?;
    lift_chain(alloc, session, &chain)
}

// The content of a chain's file. The name that a refusal tells is copied first, so that out of memory for it is told before a fault.
fn read_chain<H: Shelf>(alloc: Global, name: &str, shelf: &mut H) -> Result<Vec<u8>, Cause>
    ensures files { H.files shelf.new ≡ H.files shelf.old }
    ensures writes { H.write_faults shelf.new ≡ H.write_faults shelf.old }
    ensures reads { H.read_faults shelf.new ≡ reads_after (H.read_faults shelf.old) result }
    ensures failed { H.failed_name shelf.new ≡ name_after (H.failed_name shelf.old) result }
    ensures later { H.read_faults shelf.old ≤ H.read_faults shelf.new }
    ensures content { IfOk result (λ bytes. HeldIn (H.files shelf.old) name.now bytes.items) }
    ensures fails { IfErr result (IsUnread (H.files shelf.old) name.now (Rose (H.read_faults shelf.old) (H.read_faults shelf.new)) (H.failed_name shelf.new)) }
{
    let copied = NameText::of(alloc, name)?;
    match shelf.read(alloc, name, MAX_FILE_BYTES) {
        Ok(bytes) => Ok(bytes),
        Err(ShelfRefusal::Failed) => Err(Cause::ReadFault(copied)),
        Err(ShelfRefusal::TooLong) => Err(Cause::TooLong(copied)),
        Err(ShelfRefusal::OutOfMemory) => Err(Cause::OutOfMemory),
    }
}

fn lift_chain(alloc: Global, session: &Session, chain: &[u8]) -> Result<Vec<u8>, Cause>
    requires fits { Fits session.now }
    ensures made { IfOk result (λ bytes. IsLiftedFrom session.now chain.now bytes.items) }
    ensures fails { IfErr result (IsChainFault session.now chain.now) }
{
    match lifted_file(alloc, &session.design, chain) {
        Ok(bytes) => Ok(bytes),
        Err(LiftRefusal::Chain(fault)) => Err(Cause::Chain(fault)),
        Err(LiftRefusal::OutOfMemory) => Err(Cause::OutOfMemory),
    }
}
