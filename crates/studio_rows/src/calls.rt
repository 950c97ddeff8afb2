//! One call of the studio, and what it is to answer.

use crate::files::session;
use mill_io::faults::Fail as Failing;
use mill_io::gate::{Gate, OpenGate};
use mill_io::memory_shelf::MemoryShelf;
use mill_io::memory_sink::MemorySink;
use mill_io::shelf::Shelf;
use std::alloc::{AllocError, Global};
use std::process::Abort;
use std::sync::Wait;
use std::test::Fail;
use std::thread::Threads;
use studio_run::answer::studio;

/// The exit status, and what standard output and standard error take.
pub(crate) type Wanted<'a> = (u8, &'a str, &'a str);

/// A call that does not fail.
pub(crate) const NEVER: Failing = Failing {
    call: 1_000_000,
    bytes: 0,
};

/// Where what is printed fails, and where the line on standard error fails.
#[derive(Clone, Copy)]
pub(crate) struct Failures {
    pub(crate) out: Failing,
    pub(crate) err: Failing,
}

/// The words of a command line.
pub(crate) fn words_of(alloc: Global, texts: &[&str]) -> Result<Vec<String>, AllocError> {
    let mut words = Vec::new(alloc);
    for text in texts {
        words.push(String::from_str(alloc, text)?)?;
    }
    Ok(words)
}

/// A sink of which one call fails.
pub(crate) fn failing_sink(alloc: Global, failing: Failing) -> Result<MemorySink, AllocError> {
    Ok(MemorySink::new(alloc, Vec::from_array(alloc, [failing])?))
}

/// A shelf of which one call fails.
pub(crate) fn failing_shelf(alloc: Global, failing: Failing) -> Result<MemoryShelf, AllocError> {
    Ok(MemoryShelf::new(alloc, Vec::from_array(alloc, [failing])?))
}

/// A shelf of which no call fails.
pub(crate) fn sound_shelf(alloc: Global) -> MemoryShelf {
    MemoryShelf::new(alloc, Vec::new(alloc))
}

/// Runs the words over the shelf, and compares what comes of it.
pub(crate) fn expect<R: Abort + Threads + Wait + Sync, H: Shelf>(
    rt: &R,
    alloc: Global,
    shelf: &mut H,
    texts: &[&str],
    wanted: Wanted<'_>,
) -> Result<(), Fail> {
    let failures = Failures {
        out: NEVER,
        err: NEVER,
    };
    expect_despite(rt, alloc, shelf, failures, texts, wanted)
}

/// The same where calls of the sinks fail.
pub(crate) fn expect_despite<R: Abort + Threads + Wait + Sync, H: Shelf>(
    rt: &R,
    alloc: Global,
    shelf: &mut H,
    failures: Failures,
    texts: &[&str],
    wanted: Wanted<'_>,
) -> Result<(), Fail> {
    let words = words_of(alloc, texts)?;
    let mut out = failing_sink(alloc, failures.out)?;
    let mut err = failing_sink(alloc, failures.err)?;
    let answer = studio(rt, alloc, &words, shelf, &mut out, &mut err, &OpenGate);
    let told = str::from_utf8(err.taken())?;
    let printed = str::from_utf8(out.taken())?;
    assert_eq!(rt; (answer.status, printed, told), wanted, "{texts:?}");
    Ok(())
}

/// Runs the words over a shelf that holds the smallest session with changed lines under `S1`.
pub(crate) fn expect_changed<R: Abort + Threads + Wait + Sync>(
    rt: &R,
    alloc: Global,
    changes: &[(&str, &str)],
    texts: &[&str],
    wanted: Wanted<'_>,
) -> Result<(), Fail> {
    let mut shelf = sound_shelf(alloc);
    shelf.add("S1", session(rt, alloc, changes)?.as_bytes())?;
    expect(rt, alloc, &mut shelf, texts, wanted)
}

/// The report of a session, which is woven with nothing amiss.
pub(crate) fn woven<R: Abort + Threads + Wait + Sync, G: Gate>(
    rt: &R,
    alloc: Global,
    text: &str,
    gate: &G,
) -> Result<String, Fail> {
    let mut shelf = sound_shelf(alloc);
    shelf.add("S1", text.as_bytes())?;
    let words = words_of(alloc, &["weave", "S1"])?;
    let mut out = failing_sink(alloc, NEVER)?;
    let mut err = failing_sink(alloc, NEVER)?;
    let answer = studio(rt, alloc, &words, &mut shelf, &mut out, &mut err, gate);
    let told = str::from_utf8(err.taken())?;
    assert_eq!(rt; (answer.status, told), (0, ""), "{text}");
    Ok(String::from_str(alloc, str::from_utf8(out.taken())?)?)
}

/// Compares what stands under the name.
pub(crate) fn expect_file(rt: &impl Abort, shelf: &MemoryShelf, name: &str, wanted: Option<&[u8]>) {
    assert!(rt; shelf.content(name) == wanted, "{name}");
}
