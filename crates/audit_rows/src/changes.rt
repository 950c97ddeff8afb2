//! A report cut at each byte, and with each of its bytes and lines changed.

use crate::reports::{FIRST, PAINTERS, SECOND, SMALLEST, SMALLEST_REPORT, broken};
use std::alloc::{AllocError, Global};
use std::process::Abort;
use std::test::Fail;

// How many line feeds there are among the first bytes.
fn lines_before(bytes: &[u8], end: usize) -> u32 {
    let mut count: u32 = 0;
    for byte in bytes.iter().take(end) {
        if *byte == b'\n' {
            count = count.saturating_add(1);
        }
    }
    count
}

// The bytes with one in another's place.
fn changed(alloc: Global, bytes: &[u8], at: usize, byte: u8) -> Result<Vec<u8>, AllocError> {
    let mut copy = Vec::from_slice(alloc, bytes)?;
    if let Some(place) = copy.get_mut(at) {
        *place = byte;
    }
    Ok(copy)
}

// A report cut behind some bytes breaks at the number of its lines, a rest among them.
fn check_cuts(rt: &impl Abort, alloc: Global, session: &str, report: &str) -> Result<(), Fail> {
    let bytes = report.as_bytes();
    for end in 0..bytes.len() {
        let front: &[u8] = &bytes[..end];
        let whole = end == 0 || front.last() == Some(&b'\n');
        let lines = lines_before(bytes, end);
        let want = if whole {
            lines
        } else {
            lines.saturating_add(1)
        };
        let found = broken(alloc, session, front)?;
        assert_eq!(rt; found, Some(want), "{end}");
    }
    Ok(())
}

// A report of which one byte is changed breaks at that byte's line.
fn check_bytes(rt: &impl Abort, alloc: Global, session: &str, report: &str) -> Result<(), Fail> {
    let bytes = report.as_bytes();
    for at in 0..bytes.len() {
        let other = if bytes[at] == b'0' { b'7' } else { b'0' };
        let text = changed(alloc, bytes, at, other)?;
        let found = broken(alloc, session, &text)?;
        assert_eq!(rt; found, Some(lines_before(bytes, at)), "{at}");
    }
    Ok(())
}

// The lines of a report, each with its line feed.
fn lines_of(alloc: Global, report: &str) -> Result<Vec<String>, AllocError> {
    let mut lines = Vec::new(alloc);
    for line in report.lines() {
        let mut text = String::from_str(alloc, line)?;
        text.push_str("\n")?;
        lines.push(text)?;
    }
    Ok(lines)
}

// The text of the lines in an order of their numbers.
fn text_of(alloc: Global, lines: &[String], order: &[usize]) -> Result<String, AllocError> {
    let mut text = String::new(alloc);
    for number in order {
        if let Some(line) = lines.get(*number) {
            text.push_str(line.as_str())?;
        }
    }
    Ok(text)
}

// The numbers of lines, with one of them twice, left out, or exchanged with the next.
fn order_of(alloc: Global, count: usize, at: usize, kind: usize) -> Result<Vec<usize>, AllocError> {
    let mut order = Vec::new(alloc);
    for k in 0..count {
        if kind == 0 && k == at {
            order.push(k)?;
        }
        if kind == 2 && k == at && k + 1 < count {
            order.push(k + 1)?;
        }
        let moved = kind == 2 && at < k && k - at == 1;
        if !moved && !(kind == 1 && k == at) {
            order.push(k)?;
        }
    }
    Ok(order)
}

fn check_lines(
    rt: &impl Abort,
    alloc: Global,
    session: &str,
    report: &str,
    kind: usize,
    least: usize,
) -> Result<(), Fail> {
    let lines = lines_of(alloc, report)?;
    let count = lines.len();
    for at in 0..count {
        let order = order_of(alloc, count, at, kind)?;
        let text = text_of(alloc, &lines, &order)?;
        let found = broken(alloc, session, text.as_bytes())?;
        let first = if kind == 0 { at + 1 } else { at };
        if kind != 2 || at + 1 < count {
            assert_eq!(rt; found.map(|line| line as usize), Some(first), "{at}");
        }
    }
    assert!(rt; least <= count);
    Ok(())
}

#[test]
fn a_report_that_is_cut_breaks_where_it_ends(rt: HostRuntime) -> Result<(), Fail> {
    check_cuts(&rt, rt.alloc(), SMALLEST, SMALLEST_REPORT)?;
    check_cuts(&rt, rt.alloc(), PAINTERS, SECOND)
}

#[test]
fn a_byte_that_is_changed_breaks_its_line(rt: HostRuntime) -> Result<(), Fail> {
    check_bytes(&rt, rt.alloc(), SMALLEST, SMALLEST_REPORT)
}

#[test]
fn a_line_twice_left_out_or_exchanged_breaks(rt: HostRuntime) -> Result<(), Fail> {
    for kind in 0..3 {
        check_lines(&rt, rt.alloc(), SMALLEST, SMALLEST_REPORT, kind, 7)?;
    }
    let _ = FIRST;
    Ok(())
}
