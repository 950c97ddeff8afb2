//! What a disk in memory does at the call that fails, and a real file that one disk at a time has.

use journal_disk::disk::Disk;
use journal_disk::file_disk::FileDisk;
use journal_disk::memory_disk::{MemoryDisk, Trouble};
use std::fs;
use std::path::PathBuf;
use std::test::Fail;

#[test]
fn a_disk_in_memory_fails_and_stops_where_it_was_told_to(rt: HostRuntime) -> Result<(), Fail> {
    let alloc = rt.alloc();
    let trouble = Trouble {
        call: 1,
        bytes: 1,
        stops: true,
    };
    let mut disk = MemoryDisk::new(alloc, b"abc", Some(trouble))?;
    assert_eq!(rt; disk.len().ok(), Some(3));
    assert!(rt; disk.write_at(0, b"de").is_err());
    assert_eq!(rt; disk.bytes(), b"dbc".as_slice());
    assert!(rt; disk.sync().is_err());
    assert!(rt; disk.len().is_err());
    assert_eq!(rt;
        (disk.count(), disk.faults(), disk.calls().len()),
        (4, 3, 1)
    );
    assert_eq!(rt; disk.start(), b"abc".as_slice());
    Ok(())
}

#[test]
fn a_real_file_is_made_gone_on_with_and_taken_by_one_disk(rt: HostRuntime) -> Result<(), Fail> {
    let alloc = rt.alloc();
    let name = "journal_rows_disk";
    let _ = fs::remove_file(&rt, name);
    let mut disk = FileDisk::new(&rt, PathBuf::from_str(alloc, name)?);
    let mut out = [0u8; 4];
    assert_eq!(rt; disk.len().ok(), Some(0));
    assert!(rt; disk.write_at(0, b"abc").is_ok());
    assert!(rt; disk.sync().is_ok());
    assert_eq!(rt; disk.read(1, &mut out).ok(), Some(2));
    assert_eq!(rt; out, *b"bc\0\0");
    let mut other = FileDisk::new(&rt, PathBuf::from_str(alloc, name)?);
    assert!(rt; other.len().is_err());
    drop(disk);
    assert_eq!(rt; other.len().ok(), Some(3));
    assert!(rt; other.write_at(2, b"xy").is_ok());
    assert_eq!(rt; other.read(0, &mut out).ok(), Some(4));
    assert_eq!(rt; out, *b"abxy");
    drop(other);
    fs::remove_file(&rt, name)?;
    Ok(())
}

#[test]
fn what_is_no_file_is_a_fault(rt: HostRuntime) -> Result<(), Fail> {
    let alloc = rt.alloc();
    for name in [".", "no_such_folder/journal", ""] {
        let mut disk = FileDisk::new(&rt, PathBuf::from_str(alloc, name)?);
        assert!(rt; disk.len().is_err(), "{name}");
        assert!(rt; disk.sync().is_err(), "{name}");
    }
    Ok(())
}
