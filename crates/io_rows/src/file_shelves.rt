//! What stands on the disk behind a call. Each test has a folder or a name of its own.
use mill_base::limits::MAX_FILE_BYTES;
use mill_io::file_shelf::FileShelf;
use mill_io::shelf::{Shelf, ShelfRefusal};
use std::fs;
use std::fs::{File, OpenOptions};
use std::io::Write;
use std::os::unix::fs::{PermissionsExt, symlink};
use std::os::unix::io::AsRawFd;
use std::path::Path;
use std::test::Fail;

// What the file holds, or nothing where it cannot be read.
fn content(rt: HostRuntime, name: &str) -> Vec<u8> {
    fs::read(&rt, name).unwrap_or(Vec::new(rt.alloc()))
}

#[test]
fn real_files_are_read_within_the_limit(rt: HostRuntime) {
    let name = "mill_io_reads_this";
    let mut shelf = FileShelf::new(rt);
    let made = fs::write(&rt, name, b"abcde").is_ok();
    let whole = shelf.read(rt.alloc(), name, 5).ok();
    let longer = shelf.read(rt.alloc(), name, 4).err();
    let removed = fs::remove_file(&rt, name).is_ok();
    let missing = shelf.read(rt.alloc(), name, 5).err();
    assert_eq!(rt; (made, removed), (true, true));
    assert_eq!(rt; whole.as_deref(), Some(b"abcde".as_slice()));
    assert_eq!(rt;
        (longer, missing),
        (Some(ShelfRefusal::TooLong), Some(ShelfRefusal::Failed))
    );
}

#[test]
fn a_file_is_made_and_replaced_and_nothing_is_left_beside(rt: HostRuntime) {
    let name = "mill_io_replaces/cloth";
    let mut shelf = FileShelf::new(rt);
    let folder = fs::create_dir_all(&rt, "mill_io_replaces").is_ok();
    let made = shelf.write(name, b"plain").is_ok();
    let private = fs::set_permissions(&rt, name, fs::Permissions::from_mode(0o600)).is_ok();
    let replaced = shelf.write(name, b"twill 2 2 right").is_ok();
    let found = content(rt, name);
    let mode = fs::metadata(&rt, name).map_or(0, |found| found.permissions().mode() & 0o777);
    let removed = fs::remove_file(&rt, name).is_ok()
        && fs::remove_dir(&rt, "mill_io_replaces").is_ok();
    assert_eq!(rt;
        (folder, made, private, replaced, removed),
        (true, true, true, true, true)
    );
    assert_eq!(rt; found.as_slice(), b"twill 2 2 right".as_slice());
    assert_eq!(rt; mode, 0o600);
}

#[test]
fn a_link_is_followed_and_stays(rt: HostRuntime) {
    let mut shelf = FileShelf::new(rt);
    let made = fs::create_dir_all(&rt, "mill_io_follows").is_ok()
        && fs::write(&rt, "mill_io_follows/cloth", b"old").is_ok()
        && symlink(&rt, "cloth", "mill_io_follows/link").is_ok()
        && symlink(&rt, "none yet", "mill_io_follows/early").is_ok();
    let written = (
        shelf.write("mill_io_follows/link", b"new").is_ok(),
        shelf.write("mill_io_follows/early", b"first").is_ok(),
    );
    let replaced = content(rt, "mill_io_follows/cloth");
    let first = content(rt, "mill_io_follows/none yet");
    let links = (
        Path::new("mill_io_follows/link").is_symlink(&rt),
        Path::new("mill_io_follows/early").is_symlink(&rt),
    );
    let removed = fs::remove_dir_all(&rt, "mill_io_follows").is_ok();
    assert_eq!(rt;
        (made, written, links, removed),
        (true, (true, true), (true, true), true)
    );
    assert_eq!(rt; replaced.as_slice(), b"new".as_slice());
    assert_eq!(rt; first.as_slice(), b"first".as_slice());
}

#[test]
fn a_write_fails_where_no_file_can_stand(rt: HostRuntime) {
    let mut shelf = FileShelf::new(rt);
    let made = fs::create_dir_all(&rt, "mill_io_refuses").is_ok();
    for name in [
        "mill_io_refuses",
        "mill_io_refuses/none/cloth",
        "mill_io_refuses/new/",
        "",
    ] {
        assert_eq!(rt; shelf.write(name, b"plain").is_ok(), false, "{name}");
    }
    let removed = fs::remove_dir(&rt, "mill_io_refuses").is_ok();
    assert_eq!(rt; (made, removed), (true, true));
}

#[test]
fn a_device_is_written_in_place(rt: HostRuntime) {
    let mut shelf = FileShelf::new(rt);
    for (name, takes) in [("/dev/null", true), ("/dev/full", false)] {
        if Path::new(name).exists(&rt) {
            let found = (
                shelf.write(name, b"plain").is_ok(),
                Path::new(name).is_file(&rt),
            );
            assert_eq!(rt; found, (takes, false), "{name}");
        }
    }
}

// An open file by a name of each kind, which leads to it at once or by a link.
#[test]
fn what_stands_in_an_open_file_stays_before_the_bytes(rt: HostRuntime) -> Result<(), Fail> {
    let log = "mill_io_opens/log";
    let made = fs::create_dir_all(&rt, "mill_io_opens").is_ok();
    let mut file = File::create(&rt, log)?;
    file.write_all(b"head ")?;
    let number = file.as_raw_fd();
    let mut shelf = FileShelf::new(rt);
    for folder in ["/proc/self/fd", "/dev/fd", "/proc/thread-self/fd"] {
        let name = format!(in rt.alloc(); "{folder}/{number}")?;
        assert_eq!(rt;
            shelf.write(name.as_str(), b"plain ").is_ok(),
            true,
            "{folder}"
        );
    }
    let name = format!(in rt.alloc(); "/dev/fd/{number}")?;
    let linked = symlink(&rt, name.as_str(), "mill_io_opens/link").is_ok()
        && symlink(&rt, "link", "mill_io_opens/further").is_ok()
        && shelf.write("mill_io_opens/further", b"twill").is_ok();
    let found = content(rt, log);
    let entry = Path::new("mill_io_opens/further").is_symlink(&rt);
    let removed = fs::remove_dir_all(&rt, "mill_io_opens").is_ok();
    assert_eq!(rt; (made, linked, entry, removed), (true, true, true, true));
    assert_eq!(rt;
        found.as_slice(),
        b"head plain plain plain twill".as_slice()
    );
    Ok(())
}

// One byte more than the system reads at once, and the most that the studio reads and writes.
#[test]
fn files_of_any_length_are_written_and_read_whole(rt: HostRuntime) -> Result<(), Fail> {
    let name = "mill_io_lengths";
    let mut shelf = FileShelf::new(rt);
    for length in [0, 4_095, 4_096, 4_097, MAX_FILE_BYTES as usize] {
        let mut bytes = Vec::from_elem(rt.alloc(), b'x', length)?;
        if let Some(last) = bytes.last_mut() {
            *last = b'.';
        }
        let written = shelf.write(name, &bytes).is_ok();
        let read = shelf.read(rt.alloc(), name, MAX_FILE_BYTES)?;
        let ends = (read.last().copied(), bytes.last().copied());
        assert_eq!(rt; (written, read.len()), (true, length), "{length} bytes");
        assert_eq!(rt; ends.0, ends.1, "{length} bytes");
    }
    // A longer one is refused, whatever its length.
    let mut longer = OpenOptions::new().append(true).open(&rt, name)?;
    longer.write_all(b"!")?;
    let refused = shelf.read(rt.alloc(), name, MAX_FILE_BYTES).err();
    let removed = fs::remove_file(&rt, name).is_ok();
    assert_eq!(rt; (refused, removed), (Some(ShelfRefusal::TooLong), true));
    Ok(())
}
