//! What stands on the disk where a step of a write fails, and who may use what was written. Each test has a folder of its own.
use crate::fake_files::{FailingFiles, Step};
use mill_io::file_write::write_file;
use std::fs;
use std::fs::Permissions;
use std::os::unix::fs::{MetadataExt, PermissionsExt, chown};

// What the file holds, or nothing where it cannot be read.
fn content(rt: HostRuntime, name: &str) -> Vec<u8> {
    fs::read(&rt, name).unwrap_or(Vec::new(rt.alloc()))
}

fn mode(rt: HostRuntime, name: &str) -> u32 {
    fs::metadata(&rt, name).map_or(0, |found| found.mode() & 0o7777)
}

#[test]
fn the_old_content_stands_where_a_step_fails_and_nothing_beside_it(rt: HostRuntime) {
    let name = "mill_io_steps/cloth";
    for (fails, written) in [
        (Step::Random, false),
        (Step::Make, false),
        (Step::Write, false),
        (Step::Permit, false),
        (Step::Sync, false),
        (Step::Rename, false),
        (Step::Nothing, true),
    ] {
        let made = fs::create_dir_all(&rt, "mill_io_steps").is_ok()
            && fs::write(&rt, name, b"old").is_ok();
        let found = write_file(&FailingFiles { rt, fails }, rt.alloc(), name, b"plain").is_ok();
        let stands = content(rt, name);
        let wanted: &[u8] = if written { b"plain" } else { b"old" };
        assert_eq!(rt; stands.as_slice(), wanted, "{fails:?}");
        // A folder that has no file can be removed.
        let removed = fs::remove_file(&rt, name).is_ok()
            && fs::remove_dir(&rt, "mill_io_steps").is_ok();
        assert_eq!(rt; (made, found, removed), (true, written, true), "{fails:?}");
    }
}

#[test]
fn no_file_stands_where_a_new_one_fails(rt: HostRuntime) {
    for fails in [
        Step::Random,
        Step::Make,
        Step::Write,
        Step::Permit,
        Step::Sync,
        Step::Rename,
    ] {
        let made = fs::create_dir_all(&rt, "mill_io_new").is_ok();
        let files = FailingFiles { rt, fails };
        let found = write_file(&files, rt.alloc(), "mill_io_new/cloth", b"plain").is_ok();
        let removed = fs::remove_dir(&rt, "mill_io_new").is_ok();
        assert_eq!(rt; (made, found, removed), (true, false, true), "{fails:?}");
    }
}

#[test]
fn a_new_file_has_the_permissions_that_the_system_gives(rt: HostRuntime) {
    let made = fs::create_dir_all(&rt, "mill_io_modes").is_ok()
        && fs::write(&rt, "mill_io_modes/other", b"other").is_ok()
        && write_file(&rt, rt.alloc(), "mill_io_modes/cloth", b"plain").is_ok();
    let modes = (
        mode(rt, "mill_io_modes/cloth"),
        mode(rt, "mill_io_modes/other"),
    );
    let removed = fs::remove_dir_all(&rt, "mill_io_modes").is_ok();
    assert_eq!(rt; (made, removed), (true, true));
    assert_eq!(rt; modes.0, modes.1);
}

#[test]
fn a_replaced_file_keeps_its_permissions_but_set_user_and_set_group(rt: HostRuntime) {
    let name = "mill_io_keeps/cloth";
    for (before, after) in [
        (0o600, 0o600),
        (0o664, 0o664),
        (0o6755, 0o755),
        (0o444, 0o444),
    ] {
        let made = fs::create_dir_all(&rt, "mill_io_keeps").is_ok()
            && fs::write(&rt, name, b"old").is_ok()
            && fs::set_permissions(&rt, name, Permissions::from_mode(before)).is_ok();
        let written = write_file(&rt, rt.alloc(), name, b"plain").is_ok();
        let found = mode(rt, name);
        let removed = fs::remove_dir_all(&rt, "mill_io_keeps").is_ok();
        assert_eq!(rt; (made, written, removed), (true, true, true), "{before:o}");
        assert_eq!(rt; found, after, "{before:o}");
    }
}

// Only who may give files away can make a file of another group, as root can.
#[test]
fn the_group_is_kept_or_else_its_permissions_are_not(rt: HostRuntime) {
    let name = "mill_io_groups/cloth";
    for (fails, group, kept) in [(Step::Nothing, 1, 0o664), (Step::Group, 0, 0o604)] {
        let made = fs::create_dir_all(&rt, "mill_io_groups").is_ok()
            && fs::write(&rt, name, b"old").is_ok();
        let own = fs::metadata(&rt, name).map_or(0, |found| found.gid());
        let given = chown(&rt, name, None, Some(1)).is_ok();
        let permitted = fs::set_permissions(&rt, name, Permissions::from_mode(0o664)).is_ok();
        let files = FailingFiles { rt, fails };
        let written = write_file(&files, rt.alloc(), name, b"plain").is_ok();
        let found = fs::metadata(&rt, name).map_or(0, |found| found.gid());
        let mode = mode(rt, name);
        let removed = fs::remove_dir_all(&rt, "mill_io_groups").is_ok();
        assert_eq!(rt;
            (made, permitted, written, removed),
            (true, true, true, true)
        );
        if given && own == 0 {
            assert_eq!(rt; (found, mode), (group, kept), "{fails:?}");
        }
    }
}

#[test]
fn files_that_others_left_beside_are_not_in_the_way(rt: HostRuntime) {
    let name = "mill_io_beside/cloth";
    let mut made = fs::create_dir_all(&rt, "mill_io_beside").is_ok();
    for number in 0..100 {
        if let Ok(taken) = format!(in rt.alloc(); "mill_io_beside/.studio-{number}.part") {
            made = made && fs::write(&rt, taken.as_str(), b"another's").is_ok();
        }
    }
    let written = write_file(&rt, rt.alloc(), name, b"plain").is_ok();
    let found = content(rt, name);
    let others = content(rt, "mill_io_beside/.studio-99.part");
    let removed = fs::remove_dir_all(&rt, "mill_io_beside").is_ok();
    assert_eq!(rt; (made, written, removed), (true, true, true));
    assert_eq!(rt; found.as_slice(), b"plain".as_slice());
    assert_eq!(rt; others.as_slice(), b"another's".as_slice());
}
