//! Writing real files so that a crash leaves the old content or the new one.
ghost use Rattle.std.specs.Prelude.{◌≡◌, bit_and, if◌then◌else◌};

use crate::open_file::fill;
use std::alloc::Global;
use std::fs::{File, OpenFile, OpenOptions, Permissions};
use std::io::{ErrorKind, Write};
use std::os::unix::fs::{MetadataExt, OpenOptionsExt, PermissionsExt, lchown};
use std::path::{Path, PathBuf};
use std::random::RandomSource;
use std::rt::Files;
use std::{fs, io};

// How many names are tried for a file beside. They are random, so that one is taken next to never.
const TRIES: u32 = 16;

// How many links are followed at most, as many as the system follows.
const LINKS: u32 = 40;

/// Puts the bytes in place of what stands under the name. A regular file, past all links to it, and one that is not there yet, is
/// written beside its place and renamed once it is whole; the file beside goes at every failure. What leads to an open file, as
/// `/dev/stdout` and `/proc/self/fd/3` do, gets the bytes behind what stands there. Anything else, as a device or a pipe, is written
/// in place, and so is what a link leads to where no file is yet or none that has a path.
pub fn write_file<R: Files + RandomSource>(
    rt: &R,
    alloc: Global,
    name: &str,
    bytes: &[u8],
) -> io::Result<()> {
    if leads_to_open_file(rt, alloc, name)? {
        let mut file = OpenOptions::new().append(true).open(rt, name)?;
        return fill(&mut file, bytes);
    }
    match target_of(rt, alloc, name)? {
        Some(target) => replace(rt, alloc, &target, bytes),
        None => fill(&mut File::create(rt, name)?, bytes),
    }
}

// Whether the name is one of a table of open files, or links lead to one.
fn leads_to_open_file<R: Files>(rt: &R, alloc: Global, name: &str) -> io::Result<bool> {
    let mut path = PathBuf::from_str(alloc, name)?;
    for _ in 0..LINKS {
        if is_open_file(rt, alloc, path.as_path())? {
            return Ok(true);
        }
        let linked = match rt.read_link(alloc, path.as_path().as_str()) {
            Ok(linked) => linked,
            Err(error) if is_no_link(error.kind()) => return Ok(false),
            Err(error) => return Err(error),
        };
        path = folder_of(path.as_path()).join(alloc, linked.as_path())?;
    }
    Ok(false)
}

fn is_no_link(kind: ErrorKind) -> bool {
    kind == ErrorKind::InvalidInput || kind == ErrorKind::NotFound
}

// Whether the folder of the path is a table of open files: `/proc/7/fd` or `/proc/7/task/8/fd`. One that has no such name, as it
// cannot be had as text, is none.
fn is_open_file<R: Files>(rt: &R, alloc: Global, path: Path<'_>) -> io::Result<bool> {
    match rt.canonicalize(alloc, folder_of(path).as_str()) {
        Ok(folder) => {
            let folder = folder.as_path().as_str();
            Ok(folder.starts_with("/proc/") && folder.ends_with("/fd"))
        }
        Err(error) if error.kind() == ErrorKind::OutOfMemory => Err(error),
        Err(_) => Ok(false),
    }
}

fn folder_of(path: Path<'_>) -> Path<'_> {
    match path.parent() {
        Some(folder) if !folder.as_str().is_empty() => folder,
        _ => Path::new("."),
    }
}

// A file that is to be replaced, or made: its place, and who may use it once it is whole.
#[derive(Drop)]
struct Target {
    path: PathBuf,
    mode: u32,
    group: Option<u32>,
}

// None for what is to be written in place.
fn target_of<R: Files + RandomSource>(
    rt: &R,
    alloc: Global,
    name: &str,
) -> io::Result<Option<Target>> {
    let found = match fs::metadata(rt, name) {
        Ok(found) => found,
        Err(error) if error.kind() == ErrorKind::NotFound => return new_target(rt, alloc, name),
        Err(error) => return Err(error),
    };
    if !found.is_file() {
        return Ok(None);
    }
    match rt.canonicalize(alloc, name) {
        Ok(path) => Ok(Some(Target {
            path,
            mode: found.permissions().mode(),
            group: Some(found.gid()),
        })),
        Err(error) if error.kind() == ErrorKind::NotFound => Ok(None),
        Err(error) => Err(error),
    }
}

// The same for a name that leads to no file.
fn new_target<R: Files + RandomSource>(
    rt: &R,
    alloc: Global,
    name: &str,
) -> io::Result<Option<Target>> {
    if fs::symlink_metadata(rt, name).is_ok() {
        return Ok(None);
    }
    let path = PathBuf::from_str(alloc, name)?;
    let mode = mode_of_new(rt, alloc, path.as_path())?;
    Ok(Some(Target {
        path,
        mode,
        group: None,
    }))
}

// The permissions that the system gives a new file in the folder of the path. Nothing but such a file tells them.
fn mode_of_new<R: Files + RandomSource>(rt: &R, alloc: Global, path: Path<'_>) -> io::Result<u32> {
    let (beside, file) = create_beside(rt, alloc, path, 0o666)?;
    let found = file.metadata();
    fs::remove_file(rt, &beside)?;
    Ok(found?.permissions().mode())
}

fn replace<R: Files + RandomSource>(
    rt: &R,
    alloc: Global,
    target: &Target,
    bytes: &[u8],
) -> io::Result<()> {
    // Until it is whole nobody else can open it.
    let (beside, mut file) = create_beside(rt, alloc, target.path.as_path(), 0o600)?;
    let replaced = match complete(rt, &beside, &mut file, target, bytes) {
        Ok(()) => fs::rename(rt, &beside, &target.path),
        Err(error) => Err(error),
    };
    if replaced.is_err() {
        // What failed first is told.
        let _ = fs::remove_file(rt, &beside);
    }
    replaced
}

// A new file in the folder of the path, under a name that nobody can guess or take beforehand.
fn create_beside<R: Files + RandomSource>(
    rt: &R,
    alloc: Global,
    path: Path<'_>,
    mode: u32,
) -> io::Result<(PathBuf, R::File)> {
    for _ in 0..TRIES {
        let mut random = [0; 8];
        rt.fill_bytes(&mut random)?;
        let number = u64::from_le_bytes(random);
        let name = format!(in alloc; ".studio-{number}.part")?;
        let beside = path.with_file_name(alloc, name.as_str())?;
        let mut options = OpenOptions::new();
        options.write(true).create_new(true).mode(mode);
        match options.open(rt, &beside) {
            Ok(file) => return Ok((beside, file)),
            Err(error) if error.kind() == ErrorKind::AlreadyExists => {}
            Err(error) => return Err(error),
        }
    }
    Err(io::Error::from(ErrorKind::AlreadyExists))
}

// Puts the bytes into the file beside, and lets those use it who may use what it replaces.
fn complete<R: Files>(
    rt: &R,
    beside: &PathBuf,
    file: &mut R::File,
    target: &Target,
    bytes: &[u8],
) -> io::Result<()> {
    fill(file, bytes)?;
    let keeps_group = match target.group {
        None => true,
        Some(group) => has_group(rt, beside, file, group)?,
    };
    let mode = mode_of(target.mode, keeps_group);
    file.set_permissions(Permissions::from_mode(mode))?;
    file.sync_all()
}

// Whether the file has the group, which it is given where it can be.
fn has_group<R: Files>(rt: &R, beside: &PathBuf, file: &R::File, group: u32) -> io::Result<bool> {
    if file.metadata()?.gid() == group {
        return Ok(true);
    }
    if lchown(rt, beside, None, Some(group)).is_err() {
        return Ok(false);
    }
    Ok(file.metadata()?.gid() == group)
}

// The permissions of a file that takes the place of one with these: without set-user and set-group bits, and where the group is
// another one, without the group's.
fn mode_of(mode: u32, keeps_group: bool) -> u32
    ensures { result ≡ bit_and mode (if keeps_group then 0o1777 else 0o1707) }
{
    if keeps_group {
        return mode & 0o1777;
    }
    mode & 0o1707
}
