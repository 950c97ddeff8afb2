//! A real file.
ghost use Rattle.std.specs.Prelude.{◌≡◌, ◌≤◌, ◌<◌, ◌^◌, None, IfOk, length};

use crate::disk::{Disk, Failed};
use std::alloc::Global;
use std::fs::{File, OpenOptions};
use std::io;
use std::io::ErrorKind;
use std::marker::Model;
use std::os::unix::fs::FileExt;
use std::path::PathBuf;
use std::rt::Files;

/// The file of a name. It is opened, or made, by the first call, and this disk alone has it from then on, until it is dropped or the
/// program ends in whatever way: a call fails where another has it. It does not tell what it holds.
#[derive(Drop)]
pub struct FileDisk<R> {
    rt: R,
    alloc: Global,
    path: PathBuf,
    file: Option<File>,
    faults: u64,
}

impl<R> Model for FileDisk<R> {
    ghost use Rattle.std.specs.Prelude.{ℕ};

    ghost Value = { ℕ };

    ghost view = { λ d. d.faults };
}

impl<R: AllocGlobal> FileDisk<R> {
    /// The file of that name, before any fault. Nothing is opened or made yet.
    pub fn new(rt: R, path: PathBuf) -> FileDisk<R>
        ensures { result ≡ 0 }
    {
        let alloc = rt.alloc();
        FileDisk {
            rt,
            alloc,
            path,
            file: None,
            faults: 0,
        }
    }
}

// The file, opened or made where it is not open yet.
fn opened<'a, R: Files<File = File>>(
    rt: &R,
    alloc: Global,
    path: &PathBuf,
    file: &'a mut Option<File>,
) -> io::Result<&'a File> {
    if file.is_none() {
        *file = Some(open(rt, alloc, path)?);
    }
    file.as_ref().ok_or(io::Error::from(ErrorKind::NotFound))
}

// What is no regular file, as a folder or a device, is refused, and so is a file that another has.
fn open<R: Files<File = File>>(rt: &R, alloc: Global, path: &PathBuf) -> io::Result<File> {
    let file = match OpenOptions::new().read(true).write(true).open(rt, path) {
        Ok(file) => file,
        Err(error) if error.kind() == ErrorKind::NotFound => File::create_new(rt, path)?,
        Err(error) => return Err(error),
    };
    file.try_lock()?;
    let found = file.metadata()?;
    if !found.is_file() {
        return Err(io::Error::from(ErrorKind::InvalidInput));
    }
    // A file without bytes is new, or was made by a run that ended before its folder was on the disk.
    if found.len() == 0 {
        sync_folder(rt, alloc, path)?;
    }
    Ok(file)
}

// Brings the name of the file to the disk.
fn sync_folder<R: Files<File = File>>(rt: &R, alloc: Global, path: &PathBuf) -> io::Result<()> {
    let place = rt.canonicalize(alloc, path.as_str())?;
    match place.parent() {
        Some(folder) => File::open(rt, folder)?.sync_all(),
        None => Ok(()),
    }
}

// The bytes from `at` on, as many as there are and as `out` takes.
fn read_file<R: Files<File = File>>(
    rt: &R,
    alloc: Global,
    path: &PathBuf,
    file: &mut Option<File>,
    at: u64,
    out: &mut [u8],
) -> io::Result<u32>
    requires { length out.old < 2 ^ 32 }
    ensures { IfOk result (λ count. count ≤ length out.old) }
{
    let file = opened(rt, alloc, path, file)?;
    let there = file.metadata()?.len().saturating_sub(at);
    let count = there.min(out.len() as u64) as usize;
    file.read_exact_at(&mut out[..count], at)?;
    Ok(count as u32)
}

fn write_file<R: Files<File = File>>(
    rt: &R,
    alloc: Global,
    path: &PathBuf,
    file: &mut Option<File>,
    at: u64,
    bytes: &[u8],
) -> io::Result<()> {
    opened(rt, alloc, path, file)?.write_all_at(bytes, at)
}

fn length_of<R: Files<File = File>>(
    rt: &R,
    alloc: Global,
    path: &PathBuf,
    file: &mut Option<File>,
) -> io::Result<u64> {
    Ok(opened(rt, alloc, path, file)?.metadata()?.len())
}

fn sync_file<R: Files<File = File>>(
    rt: &R,
    alloc: Global,
    path: &PathBuf,
    file: &mut Option<File>,
) -> io::Result<()> {
    opened(rt, alloc, path, file)?.sync_data()
}

impl<R: Files<File = File>> Disk for FileDisk<R> {
    ghost told = { λ _. None };

    ghost faults = { λ d. d };

    fn read(&mut self, at: u64, out: &mut [u8]) -> Result<u32, Failed> {
        let Ok(count) = read_file(&self.rt, self.alloc, &self.path, &mut self.file, at, out) else {
            self.faults = self.faults.saturating_add(1);
            return Err(Failed);
        };
        Ok(count)
    }

    fn write_at(&mut self, at: u64, bytes: &[u8]) -> Result<(), Failed> {
        let Ok(()) = write_file(&self.rt, self.alloc, &self.path, &mut self.file, at, bytes) else {
            self.faults = self.faults.saturating_add(1);
            return Err(Failed);
        };
        Ok(())
    }

    fn len(&mut self) -> Result<u64, Failed> {
        let Ok(len) = length_of(&self.rt, self.alloc, &self.path, &mut self.file) else {
            self.faults = self.faults.saturating_add(1);
            return Err(Failed);
        };
        Ok(len)
    }

    fn sync(&mut self) -> Result<(), Failed> {
        let Ok(()) = sync_file(&self.rt, self.alloc, &self.path, &mut self.file) else {
            self.faults = self.faults.saturating_add(1);
            return Err(Failed);
        };
        Ok(())
    }
}
