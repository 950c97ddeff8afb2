//! The files of the system, of which one step of a write fails.
use std::alloc::Allocator;
use std::fs::{File, Metadata, OpenFile, OpenOptions, Permissions};
use std::io::{ErrorKind, Read, Seek, SeekFrom, Write};
use std::path::PathBuf;
use std::random::RandomSource;
use std::rt::Files;
use std::{fs, io};

/// What fails. A write fails once half of its bytes are taken.
#[derive(Clone, Copy, Debug, PartialEq, Eq)]
pub(crate) enum Step {
    Nothing,
    Random,
    Make,
    Write,
    Group,
    Permit,
    Sync,
    Rename,
}

const STOPPED: ErrorKind = ErrorKind::StorageFull;

fn stopped() -> io::Error {
    io::Error::from(STOPPED)
}

/// The files of the system, but that this step fails.
#[derive(Drop)]
pub(crate) struct FailingFiles {
    pub(crate) rt: HostRuntime,
    pub(crate) fails: Step,
}

impl RandomSource for FailingFiles {
    fn fill_bytes(&self, buf: &mut [u8]) -> io::Result<()> {
        if self.fails == Step::Random {
            return Err(stopped());
        }
        self.rt.fill_bytes(buf)
    }
}

impl Files for FailingFiles {
    type File = FailingFile;

    type Dir = <HostRuntime as Files>::Dir;

    fn open_file(&self, how: &OpenOptions, path: &str) -> io::Result<FailingFile> {
        if self.fails == Step::Make && how.asks_create_new() {
            return Err(stopped());
        }
        Ok(FailingFile {
            file: self.rt.open_file(how, path)?,
            fails: self.fails,
            half: false,
        })
    }

    fn open_dir(&self, path: &str) -> io::Result<<HostRuntime as Files>::Dir> {
        self.rt.open_dir(path)
    }

    fn metadata(&self, path: &str) -> io::Result<Metadata> {
        fs::metadata(&self.rt, path)
    }

    fn symlink_metadata(&self, path: &str) -> io::Result<Metadata> {
        self.rt.symlink_metadata(path)
    }

    fn copy(&self, from: &str, to: &str) -> io::Result<u64> {
        self.rt.copy(from, to)
    }

    fn rename(&self, from: &str, to: &str) -> io::Result<()> {
        if self.fails == Step::Rename {
            return Err(stopped());
        }
        self.rt.rename(from, to)
    }

    fn remove_file(&self, path: &str) -> io::Result<()> {
        self.rt.remove_file(path)
    }

    fn create_dir(&self, path: &str) -> io::Result<()> {
        self.rt.create_dir(path)
    }

    fn remove_dir(&self, path: &str) -> io::Result<()> {
        self.rt.remove_dir(path)
    }

    fn remove_dir_all<B: Allocator>(&self, alloc: B, path: &str) -> io::Result<()> {
        self.rt.remove_dir_all(alloc, path)
    }

    fn canonicalize<B: Allocator>(&self, alloc: B, path: &str) -> io::Result<PathBuf<B>> {
        self.rt.canonicalize(alloc, path)
    }

    fn read_link<B: Allocator>(&self, alloc: B, path: &str) -> io::Result<PathBuf<B>> {
        self.rt.read_link(alloc, path)
    }

    fn lchown(&self, path: &str, uid: Option<u32>, gid: Option<u32>) -> io::Result<()> {
        if self.fails == Step::Group {
            return Err(stopped());
        }
        self.rt.lchown(path, uid, gid)
    }
}

/// An open file of these. It takes bytes only while nobody but its owner can open it.
#[derive(Drop)]
pub(crate) struct FailingFile {
    file: File,
    fails: Step,
    half: bool,
}

impl Read for FailingFile {
    fn read(&mut self, buf: &mut [u8]) -> io::Result<usize> {
        self.file.read(buf)
    }
}

impl Write for FailingFile {
    fn write(&mut self, buf: &[u8]) -> io::Result<usize> {
        let found = self.file.metadata()?;
        if std::os::unix::fs::MetadataExt::mode(&found) & 0o777 != 0o600 {
            return Err(io::Error::from(ErrorKind::PermissionDenied));
        }
        if self.fails != Step::Write {
            return self.file.write(buf);
        }
        if self.half {
            return Err(stopped());
        }
        self.half = true;
        self.file.write(&buf[..buf.len() / 2])
    }

    fn flush(&mut self) -> io::Result<()> {
        self.file.flush()
    }
}

impl Seek for FailingFile {
    fn seek(&mut self, to: SeekFrom) -> io::Result<u64> {
        self.file.seek(to)
    }
}

impl OpenFile for FailingFile {
    fn metadata(&self) -> io::Result<Metadata> {
        self.file.metadata()
    }

    fn set_len(&self, size: u64) -> io::Result<()> {
        self.file.set_len(size)
    }

    fn sync_all(&self) -> io::Result<()> {
        if self.fails == Step::Sync {
            return Err(stopped());
        }
        self.file.sync_all()
    }

    fn sync_data(&self) -> io::Result<()> {
        self.file.sync_data()
    }

    fn set_permissions(&self, perm: Permissions) -> io::Result<()> {
        if self.fails == Step::Permit {
            return Err(stopped());
        }
        self.file.set_permissions(perm)
    }
}
