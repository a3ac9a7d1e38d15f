//! A cache folder as a run finds it.

use crate::body_name::BodyName;
use std::alloc::Global;
use std::fmt::{Display, Formatter};
use std::fs::{DirBuilder, DirEntry, File, TryLockError};
use std::io::ErrorKind;
use std::os::unix::fs::DirBuilderExt;
use std::{fmt, fs, io};

/// A cache folder that a run has opened. No other run can open it until this is dropped.
#[derive(Drop)]
pub struct CacheFolder {
    lock: File,
    /// The number of the run: one above the largest that was found, or 1.
    pub run: u64,
    /// How many files of bodies were found.
    pub bodies: u64,
    /// How many bytes these have together.
    pub bytes: u64,
}

/// Why a folder can't serve as a cache folder.
#[derive(Debug, Drop)]
pub enum FolderError {
    /// Something else stands there.
    NotAFolder,
    /// Another run has it open.
    InUse,
    /// A file has the largest number of a run.
    NoMoreRuns,
    /// It couldn't be made.
    Make(io::Error),
    /// It couldn't be read.
    Read(io::Error),
}

impl FolderError {
    /// Whether memory ran out.
    pub fn is_out_of_memory(&self) -> bool {
        match self {
            FolderError::Make(e) | FolderError::Read(e) => e.kind() == ErrorKind::OutOfMemory,
            _ => false,
        }
    }
}

impl Display for FolderError {
    fn fmt<W: fmt::Write>(&self, f: &mut Formatter<W>) -> fmt::Result {
        match self {
            FolderError::NotAFolder => f.write_str("this is no folder"),
            FolderError::InUse => f.write_str("another daemon uses this cache folder"),
            FolderError::NoMoreRuns => f.write_str("a file here has the largest number of a run"),
            FolderError::Make(e) => write!(f, "the cache folder can't be made: {e}"),
            FolderError::Read(e) => write!(f, "the cache folder can't be read: {e}"),
        }
    }
}

impl CacheFolder {
    /// Opens a folder, which it makes where none stands, with the folders above it, for the user alone.
    pub fn open(rt: HostRuntime, alloc: Global, path: &str) -> Result<CacheFolder, FolderError> {
        make_folder(rt, path)?;
        let lock = match File::open(&rt, path) {
            Ok(lock) => lock,
            Err(e) => return Err(FolderError::Read(e)),
        };
        // A file system that knows no locks lets several runs in.
        if let Err(TryLockError::WouldBlock) = lock.try_lock() {
            return Err(FolderError::InUse);
        }
        let mut folder = CacheFolder {
            lock,
            run: 1,
            bodies: 0,
            bytes: 0,
        };
        match folder.count(rt, alloc, path) {
            Ok(Some(run)) => {
                folder.run = run;
                Ok(folder)
            }
            Ok(None) => Err(FolderError::NoMoreRuns),
            Err(e) => Err(FolderError::Read(e)),
        }
    }

    // Counts the bodies, and answers the number of the next run.
    fn count(&mut self, rt: HostRuntime, alloc: Global, path: &str) -> io::Result<Option<u64>> {
        let mut last = 0u64;
        for entry in fs::read_dir(&rt, path)? {
            if let Some((name, size)) = body_in(alloc, entry)? {
                last = last.max(name.run);
                self.bodies = self.bodies.saturating_add(1);
                self.bytes = self.bytes.saturating_add(size);
            }
        }
        Ok(last.checked_add(1))
    }
}

// Makes a folder where none stands.
fn make_folder(rt: HostRuntime, path: &str) -> Result<(), FolderError> {
    let mut builder = DirBuilder::new();
    builder.recursive(true).mode(0o700);
    match builder.create(&rt, path) {
        Ok(()) => Ok(()),
        Err(e) if e.kind() == ErrorKind::AlreadyExists => Err(FolderError::NotAFolder),
        Err(e) => Err(FolderError::Make(e)),
    }
}

/// The names of the bodies in a folder that earlier runs wrote, the largest first.
pub(crate) fn bodies_before(
    rt: HostRuntime,
    alloc: Global,
    path: &str,
    run: u64,
) -> io::Result<Vec<BodyName>> {
    let mut names = Vec::new(alloc);
    for entry in fs::read_dir(&rt, path)? {
        if let Some((name, _)) = body_in(alloc, entry)? {
            if name.run < run {
                names.push(name)?;
            }
        }
    }
    names.sort()?;
    names.reverse();
    Ok(names)
}

// The name and the size of a body's file. A file of another name is none, nor is a folder or a link.
fn body_in(alloc: Global, entry: io::Result<DirEntry>) -> io::Result<Option<(BodyName, u64)>> {
    let entry = match entry {
        Ok(entry) => entry,
        // The name isn't UTF-8.
        Err(e) if e.kind() == ErrorKind::InvalidFilename => return Ok(None),
        Err(e) => return Err(e),
    };
    let Some(name) = BodyName::parse(alloc, entry.file_name())? else {
        return Ok(None);
    };
    match entry.metadata() {
        Ok(about) if about.is_file() => Ok(Some((name, about.len()))),
        Ok(_) => Ok(None),
        // It went meanwhile.
        Err(e) if e.kind() == ErrorKind::NotFound => Ok(None),
        Err(e) => Err(e),
    }
}
