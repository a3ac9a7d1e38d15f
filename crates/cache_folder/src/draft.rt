//! Drafts, bodies and readers.

ghost use Rattle.std.specs.Prelude.{◌≤◌, length, IfOk};

use crate::body_name::BodyName;
use std::alloc::Global;
use std::fs::{File, OpenOptions};
use std::io::{ErrorKind, Write};
use std::os::unix::fs::{FileExt, OpenOptionsExt};
use std::{fs, io};

/// How often an interrupted call is made again.
const TRIES: u32 = 1_000;

/// A body that is being written, by one open file. Where it is dropped its file goes too.
pub struct HostDraft {
    rt: HostRuntime,
    path: String,
    name: BodyName,
    file: File,
}

/// A file with the bytes of a blob. Where it is dropped the file stays.
#[derive(Drop)]
pub struct HostBody {
    name: BodyName,
}

/// An open file, which can be read also after its body was given up.
#[derive(Drop)]
pub struct HostReader {
    file: File,
}

impl Drop for HostDraft {
    fn drop(self) {
        let HostDraft {
            rt,
            path,
            name: _,
            file: _,
        } = self;
        let _ = fs::remove_file(&rt, path.as_str());
    }
}

impl HostDraft {
    /// An empty file of this name. It is an error if one stands there.
    pub(crate) fn new(
        rt: HostRuntime,
        alloc: Global,
        folder: &str,
        name: BodyName,
    ) -> io::Result<HostDraft> {
        let path = path_of(alloc, folder, name)?;
        let file = OpenOptions::new()
            .write(true)
            .create_new(true)
            .mode(0o600)
            .open(&rt, path.as_str())?;
        Ok(HostDraft {
            rt,
            path,
            name,
            file,
        })
    }

    /// Appends bytes. After an error a part of them may stand in the file.
    pub(crate) fn append(&mut self, bytes: &[u8]) -> io::Result<()> {
        self.file.write_all(bytes)
    }

    /// Keeps the file.
    pub(crate) fn into_body(self) -> HostBody {
        let HostDraft {
            rt: _,
            path: _,
            name,
            file: _,
        } = self;
        HostBody { name }
    }
}

impl HostBody {
    /// The body of a file that was found.
    pub(crate) fn found(name: BodyName) -> HostBody {
        HostBody { name }
    }

    /// Opens the file.
    pub(crate) fn open(
        &self,
        rt: HostRuntime,
        alloc: Global,
        folder: &str,
    ) -> io::Result<HostReader> {
        let path = path_of(alloc, folder, self.name)?;
        let file = File::open(&rt, path.as_str())?;
        Ok(HostReader { file })
    }

    /// Removes the file.
    pub(crate) fn remove(self, rt: HostRuntime, alloc: Global, folder: &str) -> io::Result<()> {
        let path = path_of(alloc, folder, self.name)?;
        fs::remove_file(&rt, path.as_str())
    }
}

impl HostReader {
    /// Reads from a place on into the front of the buffer, and answers how many bytes: 0 at the end of the file.
    pub(crate) fn read_at(&self, at: u64, buf: &mut [u8]) -> io::Result<usize>
        ensures { IfOk result (λ count. count ≤ length buf.new) }
    {
        for _ in 0..TRIES {
            match self.file.read_at(buf, at) {
                Err(e) if e.kind() == ErrorKind::Interrupted => {}
                done => return done,
            }
        }
        Err(ErrorKind::Interrupted.into())
    }
}

fn path_of(alloc: Global, folder: &str, name: BodyName) -> io::Result<String> {
    let BodyName { run, seat, draft } = name;
    Ok(format!(in alloc; "{folder}/{run}-{seat}-{draft}")?)
}
