//! The file of the list of use.

ghost use Rattle.std.specs.Prelude.{IfOk};
ghost use Rattle.store_core.specs.State.{DistinctDigests};

use crate::use_list::{read_use, use_text};
use digest_types::Digests;
use proto_wire::OutOfMemory;
use std::alloc::Global;
use std::fs::OpenOptions;
use std::io::{ErrorKind, Write};
use std::os::unix::fs::OpenOptionsExt;
use std::{fs, io};

/// Writes the list of use into a folder, as `use-2.new` first and then under its name `use-2`. Where that fails an older
/// list stays as it was.
pub fn keep_use(rt: HostRuntime, alloc: Global, folder: &str, order: &Digests) -> io::Result<()>
    requires { DistinctDigests order.now }
{
    let kept = format!(in alloc; "{folder}/use-2")?;
    let new = format!(in alloc; "{folder}/use-2.new")?;
    let text = match use_text(alloc, order) {
        Ok(text) => text,
        Err(OutOfMemory) => return Err(ErrorKind::OutOfMemory.into()),
    };
    write_new(rt, new.as_str(), text.as_slice())?;
    fs::rename(&rt, new.as_str(), kept.as_str())
}

// Writes a file anew. Where that fails it is removed.
fn write_new(rt: HostRuntime, path: &str, bytes: &[u8]) -> io::Result<()> {
    let mut file = OpenOptions::new()
        .write(true)
        .create(true)
        .truncate(true)
        .mode(0o600)
        .open(&rt, path)?;
    if let Err(e) = file.write_all(bytes) {
        let _ = fs::remove_file(&rt, path);
        return Err(e);
    }
    Ok(())
}

/// The list of use that stands in a folder, or the empty list if there is none or its file holds none.
pub(crate) fn saved_use(rt: HostRuntime, alloc: Global, folder: &str) -> io::Result<Digests>
    ensures { IfOk result (λ order. DistinctDigests order) }
{
    let path = format!(in alloc; "{folder}/use-2")?;
    let text = match fs::read(&rt, path.as_str()) {
        Ok(text) => text,
        Err(e) if e.kind() == ErrorKind::NotFound => return Ok(Digests::new(alloc)),
        Err(e) => return Err(e),
    };
    match read_use(alloc, text.as_slice()) {
        Ok(Some(order)) => Ok(order),
        Ok(None) => Ok(Digests::new(alloc)),
        Err(OutOfMemory) => Err(ErrorKind::OutOfMemory.into()),
    }
}
