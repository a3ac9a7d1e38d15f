//! What a host has open: the socket and the cache folder.

ghost use Rattle.std.specs.Prelude.{IfOk};
ghost use Rattle.cache_folder.specs.Told.{IsFirst};
ghost use Rattle.store_core.specs.State.{DistinctDigests};

use crate::listening::Listening;
use crate::words::{Grouped, Sized};
use blob_store::ShelfEnd;
use cache_folder::{CacheFolder, FolderError, HostShelf, keep_use};
use casd_daemon::AcceptEnd;
use digest_types::Digests;
use std::alloc::Global;
use std::io::ErrorKind;
use std::os::unix::net::UnixStream;

/// A socket and a cache folder, with their paths.
#[derive(Drop)]
pub(crate) struct Opened {
    socket: String,
    path: String,
    folder: CacheFolder,
    listening: Listening,
    is_told: bool,
}

impl Opened {
    /// Opens the folder and listens on the socket. Where that can't be done it says why.
    pub(crate) fn new(
        rt: HostRuntime,
        alloc: Global,
        socket: &str,
        path: &str,
    ) -> Result<Opened, AcceptEnd> {
        let folder = match CacheFolder::open(rt, alloc, path) {
            Ok(folder) => folder,
            Err(e) if e.is_out_of_memory() => return Err(AcceptEnd::OutOfMemory),
            Err(e) => {
                let _ = eprintln!(rt; "casd: {path}: {e}");
                return Err(AcceptEnd::Failed);
            }
        };
        let listening = match Listening::new(rt, alloc, socket) {
            Ok(listening) => listening,
            Err(e) if e.is_out_of_memory() => return Err(AcceptEnd::OutOfMemory),
            Err(e) => {
                let _ = eprintln!(rt; "casd: {socket}: {e}");
                return Err(AcceptEnd::Failed);
            }
        };
        let (Ok(socket), Ok(path)) = (
            String::from_str(alloc, socket),
            String::from_str(alloc, path),
        ) else {
            return Err(AcceptEnd::OutOfMemory);
        };
        Ok(Opened {
            socket,
            path,
            folder,
            listening,
            is_told: false,
        })
    }

    /// The shelf of a number.
    pub(crate) fn shelf(
        &self,
        rt: HostRuntime,
        alloc: Global,
        seat: u64,
    ) -> Result<HostShelf, AcceptEnd>
        ensures { IfOk result (λ k. IsFirst k self.now.folder.run seat) }
    {
        Ok(HostShelf::new(rt, alloc, self.path.as_str(), self.folder.run, seat)?)
    }

    /// The next connection, or `None` once the socket's file is gone. The first call tells that the daemon listens.
    pub(crate) fn next_stream(&mut self, rt: HostRuntime) -> Result<Option<UnixStream>, AcceptEnd> {
        if !self.is_told {
            self.tell(rt);
            self.is_told = true;
        }
        match self.listening.next() {
            Ok(came) => Ok(came),
            Err(e) if e.kind() == ErrorKind::OutOfMemory => Err(AcceptEnd::OutOfMemory),
            Err(e) => {
                let socket = self.socket.as_str();
                let _ = eprintln!(rt; "casd: {socket}: no connection can be accepted: {e}");
                Err(AcceptEnd::Failed)
            }
        }
    }

    /// Keeps the list of use in the folder.
    pub(crate) fn keep(
        &self,
        rt: HostRuntime,
        alloc: Global,
        order: &Digests,
    ) -> Result<(), ShelfEnd>
        requires { DistinctDigests order.now }
    {
        let path = self.path.as_str();
        match keep_use(rt, alloc, path, order) {
            Ok(()) => Ok(()),
            Err(e) if e.kind() == ErrorKind::OutOfMemory => Err(ShelfEnd::OutOfMemory),
            Err(e) => {
                let _ = eprintln!(rt; "casd: {path}: the list of use can't be kept: {e}");
                Err(ShelfEnd::Failed)
            }
        }
    }

    // Tells where the daemon listens, and what it found.
    fn tell(&self, rt: HostRuntime) {
        let socket = self.socket.as_str();
        let path = self.path.as_str();
        let count = Grouped(self.folder.bodies);
        let blobs = if self.folder.bodies == 1 {
            "blob"
        } else {
            "blobs"
        };
        let bytes = Sized(self.folder.bytes);
        let _ = eprintln!(rt;
            "casd: listening on {socket}; {count} {blobs}, {bytes} found in {path}"
        );
    }
}
