//! `Host`, `Conn`, `Place`.

ghost use Rattle.std.specs.Prelude.{◌≡◌, ◌<◌, ℕ, IsSome, IfOk, IfSome, IfNone, IsErrOf, OnOk, OnErr};
ghost use Rattle.casd_base.specs.Causes.{Rose};
ghost use Rattle.store_core.specs.State.{DistinctDigests};
ghost use Rattle.casd_daemon.specs.Hosting.{Told, Counts, NoneFell, Comes, NoneComes, IsShelfOf, handing, printing, keeping};
ghost use Rattle.casd_daemon.specs.declared.host.AcceptEnd.TheVariants.{Failed as Fault};
ghost use Rattle.blob_store.specs.declared.shelf.ShelfEnd.TheVariants.{Failed as ShelfFault};

use crate::hang_up::HangUp;
use blob_store::{Shelf, ShelfEnd};
use casd_base::Link;
use casd_connection::ConnReport;
use digest_types::Digests;
use proto_wire::{OutOfMemory, Text};

/// A connection: the link to its peer, and a shelf of its own on which its bodies are kept.
#[derive(Drop)]
pub struct Conn<K, L> {
    pub link: L,
    pub shelf: K,
}

/// Where a daemon listens, and where it keeps its blobs.
#[derive(Debug, Drop)]
pub struct Place {
    pub socket: Text,
    pub folder: Text,
}

/// Why a host refuses.
#[derive(Clone, Copy, Debug, PartialEq, Eq)]
pub enum AcceptEnd {
    /// The outside failed, and it was counted.
    Failed,
    OutOfMemory,
}

impl From<OutOfMemory> for AcceptEnd {
    ghost use Rattle.std.specs.Prelude.{◌≡◌};
    ghost use Rattle.casd_daemon.specs.declared.host.AcceptEnd.TheVariants.{OutOfMemory as NoMemory};

    ghost from_gives = { λ _ e. e ≡ NoMemory };

    fn from(_e: OutOfMemory) -> AcceptEnd {
        AcceptEnd::OutOfMemory
    }
}

/// Where connections, shelves and the list of use come from, and where what is printed goes. It counts its faults in three
/// counts, which never fall: that of accepting, which `prepare` and `shelf` share, that of printing and that of keeping. A
/// host may tell the bodies that its shelf finds, the connections that it has left, what was handed back, what was printed,
/// and which list of use was kept last, as the double in memory does; no other calls than those that say so change any of it.
pub trait Host {
    type K: Shelf + Drop + Send;

    type L: Link + HangUp + Drop + Send;

    // what it tells
    ghost told: { Self → Told Self.K Self.L };

    // how many calls failed
    ghost counts: { Self → Counts };

    /// Makes ready to accept connections. It is the first call.
    fn prepare(&mut self, place: &Place) -> Result<(), AcceptEnd>
        ensures stays { told self.new ≡ told self.old }
        ensures later { NoneFell (counts self.old) (counts self.new) }
        ensures cause { IsErrOf result Fault → Rose (counts self.old).accepting (counts self.new).accepting };

    /// The shelf that the store is loaded from. It is the second call.
    fn shelf(&mut self) -> Result<Self::K, ShelfEnd>
        ensures shelf { IfOk result (λ k. IsShelfOf (told self.old) (Self.K.shelved k)) }
        ensures stays { told self.new ≡ record (told self.old) { found = (told self.new).found; saved = (told self.new).saved } }
        ensures later { NoneFell (counts self.old) (counts self.new) }
        ensures cause { IsErrOf result ShelfFault → Rose (counts self.old).accepting (counts self.new).accepting };

    /// The next connection, or `None` where no more come. It makes room for handing the connection back.
    fn accept(&mut self) -> Result<Option<Conn<Self::K, Self::L>>, AcceptEnd>
        ensures some { IfOk result (λ o. IfSome o (λ conn. Comes conn (told self.old) (told self.new))) }
        ensures none { IfOk result (λ o. IfNone o (NoneComes (told self.old) (told self.new))) }
        ensures err { OnErr result (told self.new ≡ told self.old) }
        ensures later { NoneFell (counts self.old) (counts self.new) }
        ensures cause { IsErrOf result Fault → Rose (counts self.old).accepting (counts self.new).accepting };

    /// Prints bytes.
    fn print(&mut self, line: &[u8]) -> Result<(), AcceptEnd>
        ensures ok { OnOk result (told self.new ≡ printing line.now (told self.old)) }
        ensures err { OnErr result (told self.new ≡ told self.old) }
        ensures later { NoneFell (counts self.old) (counts self.new) }
        ensures cause { IsErrOf result Fault → Rose (counts self.old).printing (counts self.new).printing };

    /// Keeps the store's list of use, the least recent first, for the next run.
    fn keep(&mut self, order: &Digests) -> Result<(), ShelfEnd>
        requires { DistinctDigests order.now }
        ensures ok { OnOk result (told self.new ≡ keeping order.now (told self.old)) }
        ensures err { OnErr result (told self.new ≡ told self.old) }
        ensures later { NoneFell (counts self.old) (counts self.new) }
        ensures cause { IsErrOf result ShelfFault → Rose (counts self.old).keeping (counts self.new).keeping };

    /// Takes a connection back that was served. It takes no memory.
    fn ended(&mut self, conn: Conn<Self::K, Self::L>, report: ConnReport)
        requires { 0 < (told self.old).out }
        ensures ended { told self.new ≡ handing conn report (told self.old) }
        ensures later { NoneFell (counts self.old) (counts self.new) };

    // a host that tells the bodies that its shelf finds tells the list of use too
    ghost tells_saved: { (h : Self) → IsSome (told h).found → IsSome (told h).saved };
}

/// A host of these shelves and links, for as long as it serves.
pub(crate) trait HostOf<K, L> {
    ghost use Rattle.casd_daemon.specs.Hosting.{Hosted};

    ghost hosted: { Self → Hosted K L };

    fn accept(&mut self) -> Result<Option<Conn<K, L>>, AcceptEnd>
        ensures some { IfOk result (λ o. IfSome o (λ conn. Comes conn (hosted self.old).told (hosted self.new).told)) }
        ensures none { IfOk result (λ o. IfNone o (NoneComes (hosted self.old).told (hosted self.new).told)) }
        ensures err { OnErr result ((hosted self.new).told ≡ (hosted self.old).told) }
        ensures later { NoneFell (hosted self.old).counts (hosted self.new).counts }
        ensures cause { IsErrOf result Fault → Rose (hosted self.old).counts.accepting (hosted self.new).counts.accepting }
        ensures name { (hosted self.new).name ≡ (hosted self.old).name };

    fn print(&mut self, line: &[u8]) -> Result<(), AcceptEnd>
        ensures ok { OnOk result ((hosted self.new).told ≡ printing line.now (hosted self.old).told) }
        ensures err { OnErr result ((hosted self.new).told ≡ (hosted self.old).told) }
        ensures later { NoneFell (hosted self.old).counts (hosted self.new).counts }
        ensures cause { IsErrOf result Fault → Rose (hosted self.old).counts.printing (hosted self.new).counts.printing }
        ensures name { (hosted self.new).name ≡ (hosted self.old).name };

    fn keep(&mut self, order: &Digests) -> Result<(), ShelfEnd>
        requires { DistinctDigests order.now }
        ensures ok { OnOk result ((hosted self.new).told ≡ keeping order.now (hosted self.old).told) }
        ensures err { OnErr result ((hosted self.new).told ≡ (hosted self.old).told) }
        ensures later { NoneFell (hosted self.old).counts (hosted self.new).counts }
        ensures cause { IsErrOf result ShelfFault → Rose (hosted self.old).counts.keeping (hosted self.new).counts.keeping }
        ensures name { (hosted self.new).name ≡ (hosted self.old).name };

    fn ended(&mut self, conn: Conn<K, L>, report: ConnReport)
        requires { 0 < (hosted self.old).told.out }
        ensures ended { (hosted self.new).told ≡ handing conn report (hosted self.old).told }
        ensures later { NoneFell (hosted self.old).counts (hosted self.new).counts }
        ensures name { (hosted self.new).name ≡ (hosted self.old).name };
}
