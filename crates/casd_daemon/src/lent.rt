//! A host that is lent.

ghost use Rattle.std.specs.Prelude.{◌≡◌, ◌<◌, ◌≤◌, ℕ, IfOk, IfSome, IfNone, IsErrOf, OnOk, OnErr};
ghost use Rattle.casd_base.specs.Causes.{Rose};
ghost use Rattle.store_core.specs.State.{DistinctDigests};
ghost use Rattle.casd_daemon.specs.Hosting.{tellers, NoneFell, handing};
ghost use Rattle.casd_daemon.specs.Running.{MayBegin, most_connections};
ghost use Rattle.casd_daemon.specs.Serving.{ServesStore};

use crate::end::ServeEnd;
use crate::finish::serve_store;
use crate::host::{AcceptEnd, Conn, Host, HostOf};
use blob_store::{Shelf, ShelfEnd, Store};
use casd_connection::ConnReport;
use digest_types::Digests;
use std::alloc::Global;
use std::sync::Wait;
use std::thread::Threads;

/// A host that is lent, since a thread's scope has to own what it changes.
#[derive(Drop)]
struct Lent<'a, H> {
    host: &'a mut H,
}

impl<'a, H: Host> HostOf<H::K, H::L> for Lent<'a, H> {
    ghost use Rattle.casd_daemon.specs.Hosting.{NoneFell, handing};

    ghost hosted = { λ l. record { told = H.told l.host.now; counts = H.counts l.host.now; name = l.host.ghost_name } };

    fn accept(&mut self) -> Result<Option<Conn<H::K, H::L>>, AcceptEnd> {
        self.host.accept()
    }

    fn print(&mut self, line: &[u8]) -> Result<(), AcceptEnd> {
        self.host.print(line)
    }

    fn keep(&mut self, order: &Digests) -> Result<(), ShelfEnd> {
        self.host.keep(order)
    }

    fn ended(&mut self, conn: Conn<H::K, H::L>, report: ConnReport)
        requires { 0 < (H.told self.old.host.now).out }
        ensures ended { H.told self.new.host.now ≡ handing conn report (H.told self.old.host.now) }
        ensures later { NoneFell (H.counts self.old.host.now) (H.counts self.new.host.now) }
        ensures name { self.new.host.ghost_name ≡ self.old.host.ghost_name }
    {
        self.host.ended(conn, report);
    }
}

/// Ties a reference that was given back to the parameter that lent it.
pub(crate) fn take_back<T>(x: &mut T)
    ensures { x.new ≡ x.old }
{}

/// Serves a store that was loaded, over a host that is lent and given back.
pub(crate) fn serve_lent<'a, H: Host, R: Threads + Wait + Sync>(
    rt: &R,
    alloc: Global,
    store: Store<H::K>,
    shelf: H::K,
    host: &'a mut H,
    most: u64,
) -> (&'a mut H, ServeEnd)
where
    <H::K as Shelf>::Draft: Send,
    <H::K as Shelf>::Body: Send,
    <H::K as Shelf>::Reader: Send,
    requires begin { MayBegin store.state }
    requires few { most ≤ most_connections }
    ensures same_reference { result.0.ghost_name ≡ host.entry.ghost_name }
    ensures serves { ServesStore (tellers H.K.shelved H.L.left H.L.written H.L.read_faults H.L.write_faults H.L.sent H.L.at_end) store.state most result.1 (H.told host.old) (H.told result.0.now) (H.counts host.old) (H.counts result.0.now) }
    ensures later { NoneFell (H.counts host.old) (H.counts result.0.now) }
{
    let (lent, end) = serve_store::<H::K, H::L, Lent<H>, R>(
        rt,
        alloc,
        store,
        shelf,
        Lent { host },
        most,
    );
    (lent.host, end)
}
