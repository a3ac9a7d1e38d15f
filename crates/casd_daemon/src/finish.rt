//! A store that was loaded is served, its list of use is kept, and the line is printed.

ghost use Rattle.std.specs.Prelude.{◌≡◌, ◌≤◌, length, string_bytes, IfOk, IsErrOf, OnOk, OnErr};
ghost use Rattle.casd_base.specs.Causes.{Rose};
ghost use Rattle.store_core.specs.State.{Valid, used};
ghost use Rattle.casd_daemon.specs.Closing.{last_line};
ghost use Rattle.casd_daemon.specs.Hosting.{tellers, NoneFell, printing};
ghost use Rattle.casd_daemon.specs.Running.{MayBegin, most_connections};
ghost use Rattle.casd_daemon.specs.Serving.{Concludes, ServesStore};
ghost use Rattle.casd_daemon.specs.declared.host.AcceptEnd.TheVariants.{Failed as Fault};
ghost use Rattle.casd_daemon.specs.declared.run.RunEnd.TheVariants.{Done};

use crate::close::{Sums, run_lock};
use crate::end::ServeEnd;
use crate::hang_up::HangUp;
use crate::host::{AcceptEnd, HostOf};
use crate::run::RunEnd;
use blob_store::{Shelf, ShelfEnd, Store};
use casd_base::Link;
use proto_wire::OutOfMemory;
use std::alloc::Global;
use std::sync::Wait;
use std::thread::Threads;
use store_core::Usage;
use turn_lock::TurnLock;

// The last line: the connections that came, the entries of the history, and the rows and bytes of the closed store.
fn line_of(alloc: Global, count: u64, entries: u64, usage: &Usage) -> Result<String, OutOfMemory>
    ensures { IfOk result (λ s. string_bytes s ≡ last_line count entries usage.now.rows usage.now.used) }
{
    let rows = usage.rows;
    let used = usage.used;
    Ok(format!(in alloc; "connections {count} entries {entries} rows {rows} used {used}\n")?)
}

// Prints the line of a store that was closed.
fn print_line<K: Shelf, L, H: HostOf<K, L>>(
    alloc: Global,
    host: &mut H,
    store: &Store<K>,
    count: u64,
    entries: u64,
) -> Result<(), AcceptEnd>
    ensures ok { OnOk result ((H.hosted host.new).told ≡ printing (last_line count entries (length store.now.state.rows) (used store.now.state)) (H.hosted host.old).told) }
    ensures err { OnErr result ((H.hosted host.new).told ≡ (H.hosted host.old).told) }
    ensures later { NoneFell (H.hosted host.old).counts (H.hosted host.new).counts }
    ensures cause { IsErrOf result Fault → Rose (H.hosted host.old).counts.printing (H.hosted host.new).counts.printing }
    ensures name { (H.hosted host.new).name ≡ (H.hosted host.old).name }
{
    let usage = store.usage();
    let line = line_of(alloc, count, entries, &usage)?;
    host.print(line.as_bytes())
}

// Keeps the list of use of a store that was closed, and prints the line.
fn keep_and_print<K: Shelf, L, H: HostOf<K, L>>(
    alloc: Global,
    host: &mut H,
    store: &Store<K>,
    count: u64,
    entries: u64,
) -> ServeEnd
    requires { Valid store.now.state }
    ensures concludes { Concludes Done count entries store.now.state result (H.hosted host.old) (H.hosted host.new) }
    ensures later { NoneFell (H.hosted host.old).counts (H.hosted host.new).counts }
    ensures name { (H.hosted host.new).name ≡ (H.hosted host.old).name }
{
    let Ok(order) = store.use_list() else {
        return ServeEnd::OutOfMemory;
    };
    match host.keep(&order) {
        Ok(()) => {}
        Err(ShelfEnd::Failed) => return ServeEnd::Unkept,
        Err(ShelfEnd::OutOfMemory) => return ServeEnd::OutOfMemory,
    }
    match print_line(alloc, host, store, count, entries) {
        Ok(()) => ServeEnd::Done,
        Err(AcceptEnd::Failed) => ServeEnd::Unprinted,
        Err(AcceptEnd::OutOfMemory) => ServeEnd::OutOfMemory,
    }
}

// What follows a run.
fn finish<K: Shelf + Drop, L, H: HostOf<K, L>>(alloc: Global, sums: Sums<K, H>) -> (H, ServeEnd)
    requires { Valid sums.store.state }
    ensures concludes { Concludes sums.end sums.count sums.entries sums.store.state result.1 (H.hosted sums.host) (H.hosted result.0) }
    ensures later { NoneFell (H.hosted sums.host).counts (H.hosted result.0).counts }
    ensures name { (H.hosted result.0).name ≡ (H.hosted sums.host).name }
{
    let Sums {
        host,
        store,
        count,
        entries,
        end,
    } = sums;
    let mut host = host;
    let served = match end {
        RunEnd::Failed => ServeEnd::Unaccepted,
        RunEnd::OutOfMemory => ServeEnd::OutOfMemory,
        RunEnd::Done => keep_and_print::<K, L, H>(alloc, &mut host, &store, count, entries),
    };
    (host, served)
}

/// Serves a store that was loaded, until `most` connections came or the host has none left.
pub(crate) fn serve_store<
    K: Shelf + Drop + Send,
    L: Link + HangUp + Drop + Send,
    H: HostOf<K, L> + Drop,
    R: Threads + Wait + Sync,
>(rt: &R, alloc: Global, store: Store<K>, shelf: K, host: H, most: u64) -> (H, ServeEnd)
where
    K::Draft: Send,
    K::Body: Send,
    K::Reader: Send,
    requires begin { MayBegin store.state }
    requires few { most ≤ most_connections }
    ensures serves { ServesStore (tellers K.shelved L.left L.written L.read_faults L.write_faults L.sent L.at_end) store.state most result.1 (H.hosted host).told (H.hosted result.0).told (H.hosted host).counts (H.hosted result.0).counts }
    ensures later { NoneFell (H.hosted host).counts (H.hosted result.0).counts }
    ensures name { (H.hosted result.0).name ≡ (H.hosted host).name }
{
    let usage = store.usage();
    let due = usage.high < usage.used;
    let Ok((lock, seat)) = TurnLock::new(alloc, store) else {
        return (host, ServeEnd::OutOfMemory);
    };
    match run_lock::<K, L, H, R>(rt, alloc, lock, seat, shelf, host, most, due) {
        Ok(sums) => finish::<K, L, H>(alloc, sums),
        Err(host) => (host, ServeEnd::OutOfMemory),
    }
}
