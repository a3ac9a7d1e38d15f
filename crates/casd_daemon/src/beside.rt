//! Connections and the worker beside them.

ghost use Rattle.std.specs.Prelude.{◌≡◌, ◌<◌, ◌≤◌, ◌⊎◌, [], true};
ghost use Rattle.blob_store.specs.View.{own_now};
ghost use Rattle.casd_daemon.specs.Hosting.{tellers};
ghost use Rattle.casd_daemon.specs.Running.{IsFirst, Runs, HasNone, HasCause, most_connections};
ghost use Rattle.casd_daemon.specs.Working.{IsWorked};
ghost use Rattle.casd_daemon.specs.declared.run.RunEnd.TheVariants.{Done};
ghost use denote.Param.Send.{IsSend};

use crate::hang_up::HangUp;
use crate::host::HostOf;
use crate::run::{Ran, serve_conns};
use crate::worker::{AtSeat, Worked, run_worker};
use blob_store::{Bell, BellGate, LockDoor, Shelf, Store};
use casd_base::Link;
use std::alloc::Global;
use std::snapshot::Snapshot;
use std::sync::Wait;
use std::thread;
use std::thread::Threads;
use turn_lock::{Seat, TurnLock};

/// Starts the worker, serves all connections, stops the worker and waits for it. Where no thread could be started for the
/// worker, it runs here at the end, and hears Stop at once.
pub(crate) fn serve_beside<
    K: Shelf + Drop + Send,
    L: Link + HangUp + Drop + Send,
    H: HostOf<K, L> + Drop,
    R: Threads + Wait + Sync,
>(
    rt: &R,
    alloc: Global,
    lock: &TurnLock<Store<K>>,
    bell: &Bell,
    host: H,
    seat: Seat<Store<K>>,
    most: u64,
    door: LockDoor<K, R, BellGate<R>>,
    shelf: K,
) -> (Ran<K, H>, Worked<K>)
where
    K::Draft: Send,
    K::Body: Send,
    K::Reader: Send,
    requires first { IsFirst lock.now seat }
    requires few { most ≤ most_connections }
    requires is_in { door.view.entered ≡ true }
    requires none { own_now door.view ≡ [] }
    requires left { 0 < door.view.left }
    ensures all { result.0.end ≡ Done → (result.0.count ≡ most) ⊎ HasNone (H.hosted result.0.host).told }
    ensures runs { Runs (tellers K.shelved L.left L.written L.read_faults L.write_faults L.sent L.at_end) lock.now seat result.0.seat [] (H.hosted host) (H.hosted result.0.host) result.0.count }
    ensures cause { HasCause result.0.end (H.hosted host).counts (H.hosted result.0.host).counts }
    ensures worked { IsWorked door.entry.view result.1.seat result.1.passes }
{
    thread::scope(
        thread::scope_env(),
        rt,
        move |scope| -> (Ran<K, H>, Worked<K>)
            requires { IsFirst lock.now seat × (most ≤ most_connections) × (door.view.entered ≡ true) × (own_now door.view ≡ []) × (0 < door.view.left) × IsSend K.row × IsSend L.row }
            ensures all { result.0.end ≡ Done → (result.0.count ≡ most) ⊎ HasNone (H.hosted result.0.host).told }
            ensures runs { Runs (tellers K.shelved L.left L.written L.read_faults L.write_faults L.sent L.at_end) lock.entry.now seat result.0.seat [] (H.hosted host) (H.hosted result.0.host) result.0.count }
            ensures cause { HasCause result.0.end (H.hosted host).counts (H.hosted result.0.host).counts }
            ensures worked { IsWorked door.entry.view result.1.seat result.1.passes }
        {
            let promise = AtSeat(Snapshot::of(door.seat()));
            let worker = scope.spawn_with(
                promise,
                move || -> Worked<K>
                    requires { (door.view.entered ≡ true) × (own_now door.view ≡ []) × (0 < door.view.left) }
                    ensures { IsWorked door.entry.view result.seat result.passes }
                { run_worker(rt, door, shelf, bell.ear(rt)) },
            );
            let ran = serve_conns(rt, alloc, lock, bell, host, seat, most);
            bell.stop(rt);
            let worked = match worker {
                Ok(handle) => handle.join(rt),
                Err(refused) => (refused.value)(),
            };
            (ran, worked)
        },
    )
}
