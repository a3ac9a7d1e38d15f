//! A run over a lock, from its first seat to its close.

ghost use Rattle.std.specs.Prelude.{◌≡◌, ◌<◌, ◌≤◌, ◌⊎◌, [], true, IfOk, IfErr};
ghost use Rattle.store_core.specs.State.{Valid};
ghost use Rattle.turn_lock.specs.Views.{stays};
ghost use Rattle.blob_store.specs.View.{own_now};
ghost use Rattle.casd_daemon.specs.Hosting.{tellers, NoneFell};
ghost use Rattle.casd_daemon.specs.Running.{HasNone, HasCause, most_connections};
ghost use Rattle.casd_daemon.specs.Working.{Works};
ghost use Rattle.casd_daemon.specs.declared.run.RunEnd.TheVariants.{Done};
ghost use Rattle.casd_daemon.specs.Closing.{IsNew, Begins, Closed, first_passes, worker_share};

use crate::beside::serve_beside;
use crate::hang_up::HangUp;
use crate::host::HostOf;
use crate::run::{Ran, RunEnd};
use crate::worker::Worked;
use blob_store::{Bell, BellGate, Door, LockDoor, Shelf, Store};
use casd_base::Link;
use proto_wire::OutOfMemory;
use std::alloc::Global;
use std::sync::Wait;
use std::thread::Threads;
use turn_lock::{Seat, TurnLock};

/// How many turns the worker gets.
const WORKER_SHARE: u64 = 1 << 60;

// The first pass, if it is due.
fn first_pass<K: Shelf, D: Door<K>>(door: &mut D, shelf: &mut K, due: bool)
    requires is_in { (D.view door.old).entered ≡ true }
    requires none { own_now (D.view door.old) ≡ [] }
    requires left { 1 < (D.view door.old).left }
    ensures works { Works (D.view door.old) (D.view door.new) (first_passes due) }
{
    if due {
        door.pass(shelf);
    }
}

// The worker's owner comes, by a seat of its own, and makes the first pass, if it is due.
fn begin<'a, K: Shelf, R: Wait>(
    alloc: Global,
    rt: &'a R,
    lock: &'a TurnLock<Store<K>>,
    bell: &'a Bell,
    seat: &mut Seat<Store<K>>,
    shelf: &mut K,
    due: bool,
) -> Result<LockDoor<'a, K, R, BellGate<'a, R>>, OutOfMemory>
    requires { IsNew lock.now seat.old }
    ensures seat { seat.new ≡ record seat.old { view = stays worker_share seat.old.view } }
    ensures begins { IfOk result (λ d. Begins seat.old d.view (first_passes due)) }
    ensures may { IfOk result (λ d. (d.view.entered ≡ true) × (own_now d.view ≡ []) × (0 < d.view.left)) }
{
    let theirs = lock.seat(seat, WORKER_SHARE);
    let mut door = LockDoor::new(alloc, rt, lock, theirs, bell.gate(rt));
    door.enter()?;
    first_pass(&mut door, shelf, due);
    Ok(door)
}

/// What comes of a run.
pub(crate) struct Sums<K: Shelf, H> {
    pub(crate) host: H,
    pub(crate) store: Store<K>,
    /// How many connections came.
    pub(crate) count: u64,
    /// How many entries the history has.
    pub(crate) entries: u64,
    pub(crate) end: RunEnd,
}

/// Serves over a new lock, and closes it. Out of memory before the first connection gives the host back.
pub(crate) fn run_lock<
    K: Shelf + Drop + Send,
    L: Link + HangUp + Drop + Send,
    H: HostOf<K, L> + Drop,
    R: Threads + Wait + Sync,
>(
    rt: &R,
    alloc: Global,
    lock: TurnLock<Store<K>>,
    seat: Seat<Store<K>>,
    shelf: K,
    host: H,
    most: u64,
    due: bool,
) -> Result<Sums<K, H>, H>
where
    K::Draft: Send,
    K::Body: Send,
    K::Reader: Send,
    requires new { IsNew lock seat }
    requires few { most ≤ most_connections }
    ensures ok { IfOk result (λ s. Closed (tellers K.shelved L.left L.written L.read_faults L.write_faults L.sent L.at_end) seat.view.start (first_passes due) (H.hosted host).told (H.hosted s.host).told s.store.state s.count s.entries) }
    ensures valid { IfOk result (λ s. Valid s.store.state) }
    ensures all { IfOk result (λ s. s.end ≡ Done → (s.count ≡ most) ⊎ HasNone (H.hosted s.host).told) }
    ensures cause { IfOk result (λ s. HasCause s.end (H.hosted host).counts (H.hosted s.host).counts) }
    ensures later { IfOk result (λ s. NoneFell (H.hosted host).counts (H.hosted s.host).counts) }
    ensures name { IfOk result (λ s. (H.hosted s.host).name ≡ (H.hosted host).name) }
    ensures err { IfErr result (λ h. H.hosted h ≡ H.hosted host) }
{
    let mut seat = seat;
    let mut shelf = shelf;
    let bell = Bell::new();
    let Ok(door) = begin(alloc, rt, &lock, &bell, &mut seat, &mut shelf, due) else {
        return Err(host);
    };
    let (ran, worked) = serve_beside(rt, alloc, &lock, &bell, host, seat, most, door, shelf);
    let Ran {
        host,
        seat: mine,
        count,
        end,
    } = ran;
    let Worked {
        seat: theirs,
        passes: _,
    } = worked;
    let mut joined = mine;
    lock.join(&mut joined, theirs);
    let entries = joined.made();
    let store = lock.close(joined);
    Ok(Sums {
        host,
        store,
        count,
        entries,
        end,
    })
}
