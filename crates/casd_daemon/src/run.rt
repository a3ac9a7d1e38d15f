//! Connections that are served by threads.

ghost use Rattle.std.specs.Prelude.{◌≡◌, ◌≢◌, ◌∷◌, IfOk, IfErr, IfSome, IfNone, ◌<◌, ◌≤◌, ◌⊎◌, ◌-◌, [], true, false};
ghost use Rattle.std.specs.VecDeque.{deque_len, deque_capacity};
ghost use Rattle.casd_base.specs.Causes.{Rose};
ghost use Rattle.casd_daemon.specs.Hosting.{tellers};
ghost use Rattle.casd_daemon.specs.Running.{IsGiven, IsServed, MayBegin, Runs, IsNext, IsFirst, HasNone, HasCause, share, most_connections};
ghost use Rattle.casd_daemon.specs.declared.run.RunEnd.TheVariants.{Done};
ghost use denote.Param.Send.{IsSend};

use crate::child::{Child, Given, Served, hung_up, serve_seat};
use crate::hang_up::HangUp;
use crate::host::{AcceptEnd, Conn, HostOf};
use blob_store::{Bell, Shelf, Store};
use casd_base::Link;
use std::alloc::Global;
use std::collections::VecDeque;
use std::snapshot::Snapshot;
use std::sync::Wait;
use std::thread;
use std::thread::Threads;
use turn_lock::{Seat, TurnLock};

/// How many turns a connection gets.
const SHARE: u64 = 1 << 41;

/// How many connections are served at a time.
const AT_A_TIME: usize = 4_096;

/// How it began. It has no bytes.
#[derive(Drop)]
pub(crate) struct First<K: Shelf, H> {
    pub(crate) host: Snapshot<H>,
    pub(crate) seat: Snapshot<Seat<Store<K>>>,
}

/// Why no more connections are served.
#[derive(Clone, Copy, Debug, PartialEq, Eq)]
pub(crate) enum RunEnd {
    /// As many came as were to come, or none is left.
    Done,
    Failed,
    OutOfMemory,
}

// Waits for the oldest connection, if there is one, takes its seat in, and hands it back.
fn end_oldest<K: Shelf, L: Link, H: HostOf<K, L>, R: Threads + Wait>(
    rt: &R,
    lock: &TurnLock<Store<K>>,
    first: &First<K, H>,
    host: &mut H,
    seat: &mut Seat<Store<K>>,
    children: &mut VecDeque<Child<K, L>>,
    count: u64,
) -> bool
    requires { Runs (tellers K.shelved L.left L.written L.read_faults L.write_faults L.sent L.at_end) lock.now first.now.seat.value seat.old children.old.items (H.hosted first.now.host.value) (H.hosted host.old) count }
    ensures runs { Runs (tellers K.shelved L.left L.written L.read_faults L.write_faults L.sent L.at_end) lock.now first.now.seat.value seat.new children.new.items (H.hosted first.now.host.value) (H.hosted host.new) count }
    ensures left { (H.hosted host.new).told.left ≡ (H.hosted host.old).told.left }
    ensures less { result ≡ true → deque_len children.new < deque_len children.old }
    ensures none { result ≡ false → children.new.items ≡ [] }
    ensures capacity { deque_capacity children.new ≡ deque_capacity children.old }
    ensures fewer { deque_len children.new ≤ deque_len children.old - 1 }
    ensures later { (H.hosted host.old).counts.accepting ≤ (H.hosted host.new).counts.accepting }
{
    let Some(child) = children.pop_front() else {
        return false;
    };
    let Served {
        seat: theirs,
        conn,
        report,
    } = child.join(rt);
    lock.join(seat, theirs);
    host.ended(conn, report);
    true
}

// Makes room for one more connection, and accepts the next.
fn next_conn<K: Shelf + Drop, L: Link + Drop, H: HostOf<K, L>, R: Threads + Wait>(
    rt: &R,
    lock: &TurnLock<Store<K>>,
    first: &First<K, H>,
    host: &mut H,
    seat: &mut Seat<Store<K>>,
    children: &mut VecDeque<Child<K, L>>,
    count: u64,
) -> Result<Option<Conn<K, L>>, RunEnd>
    requires runs { Runs (tellers K.shelved L.left L.written L.read_faults L.write_faults L.sent L.at_end) lock.now first.now.seat.value seat.old children.old.items (H.hosted first.now.host.value) (H.hosted host.old) count }
    requires more { count < most_connections }
    ensures some { IfOk result (λ o. IfSome o (λ conn. IsNext (tellers K.shelved L.left L.written L.read_faults L.write_faults L.sent L.at_end) lock.now first.now.seat.value seat.new children.new.items (H.hosted first.now.host.value) (H.hosted host.new) count conn × (share < seat.new.view.left) × (deque_len children.new < deque_capacity children.new))) }
    ensures none { IfOk result (λ o. IfNone o (Runs (tellers K.shelved L.left L.written L.read_faults L.write_faults L.sent L.at_end) lock.now first.now.seat.value seat.new children.new.items (H.hosted first.now.host.value) (H.hosted host.new) count × HasNone (H.hosted host.new).told)) }
    ensures err { IfErr result (λ e. Runs (tellers K.shelved L.left L.written L.read_faults L.write_faults L.sent L.at_end) lock.now first.now.seat.value seat.new children.new.items (H.hosted first.now.host.value) (H.hosted host.new) count × HasCause e (H.hosted host.old).counts (H.hosted host.new).counts × (e ≢ Done)) }
{
    if children.len() >= AT_A_TIME {
        end_oldest(rt, lock, first, host, seat, children, count);
    }
    accept_next(rt, lock, first, host, seat, children, count)
}

// The same where there aren't too many.
fn accept_next<K: Shelf + Drop, L: Link + Drop, H: HostOf<K, L>, R: Threads + Wait>(
    rt: &R,
    lock: &TurnLock<Store<K>>,
    first: &First<K, H>,
    host: &mut H,
    seat: &Seat<Store<K>>,
    children: &mut VecDeque<Child<K, L>>,
    count: u64,
) -> Result<Option<Conn<K, L>>, RunEnd>
    requires runs { Runs (tellers K.shelved L.left L.written L.read_faults L.write_faults L.sent L.at_end) lock.now first.now.seat.value seat.now children.old.items (H.hosted first.now.host.value) (H.hosted host.old) count }
    requires more { count < most_connections }
    ensures some { IfOk result (λ o. IfSome o (λ conn. IsNext (tellers K.shelved L.left L.written L.read_faults L.write_faults L.sent L.at_end) lock.now first.now.seat.value seat.now children.new.items (H.hosted first.now.host.value) (H.hosted host.new) count conn × (share < seat.now.view.left) × (deque_len children.new < deque_capacity children.new))) }
    ensures none { IfOk result (λ o. IfNone o (Runs (tellers K.shelved L.left L.written L.read_faults L.write_faults L.sent L.at_end) lock.now first.now.seat.value seat.now children.new.items (H.hosted first.now.host.value) (H.hosted host.new) count × HasNone (H.hosted host.new).told)) }
    ensures err { IfErr result (λ e. Runs (tellers K.shelved L.left L.written L.read_faults L.write_faults L.sent L.at_end) lock.now first.now.seat.value seat.now children.new.items (H.hosted first.now.host.value) (H.hosted host.new) count × HasCause e (H.hosted host.old).counts (H.hosted host.new).counts × (e ≢ Done)) }
{
    if children.reserve(1).is_err() {
        return Err(RunEnd::OutOfMemory);
    }
    match host.accept() {
        Ok(next) => Ok(next),
        Err(AcceptEnd::Failed) => Err(RunEnd::Failed),
        Err(AcceptEnd::OutOfMemory) => Err(RunEnd::OutOfMemory),
    }
}

// Waits for all.
fn end_all<K: Shelf + Drop, L: Link + Drop, H: HostOf<K, L>, R: Threads + Wait>(
    rt: &R,
    lock: &TurnLock<Store<K>>,
    first: &First<K, H>,
    host: &mut H,
    seat: &mut Seat<Store<K>>,
    children: VecDeque<Child<K, L>>,
    count: u64,
)
    requires { Runs (tellers K.shelved L.left L.written L.read_faults L.write_faults L.sent L.at_end) lock.now first.now.seat.value seat.old children.items (H.hosted first.now.host.value) (H.hosted host.old) count }
    ensures runs { Runs (tellers K.shelved L.left L.written L.read_faults L.write_faults L.sent L.at_end) lock.now first.now.seat.value seat.new [] (H.hosted first.now.host.value) (H.hosted host.new) count }
    ensures left { (H.hosted host.new).told.left ≡ (H.hosted host.old).told.left }
    ensures later { (H.hosted host.old).counts.accepting ≤ (H.hosted host.new).counts.accepting }
{
    let mut children = children;
    while end_oldest(rt, lock, first, host, seat, &mut children, count) {}
}

/// What comes of the connections.
pub(crate) struct Ran<K: Shelf, H> {
    pub(crate) host: H,
    pub(crate) seat: Seat<Store<K>>,
    pub(crate) count: u64,
    pub(crate) end: RunEnd,
}

/// Serves connections, each on a thread of its own, and waits for all. A connection whose thread can't be started is served
/// here.
pub(crate) fn serve_conns<
    K: Shelf + Drop + Send,
    L: Link + HangUp + Drop + Send,
    H: HostOf<K, L> + Drop,
    R: Threads + Wait + Sync,
>(
    rt: &R,
    alloc: Global,
    lock: &TurnLock<Store<K>>,
    bell: &Bell,
    host: H,
    seat: Seat<Store<K>>,
    most: u64,
) -> Ran<K, H>
where
    K::Draft: Send,
    K::Body: Send,
    K::Reader: Send,
    requires first { IsFirst lock.now seat }
    requires few { most ≤ most_connections }
    ensures all { result.end ≡ Done → (result.count ≡ most) ⊎ HasNone (H.hosted result.host).told }
    ensures runs { Runs (tellers K.shelved L.left L.written L.read_faults L.write_faults L.sent L.at_end) lock.now seat result.seat [] (H.hosted host) (H.hosted result.host) result.count }
    ensures cause { HasCause result.end (H.hosted host).counts (H.hosted result.host).counts }
{
    thread::scope(
        thread::scope_env(),
        rt,
        move |scope| -> Ran<K, H>
            requires { IsFirst lock.now seat × (most ≤ most_connections) × IsSend K.row × IsSend L.row }
            ensures all { result.end ≡ Done → (result.count ≡ most) ⊎ HasNone (H.hosted result.host).told }
            ensures runs { Runs (tellers K.shelved L.left L.written L.read_faults L.write_faults L.sent L.at_end) lock.entry.now seat result.seat [] (H.hosted host) (H.hosted result.host) result.count }
            ensures cause { HasCause result.end (H.hosted host).counts (H.hosted result.host).counts }
        {
            let mut host = host;
            let mut seat = seat;
            let first = First {
                host: Snapshot::of(&host),
                seat: Snapshot::of(&seat),
            };
            let mut count = 0u64;
            let mut end = RunEnd::Done;
            let mut children: VecDeque<Child<K, L>> = VecDeque::new(alloc);
            for _ in 0..most {
                let conn = match next_conn(
                    rt,
                    lock,
                    &first,
                    &mut host,
                    &mut seat,
                    &mut children,
                    count,
                ) {
                    Ok(Some(conn)) => conn,
                    Ok(None) => break,
                    Err(e) => {
                        end = e;
                        break;
                    }
                };
                let theirs = lock.seat(&mut seat, SHARE);
                let given = Given {
                    seat: Snapshot::of(&theirs),
                    conn: Snapshot::of(&conn),
                };
                let promise = Given {
                    seat: Snapshot::of(&theirs),
                    conn: Snapshot::of(&conn),
                };
                count += 1;
                let child = match scope.spawn_with(
                    promise,
                    move || -> Served<K, L>
                        requires { IsGiven lock.now theirs.view.start theirs × MayBegin theirs.view.start }
                        ensures { IsServed (tellers K.shelved L.left L.written L.read_faults L.write_faults L.sent L.at_end) theirs conn result.seat result.conn result.report }
                    { hung_up(serve_seat(rt, alloc, lock, bell, theirs, conn)) },
                ) {
                    Ok(handle) => Child::there(given, handle),
                    Err(refused) => Child::here(given, (refused.value)()),
                };
                children.push_back_reserved(child);
            }
            end_all(rt, lock, &first, &mut host, &mut seat, children, count);
            Ran {
                host,
                seat,
                count,
                end,
            }
        },
    )
}
