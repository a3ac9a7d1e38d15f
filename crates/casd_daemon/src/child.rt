//! `Child`: a connection that a thread serves.

ghost use Rattle.std.specs.Prelude.{◌≡◌};
ghost use Rattle.casd_daemon.specs.Hosting.{tellers};
ghost use Rattle.turn_lock.specs.Seats.{AtLock};
ghost use Rattle.casd_daemon.specs.Running.{IsGiven, IsServed, MayBegin};
ghost use Rattle.casd_daemon.specs.declared.host.Conn.{Conn};

use crate::hang_up::HangUp;
use crate::host::Conn;
use blob_store::{Bell, LockDoor, Shelf, Store};
use casd_base::Link;
use casd_connection::{ConnReport, serve_connection};
use std::alloc::Global;
use std::marker::Model;
use std::snapshot::Snapshot;
use std::sync::Wait;
use std::thread::{Promise, PromisedHandle, Threads};
use turn_lock::{Seat, TurnLock};

/// What a thread gives back.
#[derive(Drop)]
pub(crate) struct Served<K: Shelf, L> {
    pub(crate) seat: Seat<Store<K>>,
    pub(crate) conn: Conn<K, L>,
    pub(crate) report: ConnReport,
}

/// What a thread was given. It has no bytes.
#[derive(Drop)]
pub(crate) struct Given<K: Shelf, L> {
    pub(crate) seat: Snapshot<Seat<Store<K>>>,
    pub(crate) conn: Snapshot<Conn<K, L>>,
}

impl<K: Shelf, L: Link> Promise<Served<K, L>> for Given<K, L> {
    ghost kept_by = { λ p r. IsServed (tellers K.shelved L.left L.written L.read_faults L.write_faults L.sent L.at_end) p.seat.value p.conn.value r.seat r.conn r.report };
}

/// Serves a connection by a seat of its own, whose door rings the bell.
pub(crate) fn serve_seat<K: Shelf, L: Link, R: Wait>(
    rt: &R,
    alloc: Global,
    lock: &TurnLock<Store<K>>,
    bell: &Bell,
    seat: Seat<Store<K>>,
    conn: Conn<K, L>,
) -> Served<K, L>
    requires given { IsGiven lock.now seat.view.start seat }
    requires begin { MayBegin seat.view.start }
    ensures { IsServed (tellers K.shelved L.left L.written L.read_faults L.write_faults L.sent L.at_end) seat conn result.seat result.conn result.report }
{
    let mut door = LockDoor::new(alloc, rt, lock, seat, bell.gate(rt));
    let mut conn = conn;
    let report = serve_connection(alloc, &mut door, &mut conn.shelf, &mut conn.link);
    let seat = door.into_seat();
    let _turns = seat.left();
    Served { seat, conn, report }
}

/// Hangs up a connection that was served.
pub(crate) fn hung_up<K: Shelf, L: Link + HangUp>(served: Served<K, L>) -> Served<K, L>
    ensures { (seat : AtLock) (conn : Conn K L) → IsServed (tellers K.shelved L.left L.written L.read_faults L.write_faults L.sent L.at_end) seat conn served.seat served.conn served.report → IsServed (tellers K.shelved L.left L.written L.read_faults L.write_faults L.sent L.at_end) seat conn result.seat result.conn result.report }
{
    let mut served = served;
    served.conn.link.hang_up();
    served
}

/// A connection that a thread serves, or that was served where no thread could be started.
#[derive(Drop)]
pub(crate) struct Child<K: Shelf, L: Link> {
    given: Given<K, L>,
    work: Result<PromisedHandle<Served<K, L>, Given<K, L>>, Served<K, L>>,
}

impl<K: Shelf, L: Link> Model for Child<K, L> {
    ghost use Rattle.std.specs.Prelude.{◌≡◌, IfOk, IfErr};
    ghost use Rattle.turn_lock.specs.Seats.{AtLock};
    ghost use Rattle.casd_daemon.specs.Hosting.{tellers};
    ghost use Rattle.casd_daemon.specs.Running.{IsServed};
    ghost use Rattle.casd_daemon.specs.declared.host.Conn.{Conn};

    // what it was given
    ghost Value = { AtLock × Conn K L };

    ghost view = { λ c. (c.given.seat.value, c.given.conn.value) };

    ghost invariant = { λ c. IfOk c.work (λ h. (h.promise.seat.value ≡ c.given.seat.value) × (h.promise.conn.value ≡ c.given.conn.value)) × IfErr c.work (λ r. IsServed (tellers K.shelved L.left L.written L.read_faults L.write_faults L.sent L.at_end) c.given.seat.value c.given.conn.value r.seat r.conn r.report) };
}

impl<K: Shelf, L: Link> Child<K, L> {
    /// One that a thread serves.
    pub(crate) fn there(
        given: Given<K, L>,
        handle: PromisedHandle<Served<K, L>, Given<K, L>>,
    ) -> Child<K, L>
        requires { (handle.promise.seat.value ≡ given.seat.value) × (handle.promise.conn.value ≡ given.conn.value) }
        ensures { result ≡ (given.seat.value, given.conn.value) }
    {
        Child {
            given,
            work: Ok(handle),
        }
    }

    /// One that was served here.
    pub(crate) fn here(given: Given<K, L>, served: Served<K, L>) -> Child<K, L>
        requires { IsServed (tellers K.shelved L.left L.written L.read_faults L.write_faults L.sent L.at_end) given.seat.value given.conn.value served.seat served.conn served.report }
        ensures { result ≡ (given.seat.value, given.conn.value) }
    {
        Child {
            given,
            work: Err(served),
        }
    }

    /// Waits until it was served.
    pub(crate) fn join<R: Threads>(self, rt: &R) -> Served<K, L>
        ensures { IsServed (tellers K.shelved L.left L.written L.read_faults L.write_faults L.sent L.at_end) self.0 self.1 result.seat result.conn result.report }
    {
        let Child { given: _, work } = self;
        match work {
            Ok(handle) => handle.join(rt),
            Err(served) => served,
        }
    }
}
