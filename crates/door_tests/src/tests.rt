ghost use Rattle.std.specs.Prelude.{◌≤◌, IfOk};
ghost use Rattle.door_tests.specs.Fresh.{IsFresh};

use crate::helpers::{enter, missing, put_bytes, put_hundred};
use crate::{empty_shelf, unrung};
use blob_store::{Bell, Door, Ear, Gate, LockDoor, MemShelf, PutReply, Ring, Shelf, Store};
use std::test::*;
use std::thread::{Threads, join};
use store_core::{Guard, Marks};
use turn_lock::{Seat as TurnSeat, TurnLock};

// A lock round an empty store, and its first seat.
fn locked(
    rt: &HostRuntime,
    low: u64,
    high: u64,
) -> Result<(TurnLock<Store<MemShelf>>, TurnSeat<Store<MemShelf>>), Fail>
    requires { (low ≤ high) × (high ≤ 1000) }
    ensures { IfOk result (λ r. IsFresh r.0 r.1) }
{
    let marks = Marks {
        low,
        high,
        guard: Guard::Leases,
    };
    let store = Store::new(rt.alloc(), marks)?;
    Ok(TurnLock::new(rt.alloc(), store)?)
}

#[test]
fn a_seat_finds_what_another_has_put(rt: HostRuntime) -> Result<(), Fail> {
    let (lock, mut first) = locked(&rt, 1000, 1000)?;
    let second = lock.seat(&mut first, 1000);
    let mut shelf = empty_shelf(rt.alloc());
    let mut one = LockDoor::new(rt.alloc(), &rt, &lock, first, unrung());
    let mut two = LockDoor::new(rt.alloc(), &rt, &lock, second, unrung());
    enter(&rt, &mut one);
    let reply = put_bytes(&rt, rt.alloc(), &mut one, &mut shelf, b"abc");
    assert!(rt;
        matches!(
            reply,
            PutReply::Stored {
                removed: 0,
                used: 3
            }
        )
    );
    enter(&rt, &mut two);
    assert_eq!(rt; missing(&rt, rt.alloc(), &mut two, b"abc"), 0);
    assert_eq!(rt; missing(&rt, rt.alloc(), &mut two, b"abd"), 1);
    one.leave();
    two.leave();
    let mut first = one.into_seat();
    lock.join(&mut first, two.into_seat());
    let usage = lock.close(first).usage();
    assert_eq!(rt; usage.rows, 1);
    assert_eq!(rt; usage.used, 3);
    Ok(())
}

#[test]
fn a_put_past_the_ring_mark_rings_once(rt: HostRuntime) -> Result<(), Fail> {
    let (lock, seat) = locked(&rt, 0, 10)?;
    let mut shelf = empty_shelf(rt.alloc());
    let mut door = LockDoor::new(rt.alloc(), &rt, &lock, seat, unrung());
    enter(&rt, &mut door);
    put_bytes(&rt, rt.alloc(), &mut door, &mut shelf, b"12345");
    assert_eq!(rt; door.gate().rings, 0);
    put_bytes(&rt, rt.alloc(), &mut door, &mut shelf, b"6");
    assert_eq!(rt; door.gate().rings, 1);
    door.leave();
    Ok(())
}

#[test]
fn two_threads_put_two_hundred_blobs(rt: HostRuntime) -> Result<(), Fail> {
    let (lock, mut seat) = locked(&rt, 1000, 1000)?;
    let one = lock.seat(&mut seat, 1000);
    let two = lock.seat(&mut seat, 1000);
    let (shared, host, alloc) = (&lock, &rt, rt.alloc());
    let (one, two) = join(
        &rt,
        || put_hundred(host, alloc, shared, one, 1),
        || put_hundred(host, alloc, shared, two, 2),
    );
    lock.join(&mut seat, one);
    lock.join(&mut seat, two);
    let usage = lock.close(seat).usage();
    assert_eq!(rt; usage.rows, 200);
    assert_eq!(rt; usage.used, 400);
    Ok(())
}

// What a shelf gave is dropped in other threads.
fn drop_apart<K: Shelf, R: Threads>(rt: &R, draft: K::Draft, body: K::Body, reader: K::Reader)
where
    K::Draft: Send,
    K::Body: Send,
    K::Reader: Send,
{
    join(
        rt,
        move || drop(draft),
        move || {
            drop(body);
            drop(reader);
        },
    );
}

#[test]
fn a_door_and_what_a_shelf_gave_are_dropped_in_other_threads(rt: HostRuntime) -> Result<(), Fail> {
    let mut shelf = empty_shelf(rt.alloc());
    let sealed = shelf.draft().ok().ok_or("no draft")?;
    let body = shelf.seal(sealed).ok().ok_or("no body")?;
    let reader = shelf.reader(&body).ok().ok_or("no reader")?;
    let draft = shelf.draft().ok().ok_or("no draft")?;
    drop_apart::<MemShelf, HostRuntime>(&rt, draft, body, reader);

    let (lock, seat) = locked(&rt, 1000, 1000)?;
    let door = LockDoor::new(rt.alloc(), &rt, &lock, seat, unrung());
    let (left, shelf) = join(&rt, move || door.left(), move || shelf);
    assert_eq!(rt; left, 1 << 63);
    assert_eq!(rt; shelf.faults(), 0);
    Ok(())
}

#[test]
fn rings_before_a_wait_count_as_one(rt: HostRuntime) {
    let bell = Bell::new();
    let mut gate = bell.gate(&rt);
    let mut ear = bell.ear(&rt);
    gate.ring();
    gate.ring();
    assert_eq!(rt; ear.wait(), Ring::Pass);
    bell.stop(&rt);
    assert_eq!(rt; ear.wait(), Ring::Stop);
}
