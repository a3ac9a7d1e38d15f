//! What one or two threads do at their doors.

ghost use Rattle.std.specs.Prelude.{◌≡◌, ◌+◌, ◌<◌, ◌≤◌, ◌^◌, [], length, false, None};
ghost use Rattle.turn_lock.specs.Seats.{IsIdle, HasLeft};
ghost use Rattle.blob_store.specs.Doors.{GoesOn};
ghost use Rattle.blob_store.specs.View.{MayCall, own_now};
ghost use Rattle.store_core.specs.State.{Valid};

use crate::{Counting, empty_shelf, unrung};
use blob_store::{Checked, Door, Filling, LockDoor, MemShelf, PutReply, ShelfEnd, Store};
use digest_types::{Digest, Digests};
use std::alloc::Global;
use std::process::Abort;
use std::sync::Wait;
use turn_lock::{Seat as TurnSeat, TurnLock};

fn checked(alloc: Global, shelf: &mut MemShelf, bytes: &[u8]) -> Result<Checked<MemShelf>, ShelfEnd>
    requires { length bytes.now ≤ 100 }
{
    let mut filling = Filling::new(alloc, shelf)?;
    if let Err(e) = filling.add(shelf, bytes) {
        filling.give_up(shelf);
        return Err(e);
    }
    filling.finish(shelf)
}

/// Puts a blob of these bytes.
pub fn put_bytes<R: Wait + Abort>(
    rt: &R,
    alloc: Global,
    door: &mut LockDoor<MemShelf, R, Counting>,
    shelf: &mut MemShelf,
    bytes: &[u8],
) -> PutReply
    requires call { MayCall door.old.view }
    requires none { own_now door.old.view ≡ [] }
    requires few { length bytes.now ≤ 100 }
    ensures { GoesOn door.old.view door.new.view 1 }
{
    let Ok(blob) = checked(alloc, shelf, bytes) else {
        panic!(rt; "no body")
    };
    let Ok(reply) = door.put(shelf, blob) else {
        panic!(rt; "memory")
    };
    reply
}

/// How many of these bytes' blobs are missing: one or none.
pub fn missing<R: Wait + Abort>(
    rt: &R,
    alloc: Global,
    door: &mut LockDoor<MemShelf, R, Counting>,
    bytes: &[u8],
) -> usize
    requires call { MayCall door.old.view }
    requires none { own_now door.old.view ≡ [] }
    requires few { length bytes.now ≤ 100 }
    ensures { GoesOn door.old.view door.new.view 1 }
{
    let Ok(digests) = Vec::from_slice(alloc, &[Digest::of(bytes)]) else {
        panic!(rt; "memory")
    };
    let Ok(missing) = door.find(&Digests::from_vec(digests)) else {
        panic!(rt; "memory")
    };
    missing.len()
}

/// The door's owner comes.
pub fn enter<R: Wait + Abort>(rt: &R, door: &mut LockDoor<MemShelf, R, Counting>)
    requires out { door.old.view.entered ≡ false }
    requires turn { 0 < door.old.view.left }
    ensures { GoesOn door.old.view door.new.view 1 }
{
    let Ok(()) = door.enter() else {
        panic!(rt; "memory")
    };
}

/// An owner comes, puts a hundred blobs of two bytes, and goes.
pub fn put_hundred<R: Wait + Abort>(
    rt: &R,
    alloc: Global,
    lock: &TurnLock<Store<MemShelf>>,
    seat: TurnSeat<Store<MemShelf>>,
    first: u8,
) -> TurnSeat<Store<MemShelf>>
    requires lock { seat.lock ≡ lock.now }
    requires idle { IsIdle seat }
    requires none { seat.view.owner ≡ None }
    requires left { 200 ≤ seat.view.left }
    requires start { Valid seat.view.start × (seat.view.start.next_owner ≤ 2 ^ 62) × (seat.view.start.next_lease ≤ 2 ^ 62) }
    ensures lock { result.lock ≡ lock.now }
    ensures idle { IsIdle result }
    ensures gone { HasLeft result.view }
    ensures grant { result.view.grant ≡ seat.view.grant }
{
    let mut shelf = empty_shelf(alloc);
    let mut door = LockDoor::new(alloc, rt, lock, seat, unrung());
    enter(rt, &mut door);
    for i in 0..100u8 {
        put_bytes(rt, alloc, &mut door, &mut shelf, &[first, i]);
    }
    door.leave();
    door.into_seat()
}
