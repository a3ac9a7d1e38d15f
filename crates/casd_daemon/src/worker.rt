//! The worker, which makes a pass for each ring.

ghost use Rattle.std.specs.Prelude.{◌≡◌, ◌<◌, ◌^◌, [], true};
ghost use Rattle.blob_store.specs.View.{own_now};
ghost use Rattle.blob_store.specs.Doors.{door_view};
ghost use Rattle.casd_daemon.specs.Working.{Works, IsWorked};

use blob_store::{Door, Ear, Gate, LockDoor, Ring, Shelf, Store};
use std::snapshot::Snapshot;
use std::sync::Wait;
use std::thread::Promise;
use turn_lock::Seat;

/// More passes than any run makes.
const ENDLESS: u64 = 1 << 62;

// Waits for ever.
fn never<R: Wait>(rt: &R)
    ensures { ⊥ }
{
    for _ in rt.forever() {}
    unreachable!()
}

/// Makes an expiry pass for each ring, until it hears that it is to stop, or one turn is left. It answers how many it made.
pub fn expiry_worker<K: Shelf, D: Door<K>, E: Ear, R: Wait>(
    rt: &R,
    door: &mut D,
    shelf: &mut K,
    ear: &mut E,
) -> u64
    requires is_in { (D.view door.old).entered ≡ true }
    requires none { own_now (D.view door.old) ≡ [] }
    requires left { 0 < (D.view door.old).left }
    requires unheard { (E.passes ear.old ≡ 0) × (E.stops ear.old ≡ 0) }
    ensures works { Works (D.view door.old) (D.view door.new) result }
    ensures heard { E.passes ear.new ≡ result }
    ensures stopped { 1 < (D.view door.new).left → E.stops ear.new ≡ 1 }
    ensures left { 0 < (D.view door.new).left }
{
    for round in 0..ENDLESS {
        if door.left() <= 1 {
            return round;
        }
        match ear.wait() {
            Ring::Stop => return round,
            Ring::Pass => {
                door.pass(shelf);
            }
        }
    }
    never(rt);
    0
}

/// What the worker's thread gives back.
#[derive(Drop)]
pub(crate) struct Worked<K: Shelf> {
    pub(crate) seat: Seat<Store<K>>,
    pub(crate) passes: u64,
}

/// The seat of the door that the worker's thread was given, which has entered. It has no bytes.
#[derive(Drop)]
pub(crate) struct AtSeat<K: Shelf>(pub(crate) Snapshot<Seat<Store<K>>>);

impl<K: Shelf> Promise<Worked<K>> for AtSeat<K> {
    ghost kept_by = { λ p r. IsWorked (door_view p.0.value true) r.seat r.passes };
}

/// Works, and leaves.
pub(crate) fn run_worker<K: Shelf + Drop, G: Gate + Drop, E: Ear + Drop, R: Wait>(
    rt: &R,
    door: LockDoor<K, R, G>,
    shelf: K,
    ear: E,
) -> Worked<K>
    requires is_in { door.view.entered ≡ true }
    requires none { own_now door.view ≡ [] }
    requires left { 0 < door.view.left }
    requires unheard { (E.passes ear ≡ 0) × (E.stops ear ≡ 0) }
    ensures { IsWorked door.entry.view result.seat result.passes }
{
    let mut door = door;
    let mut shelf = shelf;
    let mut ear = ear;
    let passes = expiry_worker(rt, &mut door, &mut shelf, &mut ear);
    door.leave();
    let seat = door.into_seat();
    let _turns = seat.left();
    Worked { seat, passes }
}
