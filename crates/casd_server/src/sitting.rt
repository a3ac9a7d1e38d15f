//! The seats at the bench.

ghost use Rattle.std.specs.Prelude.{◌≡◌, ◌<◌, ◌≤◌, ◌+◌, ◌^◌, ℕ, true, length, Some, [], OnOk, IsTrue};
ghost use Rattle.store_core.specs.Step.{step};
ghost use Rattle.store_core.specs.declared.event.Event.TheVariants as events;
ghost use Rattle.store_core.specs.declared.event.Reply.TheVariants as replies;
ghost use Rattle.blob_store.specs.Benched.{store_of, view_of};
ghost use Rattle.blob_store.specs.View.{IsSound};
ghost use Rattle.casd_server.specs.Answer.{closed_with, owner_at};
ghost use Rattle.casd_server.specs.Sitting.{Sits, seated_at};

use blob_store::{Bench, Door, Shelf};
use proto_wire::OutOfMemory;

/// How many turns are kept, so that every owner can go. As many are never used.
const KEPT: u64 = 1 << 62;

/// Whether a turn can be taken, with those left that are kept. It takes no memory.
pub(crate) fn has_turn<K: Shelf>(bench: &Bench<K>) -> bool
    ensures { IsTrue result → length bench.now.seen < 2 ^ 62 }
{
    bench.left() > KEPT
}

/// What a bench has seen is legal. It takes no memory.
pub(crate) fn look<K: Shelf>(bench: &Bench<K>)
    ensures { IsSound (view_of bench.now) }
{
    bench.left();
}

/// Chooses a seat, and opens an owner for it if it has none. If no turn is left it ends as without memory.
pub(crate) fn sit<K: Shelf>(bench: &mut Bench<K>, seat: usize) -> Result<(), OutOfMemory>
    requires seat { seat < length bench.old.seats }
    requires few { length bench.old.seen ≤ 2 ^ 62 }
    ensures sits { OnOk result (Sits bench.old bench.new seat) }
    ensures len { length bench.new.seats ≡ length bench.old.seats }
    ensures few { length bench.new.seen ≤ 2 ^ 62 }
    ensures bare { (store_of bench.new).leases ≡ (store_of bench.old).leases }
{
    bench.choose(seat);
    if bench.is_entered() {
        return Ok(());
    }
    if !has_turn(bench) {
        return Err(OutOfMemory);
    }
    let came = bench.enter();
    look(bench);
    came
}

/// The owner of a seat goes, if it has one. It takes no memory.
pub(crate) fn rise<K: Shelf>(bench: &mut Bench<K>, seat: usize)
    requires seat { seat < length bench.old.seats }
    requires turn { length bench.old.seen < 2 ^ 63 }
    requires bare { (store_of bench.old).leases ≡ [] }
    ensures closed { seated_at bench.new ≡ closed_with (seated_at bench.old) seat (owner_at (seated_at bench.old) seat) }
    ensures reply { (owner : ℕ) → owner_at (seated_at bench.old) seat ≡ Some owner → (step (store_of bench.old) owner events.Close).0 ≡ replies.Closed }
    ensures len { length bench.new.seats ≡ length bench.old.seats }
    ensures one { length bench.new.seen ≤ length bench.old.seen + 1 }
    ensures bare { (store_of bench.new).leases ≡ [] }
{
    bench.choose(seat);
    if bench.is_entered() {
        bench.leave();
        look(bench);
    }
}
