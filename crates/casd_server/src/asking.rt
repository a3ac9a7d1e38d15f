//! What a seat's owner asks of the store beside its calls.

ghost use Rattle.std.specs.Prelude.{◌≡◌, ◌<◌, ◌≤◌, ◌^◌, ℕ, true, length, Some, [], IfOk};
ghost use Rattle.store_core.specs.declared.event.Event.TheVariants as events;
ghost use Rattle.blob_store.specs.Benched.{store_of, seat_of};
ghost use Rattle.casd_server.specs.Answer.{by_event, by_close};
ghost use Rattle.casd_server.specs.Sitting.{StaysSeated, seated_at};

use crate::answer::Answer;
use crate::sitting::{has_turn, look, rise};
use blob_store::{Bench, Door, Passed, Shelf};
use proto_wire::OutOfMemory;

/// An expiry pass. Where no turn is left it ends as without memory.
pub(crate) fn pass<K: Shelf>(bench: &mut Bench<K>, shelf: &mut K) -> Result<Answer, OutOfMemory>
    requires is_in { (seat_of bench.old).entered ≡ true }
    requires few { length bench.old.seen ≤ 2 ^ 62 }
    ensures ok { IfOk result (λ a. (owner : ℕ) → (seat_of bench.old).owner ≡ Some owner → (a, seated_at bench.new) ≡ by_event (seated_at bench.old) owner events.Pass) }
    ensures seats { StaysSeated bench.old bench.new }
    ensures few { length bench.new.seen ≤ 2 ^ 62 }
    ensures sure { (K.shelved shelf.new).may_fail ≡ (K.shelved shelf.old).may_fail }
{
    if !has_turn(bench) {
        return Err(OutOfMemory);
    }
    let Passed { removed, used } = bench.pass(shelf);
    look(bench);
    Ok(Answer::Passed { removed, used })
}

/// The numbers of the store. Where no turn is left it ends as without memory.
pub(crate) fn usage<K: Shelf>(bench: &mut Bench<K>) -> Result<Answer, OutOfMemory>
    requires is_in { (seat_of bench.old).entered ≡ true }
    requires few { length bench.old.seen ≤ 2 ^ 62 }
    ensures ok { IfOk result (λ a. (owner : ℕ) → (seat_of bench.old).owner ≡ Some owner → (a, seated_at bench.new) ≡ by_event (seated_at bench.old) owner events.Usage) }
    ensures seats { StaysSeated bench.old bench.new }
    ensures few { length bench.new.seen ≤ 2 ^ 62 }
{
    if !has_turn(bench) {
        return Err(OutOfMemory);
    }
    let used = bench.usage();
    look(bench);
    Ok(Answer::Used(used))
}

/// The owner of the chosen seat goes. Where no turn is left it ends as without memory.
pub(crate) fn close<K: Shelf>(bench: &mut Bench<K>, seat: usize) -> Result<Answer, OutOfMemory>
    requires is_in { (seat_of bench.old).entered ≡ true }
    requires chosen { bench.old.chosen ≡ seat }
    requires within { seat < length bench.old.seats }
    requires few { length bench.old.seen ≤ 2 ^ 62 }
    requires bare { (store_of bench.old).leases ≡ [] }
    ensures ok { IfOk result (λ a. (owner : ℕ) → (seat_of bench.old).owner ≡ Some owner → (a, seated_at bench.new) ≡ by_close (seated_at bench.old) seat owner) }
    ensures len { length bench.new.seats ≡ length bench.old.seats }
    ensures bare { (store_of bench.new).leases ≡ [] }
    ensures few { length bench.new.seen ≤ 2 ^ 62 }
{
    if !has_turn(bench) {
        return Err(OutOfMemory);
    }
    rise(bench, seat);
    Ok(Answer::Closed)
}
