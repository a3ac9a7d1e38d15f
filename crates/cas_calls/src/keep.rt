//! Bytes on their way to the shelf.

ghost use Rattle.std.specs.Prelude.{◌≡◌, ◌≤◌, ◌^◌, length, IfOk, IsErrOf};
ghost use Rattle.blob_store.specs.Bodies.{IsSealed};
ghost use Rattle.blob_store.specs.declared.shelf.ShelfEnd.TheVariants.{Failed as Fault};
ghost use Rattle.cas_calls.specs.Plays.{Leaves, Lapses};

use blob_store::{Checked, Filling, Shelf, ShelfEnd};
use std::alloc::Global;

/// The bytes as a body on the shelf. A draft that doesn't become one is given up.
pub(crate) fn keep<K: Shelf>(
    alloc: Global,
    shelf: &mut K,
    bytes: &[u8],
) -> Result<Checked<K>, ShelfEnd>
    requires small { length bytes.now ≤ 2 ^ 60 }
    ensures sealed { IfOk result (IsSealed bytes.now) }
    ensures leaves { Leaves (K.shelved shelf.old) (K.shelved shelf.new) }
    ensures cause { IsErrOf result Fault → Lapses (K.shelved shelf.old) (K.shelved shelf.new) }
{
    let mut filling = Filling::new(alloc, shelf)?;
    match filling.add(shelf, bytes) {
        Ok(()) => filling.finish(shelf),
        Err(end) => {
            filling.give_up(shelf);
            Err(end)
        }
    }
}
