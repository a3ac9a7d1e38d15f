//! What is done to a store, and noted.

ghost use Rattle.std.specs.Prelude.{◌≡◌, false, Ok, IfOk, OnErr, IsOk};
ghost use Rattle.store_core.specs.declared.event.Event.TheVariants as events;
ghost use Rattle.indexed_core.specs.Events.{moves_bodies};
ghost use Rattle.store_core.specs.Memory.{takes_memory};
ghost use Rattle.blob_store.specs.Applied.{put_gives_up, passed_gives_up};
ghost use Rattle.blob_store.specs.Noted.{MayNote, IsDone, IsUndone};
ghost use Rattle.blob_store.specs.Shelves.{discarding};

use crate::checked::Checked;
use crate::shelf::Shelf;
use crate::store::Store;
use digest_types::Digest;
use directory_canon::Edges;
use proto_wire::OutOfMemory;
use store_core::{Event, Reply};
use turn_lock::Diary;

/// Does an event that moves no body.
pub(crate) fn note<K: Shelf>(
    store: &mut Store<K>,
    diary: &mut Diary,
    owner: u64,
    event: &Event,
) -> Result<Reply, OutOfMemory>
    requires quiet { moves_bodies event.now ≡ false }
    requires may { MayNote store.old.state diary.old owner event.now }
    ensures ok { IfOk result (IsDone store.old.state store.new.state diary.old diary.new owner event.now) }
    ensures err { OnErr result (IsUndone store.old.state store.new.state diary.old diary.new) }
    ensures free { takes_memory store.old.state.guard event.now ≡ false → IsOk result }
{
    let reply = store.step(owner, event)?;
    diary.note(owner, event, &reply);
    Ok(reply)
}

/// Does one that takes no memory.
pub(crate) fn note_freely<K: Shelf>(
    store: &mut Store<K>,
    diary: &mut Diary,
    owner: u64,
    event: &Event,
) -> Reply
    requires quiet { moves_bodies event.now ≡ false }
    requires free { takes_memory store.old.state.guard event.now ≡ false }
    requires may { MayNote store.old.state diary.old owner event.now }
    ensures { IsDone store.old.state store.new.state diary.old diary.new owner event.now result }
{
    match note(store, diary, owner, event) {
        Ok(reply) => reply,
        Err(_) => unreachable!(),
    }
}

/// Puts a blob.
pub(crate) fn note_put<K: Shelf>(
    store: &mut Store<K>,
    diary: &mut Diary,
    shelf: &mut K,
    owner: u64,
    blob: Checked<K>,
    event: &Event,
) -> Result<Reply, OutOfMemory>
    requires event { event.now ≡ events.Put blob.digest blob.edges }
    requires may { MayNote store.old.state diary.old owner event.now }
    ensures ok { IfOk result (IsDone store.old.state store.new.state diary.old diary.new owner event.now) }
    ensures err { OnErr result (IsUndone store.old.state store.new.state diary.old diary.new) }
    ensures shelf { K.shelved shelf.new ≡ discarding (put_gives_up result) (K.shelved shelf.old) }
{
    let reply = store.put(shelf, owner, blob)?;
    diary.note(owner, event, &reply);
    Ok(reply)
}

/// Makes a pass to the low mark. It takes no memory.
pub(crate) fn note_pass<K: Shelf>(
    store: &mut Store<K>,
    diary: &mut Diary,
    shelf: &mut K,
    owner: u64,
) -> Reply
    requires { MayNote store.old.state diary.old owner events.Pass }
    ensures done { IsDone store.old.state store.new.state diary.old diary.new owner events.Pass result }
    ensures shelf { K.shelved shelf.new ≡ discarding (passed_gives_up result) (K.shelved shelf.old) }
{
    let reply = store.pass(shelf, owner);
    diary.note(owner, &Event::Pass, &reply);
    reply
}
