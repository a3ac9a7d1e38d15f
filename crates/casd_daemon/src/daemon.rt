//! `serve`.

ghost use Rattle.std.specs.Prelude.{◌≡◌, ◌≢◌, ◌↔◌, ◌≤◌, map, None, IfOk, IfErr, IfSome, OnOk, OnErr};
ghost use Rattle.casd_daemon.specs.Hosting.{tellers, NoneFell};
ghost use Rattle.casd_daemon.specs.Reads.{asked_view};
ghost use Rattle.casd_daemon.specs.Serving.{status_of, CantLoad, CantPrepare, Lends, Opens, ServesAs};
ghost use Rattle.casd_daemon.specs.Words.{asked_by};

use crate::asked::Asked;
use crate::end::ServeEnd;
use crate::host::{AcceptEnd, Host, Place};
use crate::lent::{serve_lent, take_back};
use crate::words::read_words;
use blob_store::{Shelf, ShelfEnd, Store};
use proto_wire::{OutOfMemory, Text};
use std::alloc::Global;
use std::sync::Wait;
use std::thread::Threads;
use store_core::Marks;

// Where the daemon listens, and where it keeps its blobs.
fn place_of(alloc: Global, asked: &Asked<'_>) -> Result<Place, OutOfMemory> {
    Ok(Place {
        socket: Text::new(alloc, asked.socket)?,
        folder: Text::new(alloc, asked.folder)?,
    })
}

fn prepare<H: Host>(alloc: Global, asked: &Asked<'_>, host: &mut H) -> Result<(), ServeEnd>
    ensures stays { H.told host.new ≡ H.told host.old }
    ensures later { NoneFell (H.counts host.old) (H.counts host.new) }
    ensures err { IfErr result (λ e. CantPrepare e (H.counts host.old) (H.counts host.new)) }
{
    let Ok(place) = place_of(alloc, asked) else {
        return Err(ServeEnd::OutOfMemory);
    };
    match host.prepare(&place) {
        Ok(()) => Ok(()),
        Err(AcceptEnd::Failed) => Err(ServeEnd::Unaccepted),
        Err(AcceptEnd::OutOfMemory) => Err(ServeEnd::OutOfMemory),
    }
}

// The store of what the host's shelf finds, and the shelf.
fn load_store<H: Host>(
    alloc: Global,
    host: &mut H,
    marks: Marks,
) -> Result<(Store<H::K>, H::K), ServeEnd>
    ensures lends { Lends (H.told host.old) (H.told host.new) }
    ensures later { NoneFell (H.counts host.old) (H.counts host.new) }
    ensures opens { IfOk result (λ r. Opens marks.low marks.high marks.guard (H.told host.old) r.0.state) }
    ensures err { IfErr result (λ e. CantLoad (tellers H.K.shelved H.L.left H.L.written H.L.read_faults H.L.write_faults H.L.sent H.L.at_end) e (H.told host.old) (H.counts host.old) (H.counts host.new)) }
{
    let mut shelf = match host.shelf() {
        Ok(shelf) => shelf,
        Err(ShelfEnd::Failed) => return Err(ServeEnd::Unloaded),
        Err(ShelfEnd::OutOfMemory) => return Err(ServeEnd::OutOfMemory),
    };
    match Store::load(alloc, &mut shelf, marks) {
        Ok(store) => Ok((store, shelf)),
        Err(ShelfEnd::Failed) => Err(ServeEnd::Unloaded),
        Err(ShelfEnd::OutOfMemory) => Err(ServeEnd::OutOfMemory),
    }
}

// Serves as is asked.
fn serve_asked<H: Host, R: Threads + Wait + Sync>(
    rt: &R,
    alloc: Global,
    asked: &Asked<'_>,
    host: &mut H,
) -> ServeEnd
where
    <H::K as Shelf>::Draft: Send,
    <H::K as Shelf>::Body: Send,
    <H::K as Shelf>::Reader: Send,
    ensures serves { ServesAs (tellers H.K.shelved H.L.left H.L.written H.L.read_faults H.L.write_faults H.L.sent H.L.at_end) (asked_view asked.now) result (H.told host.old) (H.told host.new) (H.counts host.old) (H.counts host.new) }
    ensures later { NoneFell (H.counts host.old) (H.counts host.new) }
{
    if let Err(end) = prepare(alloc, asked, host) {
        return end;
    }
    let (store, shelf) = match load_store(alloc, host, asked.marks) {
        Ok(loaded) => loaded,
        Err(end) => return end,
    };
    let (lent, end) = serve_lent(rt, alloc, store, shelf, host, asked.connections);
    take_back(lent);
    end
}

/// Serves as the words ask, which are those of the command line without the program's name: `serve SOCKET FOLDER` and
/// options. It makes the host ready, loads the store from its shelf, serves each connection that it accepts on a thread of
/// its own, and at the end keeps the list of use and prints `connections C entries E rows R used U`, in decimal and with a
/// newline. It answers the status of the process: 0 where the line was printed, 2 for other words, 3 where no store could
/// be loaded, 4 where the host failed to make ready or to accept, 5 where memory ran out, 6 where it failed to print, and 7
/// where it failed to keep the list of use.
pub fn serve<H: Host, R: Threads + Wait + Sync>(
    rt: &R,
    alloc: Global,
    words: &[&str],
    host: &mut H,
) -> u8
where
    <H::K as Shelf>::Draft: Send,
    <H::K as Shelf>::Body: Send,
    <H::K as Shelf>::Reader: Send,
    ensures refused { (result ≡ 2) ↔ (asked_by (map (λ w. w.now) words.now) ≡ None) }
    ensures untouched { result ≡ 2 → (H.told host.new ≡ H.told host.old) × (H.counts host.new ≡ H.counts host.old) }
    // The status is that of an end, and what the host tells then is what that end says.
    ensures serves { IfSome (asked_by (map (λ w. w.now) words.now)) (λ asked. (end : ServeEnd) × (result ≡ status_of end) × ServesAs (tellers H.K.shelved H.L.left H.L.written H.L.read_faults H.L.write_faults H.L.sent H.L.at_end) asked end (H.told host.old) (H.told host.new) (H.counts host.old) (H.counts host.new)) }
    // With another status than 0 nothing is printed.
    ensures quiet { result ≢ 0 → (H.told host.new).printed ≡ (H.told host.old).printed }
    ensures later { NoneFell (H.counts host.old) (H.counts host.new) }
{
    let Some(asked) = read_words(words) else {
        return ServeEnd::Refused.status();
    };
    serve_asked(rt, alloc, &asked, host).status()
}
