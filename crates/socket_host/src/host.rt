//! `SocketHost`.

ghost use Rattle.std.specs.Prelude.{◌≡◌, ◌≤◌, ◌<◌, ◌+◌, IfOk, OnOk, OnErr};
ghost use Rattle.casd_base.specs.Causes.{Rose};
ghost use Rattle.casd_base.specs.Memory.{counted};
ghost use Rattle.casd_daemon.specs.Hosting.{NoneFell, handing};
ghost use Rattle.casd_daemon.specs.declared.host.AcceptEnd.TheVariants.{Failed as Fault};
ghost use Rattle.socket_host.specs.Telling.{tells, counts_of};

use crate::opened::Opened;
use crate::socket::SocketLink;
use blob_store::ShelfEnd;
use cache_folder::HostShelf;
use casd_connection::ConnReport;
use casd_daemon::{AcceptEnd, Conn, Host, Place};
use digest_types::Digests;
use std::alloc::Global;
use std::io;
use std::io::Write;
use std::os::unix::net::UnixStream;

/// A host over a Unix socket, a cache folder and standard output. It tells no content. Where a call fails it says on
/// standard error why.
#[derive(Drop)]
pub struct SocketHost {
    rt: HostRuntime,
    alloc: Global,
    opened: Option<Opened>,
    seats: u64,
    out: u64,
    accepting: u64,
    printing: u64,
    keeping: u64,
}

impl SocketHost {
    /// A host that has opened nothing yet. It takes no memory.
    pub fn new(rt: HostRuntime, alloc: Global) -> SocketHost {
        SocketHost {
            rt,
            alloc,
            opened: None,
            seats: 0,
            out: 0,
            accepting: 0,
            printing: 0,
            keeping: 0,
        }
    }

    // A shelf of the next number. There is none before the host is prepared.
    fn next_shelf(&mut self) -> Result<HostShelf, AcceptEnd>
        ensures shelf { IfOk result (λ k. k.seat ≡ self.old.seats) }
        ensures next { OnOk result (self.new ≡ record self.old { seats = self.old.seats + 1 }) }
        ensures err { OnErr result (self.new ≡ self.old) }
    {
        let (Some(opened), Some(next)) = (&self.opened, self.seats.checked_add(1)) else {
            return Err(AcceptEnd::Failed);
        };
        let shelf = opened.shelf(self.rt, self.alloc, self.seats)?;
        self.seats = next;
        Ok(shelf)
    }

    // The socket's next connection, or `None` once its file is gone.
    fn next_stream(&mut self) -> Result<Option<UnixStream>, AcceptEnd>
        ensures { self.new ≡ record self.old { opened = self.new.opened } }
    {
        match &mut self.opened {
            Some(opened) => opened.next_stream(self.rt),
            None => Err(AcceptEnd::Failed),
        }
    }

    // The next connection with its shelf.
    fn next_conn(&mut self) -> Result<Option<Conn<HostShelf, SocketLink>>, AcceptEnd>
        ensures { self.new ≡ record self.old { opened = self.new.opened; seats = self.new.seats } }
    {
        let shelf = self.next_shelf()?;
        let Some(stream) = self.next_stream()? else {
            return Ok(None);
        };
        let link = SocketLink::new(stream);
        Ok(Some(Conn { link, shelf }))
    }
}

// Counts a fault.
fn count(faults: &mut u64)
    ensures count { faults.new ≡ counted faults.old }
    ensures later { faults.old ≤ faults.new }
{
    *faults = faults.saturating_add(1);
}

// Counts an end that is a fault.
fn count_end(faults: &mut u64, end: AcceptEnd)
    ensures later { faults.old ≤ faults.new }
    ensures cause { end ≡ Fault → Rose faults.old faults.new }
{
    if end == AcceptEnd::Failed {
        count(faults);
    }
}

impl Host for SocketHost {
    type K = HostShelf;

    type L = SocketLink;

    ghost told = { λ h. tells h.out };

    ghost counts = { λ h. counts_of h };

    fn prepare(&mut self, place: &Place) -> Result<(), AcceptEnd> {
        match Opened::new(
            self.rt,
            self.alloc,
            place.socket.as_str(),
            place.folder.as_str(),
        ) {
            Ok(opened) => {
                self.opened = Some(opened);
                Ok(())
            }
            Err(end) => {
                count_end(&mut self.accepting, end);
                Err(end)
            }
        }
    }

    fn shelf(&mut self) -> Result<HostShelf, ShelfEnd> {
        match self.next_shelf() {
            Ok(shelf) => Ok(shelf),
            Err(AcceptEnd::OutOfMemory) => Err(ShelfEnd::OutOfMemory),
            Err(AcceptEnd::Failed) => {
                count(&mut self.accepting);
                Err(ShelfEnd::Failed)
            }
        }
    }

    fn accept(&mut self) -> Result<Option<Conn<HostShelf, SocketLink>>, AcceptEnd> {
        let Some(out) = self.out.checked_add(1) else {
            count(&mut self.accepting);
            return Err(AcceptEnd::Failed);
        };
        match self.next_conn() {
            Ok(Some(conn)) => {
                self.out = out;
                Ok(Some(conn))
            }
            Ok(None) => Ok(None),
            Err(end) => {
                count_end(&mut self.accepting, end);
                Err(end)
            }
        }
    }

    fn print(&mut self, line: &[u8]) -> Result<(), AcceptEnd> {
        match print_all(self.rt, line) {
            Ok(()) => Ok(()),
            Err(e) => {
                let _ = eprintln!(self.rt; "casd: standard output can't be written: {e}");
                count(&mut self.printing);
                Err(AcceptEnd::Failed)
            }
        }
    }

    fn keep(&mut self, order: &Digests) -> Result<(), ShelfEnd> {
        let kept = match &self.opened {
            Some(opened) => opened.keep(self.rt, self.alloc, order),
            None => Err(ShelfEnd::Failed),
        };
        if kept == Err(ShelfEnd::Failed) {
            count(&mut self.keeping);
        }
        kept
    }

    fn ended(&mut self, conn: Conn<HostShelf, SocketLink>, report: ConnReport)
        requires { 0 < self.old.out }
        ensures ended { tells self.new.out ≡ handing conn report (tells self.old.out) }
        ensures later { NoneFell (counts_of self.old) (counts_of self.new) }
    {
        let _ = report;
        drop(conn);
        self.out -= 1;
    }

    ghost tells_saved = { λ h is. absurd cc };
}

fn print_all(rt: HostRuntime, bytes: &[u8]) -> io::Result<()> {
    let mut out = rt.stdout();
    out.write_all(bytes)?;
    out.flush()
}
