//! `MemHost`, the double in memory.

ghost use Rattle.std.specs.Prelude.{◌≡◌, ◌<◌, ◌↔◌, ◌∷◌, [], map, Some, None, Contains, IsTrue, IfSome, IfNone};
ghost use Rattle.casd_base.specs.Memory.{counted};
ghost use Rattle.casd_daemon.specs.Hosting.{NoneFell, handing};
ghost use Rattle.casd_daemon.specs.InMemory.{tells, no_faults};

use crate::hang_up::HangUp;
use crate::host::{AcceptEnd, Conn, Host, Place};
use blob_store::{MemShelf, ShelfEnd};
use casd_base::Link;
use casd_connection::ConnReport;
use digest_types::Digests;
use proto_wire::Bytes;
use std::alloc::Global;
use std::marker::Model;
use std::mem;

/// A connection in memory.
pub type MemConn<L> = Conn<MemShelf, L>;

/// A connection that was handed back, with its report.
#[derive(Drop)]
pub struct Ended<L> {
    pub conn: Conn<MemShelf, L>,
    pub report: ConnReport,
}

/// A host in memory. It tells its content, its shelf never fails, and it fails at the calls that it is told.
#[derive(Drop)]
pub struct MemHost<L> {
    alloc: Global,
    found: Vec<Bytes>,
    left: Vec<Conn<MemShelf, L>>,
    // it has room for those that weren't handed back yet
    ended: Vec<Ended<L>>,
    printed: Vec<u8>,
    kept: Option<Digests>,
    failing: Vec<u64>,
    calls: u64,
    out: usize,
    accepting: u64,
    printing: u64,
    keeping: u64,
}

impl<L> Model for MemHost<L> {
    ghost use Rattle.std.specs.Prelude.{◌+◌, ◌≤◌, map, vec_len, vec_capacity};
    ghost use Rattle.casd_daemon.specs.InMemory.{MemHosted};

    ghost Value = { MemHosted L };

    ghost view = { λ h. record {
      found = h.found.items;
      left = h.left.items;
      ended = map (λ e. (e.conn, e.report)) h.ended.items;
      printed = h.printed.items;
      kept = h.kept;
      failing = h.failing.items;
      calls = h.calls;
      out = h.out;
      counts = record { accepting = h.accepting; printing = h.printing; keeping = h.keeping };
    } };

    ghost invariant = { λ h. vec_len h.ended + h.out ≤ vec_capacity h.ended };
}

impl<L> MemHost<L> {
    /// A host whose shelf finds these bodies, and to which these connections come, in this order. `failing` names the calls of
    /// accept, print and keep that fail, by their common number from 0. It takes no memory.
    pub fn new(
        alloc: Global,
        found: Vec<Bytes>,
        conns: Vec<Conn<MemShelf, L>>,
        failing: Vec<u64>,
    ) -> MemHost<L>
        ensures { result ≡ record {
          found = found.items;
          left = conns.items;
          ended = [];
          printed = [];
          kept = None;
          failing = failing.items;
          calls = 0;
          out = 0;
          counts = no_faults;
        } }
    {
        MemHost {
            alloc,
            found,
            left: conns,
            ended: Vec::new(alloc),
            printed: Vec::new(alloc),
            kept: None,
            failing,
            calls: 0,
            out: 0,
            accepting: 0,
            printing: 0,
            keeping: 0,
        }
    }

    /// What was printed. It takes no memory.
    pub fn printed(&self) -> &[u8]
        ensures { result.now ≡ self.now.printed }
    {
        self.printed.as_slice()
    }

    /// The connections that were handed back, in their order. It takes no memory.
    pub fn ended(&self) -> &[Ended<L>]
        ensures { map (λ e. (e.conn, e.report)) result.now ≡ self.now.ended }
    {
        self.ended.as_slice()
    }

    /// The list of use that was kept last. It takes no memory.
    pub fn kept(&self) -> Option<&Digests>
        ensures some { IfSome result (λ order. self.now.kept ≡ Some order.now) }
        ensures none { IfNone result (self.now.kept ≡ None) }
    {
        self.kept.as_ref()
    }
}

// Counts a call, and says whether it is to fail.
fn is_failing(calls: &mut u64, failing: &[u64]) -> bool
    ensures fails { IsTrue result ↔ Contains failing.now calls.old }
    ensures calls { calls.new ≡ counted calls.old }
{
    let number = *calls;
    *calls = number.saturating_add(1);
    failing.contains(&number)
}

// Counts a fault.
fn count(faults: &mut u64)
    ensures { faults.new ≡ counted faults.old }
{
    *faults = faults.saturating_add(1);
}

// Takes the first of the connections out.
fn first_of<L>(conns: &mut Vec<Conn<MemShelf, L>>) -> Option<Conn<MemShelf, L>>
    ensures some { IfSome result (λ conn. conns.old.items ≡ conn ∷ conns.new.items) }
    ensures none { IfNone result ((conns.old.items ≡ []) × (conns.new.items ≡ [])) }
{
    if conns.is_empty() {
        return None;
    }
    Some(conns.remove(0))
}

impl<L: Link + HangUp + Drop + Send> Host for MemHost<L> {
    type K = MemShelf;

    type L = L;

    ghost told = { λ h. tells h };

    ghost counts = { λ h. h.counts };

    fn prepare(&mut self, place: &Place) -> Result<(), AcceptEnd> {
        let _ = place;
        Ok(())
    }

    fn shelf(&mut self) -> Result<MemShelf, ShelfEnd> {
        let alloc = self.alloc;
        let found = mem::replace(&mut self.found, Vec::new(alloc));
        let failing = Vec::new(alloc);
        let spoilt = Vec::new(alloc);
        Ok(MemShelf::new(alloc, found, failing, spoilt))
    }

    fn accept(&mut self) -> Result<Option<Conn<MemShelf, L>>, AcceptEnd> {
        if is_failing(&mut self.calls, self.failing.as_slice()) {
            count(&mut self.accepting);
            return Err(AcceptEnd::Failed);
        }
        let Some(more) = self.out.checked_add(1) else {
            return Err(AcceptEnd::OutOfMemory);
        };
        if self.ended.reserve(more).is_err() {
            return Err(AcceptEnd::OutOfMemory);
        }
        match first_of(&mut self.left) {
            Some(conn) => {
                self.out = more;
                Ok(Some(conn))
            }
            None => Ok(None),
        }
    }

    fn print(&mut self, line: &[u8]) -> Result<(), AcceptEnd> {
        if is_failing(&mut self.calls, self.failing.as_slice()) {
            count(&mut self.printing);
            return Err(AcceptEnd::Failed);
        }
        match self.printed.extend_from_slice(line) {
            Ok(()) => Ok(()),
            Err(_) => Err(AcceptEnd::OutOfMemory),
        }
    }

    fn keep(&mut self, order: &Digests) -> Result<(), ShelfEnd> {
        if is_failing(&mut self.calls, self.failing.as_slice()) {
            count(&mut self.keeping);
            return Err(ShelfEnd::Failed);
        }
        match Digests::copy_of(self.alloc, order.as_slice()) {
            Ok(order) => {
                self.kept = Some(order);
                Ok(())
            }
            Err(_) => Err(ShelfEnd::OutOfMemory),
        }
    }

    fn ended(&mut self, conn: Conn<MemShelf, L>, report: ConnReport)
        requires { 0 < self.old.out }
        ensures ended { tells self.new ≡ handing conn report (tells self.old) }
        ensures later { NoneFell self.old.counts self.new.counts }
    {
        self.ended.push_reserved(Ended { conn, report });
        self.out -= 1;
    }

    ghost tells_saved = { λ h is. is };
}
