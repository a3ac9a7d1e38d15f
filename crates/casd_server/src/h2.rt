//! Serving one connection of HTTP/2: a source has the bytes of the client, and a sink takes those of the server.

ghost use Rattle.std.specs.Prelude.{◌≡◌, ◌≢◌, ◌≤◌, IfOk};
ghost use Rattle.casd_base.specs.Causes.{Rose};
ghost use Rattle.store_core.specs.State.{new_state};
ghost use Rattle.store_core.specs.declared.state.Guard.TheVariants as guards;
ghost use Rattle.blob_store.specs.Benched.{new_bench};
ghost use Rattle.casd_server.specs.Replay.{default_low, default_high};
ghost use Rattle.casd_server.specs.H2.{ServesH2, status_of as status_of_end};

use crate::link::JoinedLink;
use crate::marks::DEFAULT_MARKS;
use blob_store::{Bench, MemShelf, Store};
use casd_base::{Sink, Source};
use casd_connection::{ConnEnd, serve_connection};
use core::mem::replace_with;
use proto_wire::OutOfMemory;
use std::alloc::Global;

/// The status of the process at the end of a connection.
fn status_of(end: ConnEnd) -> u8
    ensures { result ≡ status_of_end end }
{
    match end {
        ConnEnd::Done => 0,
        ConnEnd::Truncated { .. } | ConnEnd::Protocol { .. } => 3,
        ConnEnd::ReadFault => 4,
        ConnEnd::WriteFault => 5,
        ConnEnd::OutOfMemory => 6,
        ConnEnd::Spent => 7,
    }
}

/// A bench of one seat over a new store.
fn bench(alloc: Global) -> Result<Bench<MemShelf>, OutOfMemory>
    ensures { IfOk result (λ b. b ≡ new_bench (new_state default_low default_high guards.Leases) 1) }
{
    let store = Store::new(alloc, DEFAULT_MARKS)?;
    Bench::new(alloc, store, 1)
}

/// Serves a connection over a new store, and gives back the sink and the source, with the status.
fn serve<S: Source, W: Sink>(sink: W, rest: (S, Global)) -> (W, (S, u8))
    ensures { ServesH2 result.1.1 (S.left rest.0) (S.left result.1.0) (W.written sink) (W.written result.0) (S.read_faults rest.0) (S.read_faults result.1.0) (W.write_faults sink) (W.write_faults result.0) }
{
    let (source, alloc) = rest;
    let Ok(mut bench) = bench(alloc) else {
        return (sink, (source, status_of(ConnEnd::OutOfMemory)));
    };
    let mut shelf = MemShelf::new(alloc, Vec::new(alloc), Vec::new(alloc), Vec::new(alloc));
    let mut link = JoinedLink::new(source, sink);
    let report = serve_connection(alloc, &mut bench, &mut shelf, &mut link);
    let (source, sink) = link.into_parts();
    (sink, (source, status_of(report.end)))
}

/// The same with a sink that is lent.
fn serve_into<'a, S: Source, W: Sink>(source: S, rest: (&'a mut W, Global)) -> (S, (&'a mut W, u8))
    ensures same_reference { result.1.0.ghost_name ≡ rest.entry.0.ghost_name }
    ensures serves { ServesH2 result.1.1 (S.left source) (S.left result.0) (W.written rest.entry.0.now) (W.written result.1.0.now) (S.read_faults source) (S.read_faults result.0) (W.write_faults rest.entry.0.now) (W.write_faults result.1.0.now) }
{
    let (sink, alloc) = rest;
    let (source, status) = replace_with(&mut *sink, (source, alloc), serve);
    (source, (sink, status))
}

/// The same with a source that is lent, too. A link over references would lose them: no contract of a call that is given
/// any link says that the references in it are still the same.
fn serve_between<'a, S: Source, W: Sink>(
    alloc: Global,
    source: &mut S,
    sink: &'a mut W,
) -> (&'a mut W, u8)
    ensures same_reference { result.0.ghost_name ≡ sink.entry.ghost_name }
    ensures serves { ServesH2 result.1 (S.left source.old) (S.left source.new) (W.written sink.entry.now) (W.written result.0.now) (S.read_faults source.old) (S.read_faults source.new) (W.write_faults sink.entry.now) (W.write_faults result.0.now) }
{
    replace_with(source, (sink, alloc), serve_into)
}

/// Serves one connection over a new store, and answers the status of the process.
pub(crate) fn replay_h2<S: Source, W: Sink>(alloc: Global, source: &mut S, sink: &mut W) -> u8
    ensures serves { ServesH2 result (S.left source.old) (S.left source.new) (W.written sink.old) (W.written sink.new) (S.read_faults source.old) (S.read_faults source.new) (W.write_faults sink.old) (W.write_faults sink.new) }
    ensures words { result ≢ 2 }
    ensures read_fault { result ≡ 4 → Rose (S.read_faults source.old) (S.read_faults source.new) }
    ensures write_fault { result ≡ 5 → Rose (W.write_faults sink.old) (W.write_faults sink.new) }
    ensures reads_later { S.read_faults source.old ≤ S.read_faults source.new }
    ensures writes_later { W.write_faults sink.old ≤ W.write_faults sink.new }
{
    let served = serve_between(alloc, source, sink);
    served.1
}
