//! A connection that is served over a bench of one seat.

use blob_store::{Bench, Door, MemShelf, Store};
use casd_base::MemLink;
use casd_connection::{ConnReport, serve_connection};
use proto_wire::Bytes;
use std::alloc::Global;
use std::process::Abort;
use std::test::Fail;
use store_core::{Guard, Marks, Usage};

/// What a connection meets.
#[derive(Clone, Copy)]
pub(crate) struct Peer<'a> {
    /// What it sends.
    pub input: &'a [&'a [u8]],
    /// How many bytes a read gives at most.
    pub cuts: &'a [usize],
    /// Which calls of the link fail.
    pub link_faults: &'a [u64],
    /// Which calls of the shelf fail.
    pub shelf_faults: &'a [u64],
    /// Which drafts of the shelf become bodies that change.
    pub spoilt: &'a [u64],
    /// The high mark.
    pub high: u64,
}

impl<'a> Peer<'a> {
    /// A peer that sends these pieces, and no call of the outside fails.
    pub(crate) fn sending(input: &'a [&'a [u8]]) -> Peer<'a> {
        Peer {
            input,
            cuts: &[],
            link_faults: &[],
            shelf_faults: &[],
            spoilt: &[],
            high: 1000,
        }
    }
}

/// What a connection left.
#[derive(Drop)]
pub(crate) struct Served {
    pub report: ConnReport,
    pub written: Bytes,
    pub usage: Usage,
}

/// The pieces, one after another.
pub(crate) fn joined(alloc: Global, pieces: &[&[u8]]) -> Result<Vec<u8>, Fail> {
    let mut bytes = Vec::new(alloc);
    'pieces: for piece in pieces {
        bytes.extend_from_slice(piece)?;
    }
    Ok(bytes)
}

fn one_seat(rt: &impl Abort, alloc: Global, high: u64) -> Result<Bench<MemShelf>, Fail> {
    assert!(rt; high <= 1000);
    let marks = Marks {
        low: 0,
        high,
        guard: Guard::Leases,
    };
    let store = Store::new(alloc, marks)?;
    Ok(Bench::new(alloc, store, 1)?)
}

/// Serves a peer's connection.
pub(crate) fn serve(rt: &impl Abort, alloc: Global, peer: Peer<'_>) -> Result<Served, Fail> {
    let mut bench = one_seat(rt, alloc, peer.high)?;
    let faults = Vec::from_slice(alloc, peer.shelf_faults)?;
    let spoilt = Vec::from_slice(alloc, peer.spoilt)?;
    let mut shelf = MemShelf::new(alloc, Vec::new(alloc), faults, spoilt);
    let cuts = Vec::from_slice(alloc, peer.cuts)?;
    let faults = Vec::from_slice(alloc, peer.link_faults)?;
    let mut link = MemLink::new(alloc, joined(alloc, peer.input)?, cuts, faults);
    assert!(rt; !bench.is_entered());
    assert!(rt; bench.left() >= 1 << 41);
    let report = serve_connection(alloc, &mut bench, &mut shelf, &mut link);
    assert!(rt; !bench.is_entered());
    Ok(Served {
        report,
        written: Bytes::from_vec(Vec::from_slice(alloc, link.written())?),
        usage: bench.store_usage(),
    })
}
