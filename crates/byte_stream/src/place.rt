//! `Place`.

ghost use Rattle.std.specs.Prelude.{◌≡◌, IfOk};
ghost use Rattle.byte_stream.specs.Places.{natural, stop_of, ranged, limited, place_of, piece_end, IsRange};

use crate::names::read_name;
use crate::status::{bad_limit, outside};
use cas_messages::ReadRequest;
use casd_base::Status;
use digest_types::Digest;

/// How far a Read has come, in bytes of the blob: how many were read, which is the next to be sent, and where the range ends.
#[derive(Clone, Copy, Debug, PartialEq, Eq)]
pub struct Place {
    pub digest: Digest,
    pub read: u64,
    pub next: u64,
    pub stop: u64,
}

fn natural(n: &i64) -> Option<u64>
    ensures { result ≡ natural n.now }
{
    if *n < 0 {
        return None;
    }
    Some(*n as u64)
}

fn stop_of(from: u64, limit: u64, size: u64) -> u64
    ensures { result ≡ stop_of from limit size }
{
    if limit == 0 {
        return size;
    }
    from.saturating_add(limit).min(size)
}

/// The range of a blob from an offset on.
fn ranged(digest: Digest, limit: u64, offset: &i64) -> Result<Place, Status>
    ensures { result ≡ ranged digest limit (natural offset.now) }
{
    let Some(from) = natural(offset) else {
        return Err(outside());
    };
    if from > digest.size {
        return Err(outside());
    }
    Ok(Place {
        digest,
        read: 0,
        next: from,
        stop: stop_of(from, limit, digest.size),
    })
}

/// Where a Read begins.
pub(crate) fn place_of(request: &ReadRequest) -> Result<Place, Status>
    ensures value { result ≡ place_of request.now }
    ensures range { IfOk result IsRange }
{
    let digest = match read_name(request.resource_name.as_str()) {
        Ok(digest) => digest,
        Err(status) => return Err(status),
    };
    match natural(&request.read_limit) {
        Some(limit) => ranged(digest, limit, &request.read_offset),
        None => Err(bad_limit()),
    }
}
