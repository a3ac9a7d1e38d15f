//! QueryWriteStatus.

ghost use Rattle.std.specs.Prelude.{◌≡◌, ◌<◌, true, Ok};
ghost use Rattle.blob_store.specs.Shelves.{Shelved};
ghost use Rattle.cas_calls.specs.Plays.{IsIn, Plays};
ghost use Rattle.byte_stream.specs.Query.{named_script, query_script, complete};

use crate::here::{absent, is_here};
use crate::names::write_name;
use blob_store::{Door, Shelf};
use cas_calls::out_of_memory;
use cas_messages::{QueryWriteStatusRequest, QueryWriteStatusResponse};
use casd_base::Status;
use digest_types::Digest;
use proto_wire::OutOfMemory;
use std::alloc::Global;

fn complete(digest: &Digest) -> QueryWriteStatusResponse
    ensures { result ≡ complete digest.now }
{
    QueryWriteStatusResponse {
        committed_size: digest.size as i64,
        complete: true,
    }
}

/// How much of a blob was written.
fn look<K: Shelf, D: Door<K>>(
    alloc: Global,
    door: &mut D,
    digest: &Digest,
) -> Result<QueryWriteStatusResponse, Status>
    requires is_in { IsIn (D.view door.old) }
    requires turn { 0 < (D.view door.old).left }
    ensures { (x : Shelved) → Plays (named_script (Ok digest.now)) (D.view door.old) (D.view door.new) x x 1 result }
{
    match is_here::<K, D>(alloc, door, digest) {
        Ok(true) => Ok(complete(digest)),
        Ok(false) => Err(absent(alloc, digest)),
        Err(OutOfMemory) => Err(out_of_memory()),
    }
}

/// How much of the blob that a name to write to names was written: all of it, where the store has a sound blob of the digest.
/// The call is refused with NOT_FOUND where it hasn't; as `write_name` refuses, before any entry; and with ABORTED where
/// memory is wanting.
///
/// The door is entered, and may take a turn.
pub fn query<K: Shelf, D: Door<K>>(
    alloc: Global,
    door: &mut D,
    request: &QueryWriteStatusRequest,
) -> Result<QueryWriteStatusResponse, Status>
    requires is_in { (D.view door.old).entered ≡ true }
    requires turn { 0 < (D.view door.old).left }
    ensures { (x : Shelved) → Plays (query_script request.now.resource_name) (D.view door.old) (D.view door.new) x x 1 result }
{
    let _turns = door.left();
    match write_name(request.resource_name.as_str()) {
        Ok(digest) => look::<K, D>(alloc, door, &digest),
        Err(status) => Err(status),
    }
}
