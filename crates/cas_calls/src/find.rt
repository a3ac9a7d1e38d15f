//! FindMissingBlobs.

ghost use Rattle.std.specs.Prelude.{◌≡◌, ◌≤◌, ◌+◌, ◌*◌, ◌^◌, true, length, IfErr};
ghost use Rattle.cas_calls.specs.Plays.{Plays};
ghost use Rattle.blob_store.specs.Shelves.{Shelved};
ghost use Rattle.cas_calls.specs.Find.{find_view, find_script, answered};

use crate::limits::is_sha256;
use crate::status::{other_function, out_of_memory};
use blob_store::{Door, Shelf};
use cas_messages::{FindMissingBlobsRequest, FindMissingBlobsResponse};
use casd_base::Status;
use proto_wire::OutOfMemory;

/// The digests of a request that have no sound blob, each once, in the order of their first mention. The call is refused with
/// UNIMPLEMENTED, before its entry, for another digest function than SHA-256, and with ABORTED where memory is wanting.
///
/// The door is entered, and may take 2^22 turns and four for each digest.
pub fn find_missing<K: Shelf, D: Door<K>>(
    door: &mut D,
    request: &FindMissingBlobsRequest,
) -> Result<FindMissingBlobsResponse, Status>
    requires is_in { (D.view door.old).entered ≡ true }
    requires turns { 2 ^ 22 + 4 * length request.now.blob_digests ≤ (D.view door.old).left }
    ensures plays { (x : Shelved) → Plays (find_script (find_view request.now)) (D.view door.old) (D.view door.new) x x 1 (answered result) }
    ensures short { IfErr result (λ status. length status.text ≤ 32) }
{
    let _turns = door.left();
    if !is_sha256(&request.digest_function) {
        return Err(other_function());
    }
    match door.find(&request.blob_digests) {
        Ok(missing) => Ok(FindMissingBlobsResponse {
            missing_blob_digests: missing,
        }),
        Err(OutOfMemory) => Err(out_of_memory()),
    }
}
