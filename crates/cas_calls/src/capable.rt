//! GetCapabilities.

ghost use Rattle.std.specs.Prelude.{◌≡◌, IfOk, IfErr};
ghost use Rattle.cas_messages.specs.Table.{Value};
ghost use Rattle.cas_calls.specs.Capable.{capable};
ghost use Rattle.cas_calls.specs.Statuses.{out_of_memory};

use crate::limits::MAX_BATCH;
use crate::status::out_of_memory;
use cas_messages::{
    CacheCapabilities, GetCapabilitiesRequest, Message, SemVer, ServerCapabilities,
};
use casd_base::Status;
use proto_wire::Listed;
use std::alloc::Global;

/// SHA256 of the enum DigestFunction.
const SHA256: i32 = 1;

/// ALLOWED of the enum SymlinkAbsolutePathStrategy.
const ALLOWED: i32 = 2;

/// What the server supports, which no request changes. It is refused with ABORTED where memory is wanting.
pub fn capabilities(
    alloc: Global,
    _request: &GetCapabilitiesRequest,
) -> Result<ServerCapabilities, Status>
    ensures ok { IfOk result (λ c. ⟦<ServerCapabilities as Message>⟧.value c ≡ capable) }
    ensures err { IfErr result (λ status. status ≡ out_of_memory) }
{
    let mut digest_functions = Vec::new(alloc);
    if digest_functions.push(SHA256).is_err() {
        return Err(out_of_memory());
    }
    Ok(ServerCapabilities {
        cache_capabilities: CacheCapabilities {
            digest_functions: Listed::from_vec(digest_functions),
            max_batch_total_size_bytes: MAX_BATCH as i64,
            symlink_absolute_path_strategy: ALLOWED,
        },
        low_api_version: SemVer {
            major: 2,
            minor: 0,
            patch: 0,
        },
        high_api_version: SemVer {
            major: 2,
            minor: 3,
            patch: 0,
        },
    })
}
