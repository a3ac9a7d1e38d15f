//! The statuses that calls answer.

ghost use Rattle.std.specs.Prelude.{◌≡◌, ◌≤◌, ◌++◌, codes, length, IfOk};
ghost use Rattle.digest_types.specs.Digest.{printed};
ghost use Rattle.blob_store.specs.Calls.{put_reply};
ghost use Rattle.cas_calls.specs.Statuses.{rpc_of, fine, no_message, many_messages, not_built, other_function, compressed, batch_too_large, out_of_memory, store_fault, fault_status, mismatch, not_here, damaged, put_status};

use blob_store::PutReply;
use cas_messages::{MessageError, RpcStatus};
use casd_base::{Code, Status};
use digest_types::Digest;
use proto_wire::{OutOfMemory, Text};
use std::alloc::Global;

fn short(code: Code, text: &str) -> Status
    requires { length text.now ≤ 32 }
    ensures { result ≡ record { code = code; text = text.now } }
{
    Status {
        code,
        text: Text::short(text),
    }
}

/// A call that takes one message got none. It takes no memory, as all of these.
pub fn no_message() -> Status
    ensures { result ≡ no_message }
{
    short(Code::InvalidArgument, "no message")
}

/// A call that takes one message got more.
pub fn many_messages() -> Status
    ensures { result ≡ many_messages }
{
    short(Code::InvalidArgument, "more than one message")
}

/// What was asked for isn't built.
pub fn not_built() -> Status
    ensures { result ≡ not_built }
{
    short(Code::Unimplemented, "not built")
}

/// Another digest function than SHA-256 is named.
pub(crate) fn other_function() -> Status
    ensures { result ≡ other_function }
{
    short(Code::Unimplemented, "digest function")
}

/// Data comes with a compressor.
pub(crate) fn compressed() -> Status
    ensures { result ≡ compressed }
{
    short(Code::Unimplemented, "compressor")
}

/// The data of a batch passes its limit.
pub(crate) fn batch_too_large() -> Status
    ensures { result ≡ batch_too_large }
{
    short(Code::InvalidArgument, "batch too large")
}

/// All went well.
pub(crate) fn fine() -> Status
    ensures { result ≡ fine }
{
    Status {
        code: Code::Ok,
        text: Text::empty(),
    }
}

/// Memory was wanting.
pub fn out_of_memory() -> Status
    ensures { result ≡ out_of_memory }
{
    short(Code::Aborted, "out of memory")
}

/// The shelf failed.
pub(crate) fn store_fault() -> Status
    ensures { result ≡ store_fault }
{
    short(Code::Internal, "store fault")
}

/// The status of a request that was not read.
pub fn fault_status(fault: &MessageError) -> Status
    ensures { result ≡ fault_status fault.now }
{
    match fault {
        MessageError::Wire { .. } | MessageError::NotUtf8 { .. } => {
            short(Code::InvalidArgument, "bad message")
        }
        MessageError::BadDigest { .. } => short(Code::InvalidArgument, "bad digest"),
        MessageError::OutOfMemory => out_of_memory(),
    }
}

/// Both digests, where bytes have another one than their own.
fn differing(alloc: Global, want: &Digest, got: &Digest) -> Result<Text, OutOfMemory>
    ensures { IfOk result (λ t. t ≡ codes "want " ++ (printed want.now ++ (codes ", got " ++ printed got.now))) }
{
    let want = want.print(alloc)?;
    let got = got.print(alloc)?;
    let mut text = String::new(alloc);
    text.push_str("want ")?;
    text.push_str(want.as_str())?;
    text.push_str(", got ")?;
    text.push_str(got.as_str())?;
    Ok(Text::from_string(text))
}

/// The status of bytes that have another digest than the declared one.
pub(crate) fn mismatch(alloc: Global, want: &Digest, got: &Digest) -> Result<Status, OutOfMemory>
    ensures { IfOk result (λ s. s ≡ mismatch want.now got.now) }
{
    Ok(Status {
        code: Code::InvalidArgument,
        text: differing(alloc, want, got)?,
    })
}

/// The status of a body whose bytes have another digest than its own.
pub(crate) fn damaged(alloc: Global, want: &Digest, got: &Digest) -> Result<Status, OutOfMemory>
    ensures { IfOk result (λ s. s ≡ damaged want.now got.now) }
{
    Ok(Status {
        code: Code::DataLoss,
        text: differing(alloc, want, got)?,
    })
}

/// There is no sound blob of a digest.
pub(crate) fn not_here(alloc: Global, digest: &Digest) -> Result<Status, OutOfMemory>
    ensures { IfOk result (λ s. s ≡ not_here digest.now) }
{
    let digest = digest.print(alloc)?;
    let mut text = String::new(alloc);
    text.push_str("not here ")?;
    text.push_str(digest.as_str())?;
    Ok(Status {
        code: Code::NotFound,
        text: Text::from_string(text),
    })
}

/// The status of a put.
#[tactic(auto, unfolding(crate::specs::Statuses::put_status))]
pub(crate) fn put_status(alloc: Global, answer: &PutReply) -> Result<Status, OutOfMemory>
    ensures { IfOk result (λ s. s ≡ put_status (put_reply answer.now)) }
{
    match answer {
        PutReply::Stored { .. } | PutReply::Present | PutReply::Repaired => Ok(fine()),
        PutReply::NoSpace {
            guarded,
            size,
            high,
        } => {
            let text = format!(in alloc; "guarded {guarded} plus {size} above {high}")?;
            Ok(Status {
                code: Code::ResourceExhausted,
                text: Text::from_string(text),
            })
        }
    }
}

/// A status as it stands in a message.
pub(crate) fn rpc_status(status: Status) -> RpcStatus
    ensures { result ≡ rpc_of status }
{
    let Status { code, text } = status;
    RpcStatus {
        code: i32::from(code.number()),
        message: text,
    }
}
