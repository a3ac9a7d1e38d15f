//! The statuses that the calls answer.

ghost use Rattle.std.specs.Prelude.{◌≡◌, ◌≤◌, ◌++◌, codes, length, IfOk};
ghost use Rattle.digest_types.specs.Digest.{printed};
ghost use Rattle.cas_calls.specs.Statuses.{compressed, not_here, store_fault, damaged, mismatch};
ghost use Rattle.byte_stream.specs.Statuses.{bad_name, bad_limit, outside, bad_offset, too_much, unfinished};

use casd_base::{Code, Status};
use digest_types::Digest;
use proto_wire::{OutOfMemory, Text};
use std::alloc::Global;

fn short(code: Code, text: &str) -> Status
    requires { length text.now ≤ 32 }
    ensures { result ≡ record { code = code; text = text.now } }
{
    Status {
        code,
        text: Text::short(text),
    }
}

/// A name names no blob, or another one than before. It takes no memory, as all that have a constant text.
pub(crate) fn bad_name() -> Status
    ensures { result ≡ bad_name }
{
    short(Code::InvalidArgument, "bad name")
}

/// A blob is asked for in a compressed form.
pub(crate) fn compressed() -> Status
    ensures { result ≡ compressed }
{
    short(Code::Unimplemented, "compressor")
}

/// The limit of a Read is negative.
pub(crate) fn bad_limit() -> Status
    ensures { result ≡ bad_limit }
{
    short(Code::InvalidArgument, "bad limit")
}

/// A Read begins outside the blob.
pub(crate) fn outside() -> Status
    ensures { result ≡ outside }
{
    short(Code::OutOfRange, "bad offset")
}

/// A Write doesn't go on where it was.
pub(crate) fn bad_offset() -> Status
    ensures { result ≡ bad_offset }
{
    short(Code::InvalidArgument, "bad offset")
}

/// A Write has more bytes than its blob.
pub(crate) fn too_much() -> Status
    ensures { result ≡ too_much }
{
    short(Code::InvalidArgument, "too much data")
}

/// A Write ended before its blob was whole.
pub(crate) fn unfinished() -> Status
    ensures { result ≡ unfinished }
{
    short(Code::InvalidArgument, "upload not finished")
}

/// The shelf failed.
pub(crate) fn store_fault() -> Status
    ensures { result ≡ store_fault }
{
    short(Code::Internal, "store fault")
}

/// Both digests, where bytes have another one than their own.
fn differing(alloc: Global, want: &Digest, got: &Digest) -> Result<Text, OutOfMemory>
    ensures { IfOk result (λ t. t ≡ codes "want " ++ (printed want.now ++ (codes ", got " ++ printed got.now))) }
{
    let want = want.print(alloc)?;
    let got = got.print(alloc)?;
    let mut text = String::new(alloc);
    text.push_str("want ")?;
    text.push_str(want.as_str())?;
    text.push_str(", got ")?;
    text.push_str(got.as_str())?;
    Ok(Text::from_string(text))
}

/// The status of a body whose bytes have another digest than its own.
pub(crate) fn damaged(alloc: Global, want: &Digest, got: &Digest) -> Result<Status, OutOfMemory>
    ensures { IfOk result (λ s. s ≡ damaged want.now got.now) }
{
    Ok(Status {
        code: Code::DataLoss,
        text: differing(alloc, want, got)?,
    })
}

/// The status of bytes that have another digest than the one of their name.
pub(crate) fn mismatch(alloc: Global, want: &Digest, got: &Digest) -> Result<Status, OutOfMemory>
    ensures { IfOk result (λ s. s ≡ mismatch want.now got.now) }
{
    Ok(Status {
        code: Code::InvalidArgument,
        text: differing(alloc, want, got)?,
    })
}

/// There is no sound blob of a digest.
pub(crate) fn not_here(alloc: Global, digest: &Digest) -> Result<Status, OutOfMemory>
    ensures { IfOk result (λ s. s ≡ not_here digest.now) }
{
    let digest = digest.print(alloc)?;
    let mut text = String::new(alloc);
    text.push_str("not here ")?;
    text.push_str(digest.as_str())?;
    Ok(Status {
        code: Code::NotFound,
        text: Text::from_string(text),
    })
}
