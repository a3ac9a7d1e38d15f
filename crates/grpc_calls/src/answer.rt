//! The headers and messages that this end writes.

ghost use Rattle.std.specs.Prelude.{◌≡◌, ◌≤◌, ◌<◌, ◌++◌, ◌∷◌, ◌^◌, [], length, IfOk, OnOk};
ghost use Rattle.hpack_tables.specs.Table.{entry_of, list_size};
ghost use Rattle.h2_session.specs.Codes.{max_list};
ghost use Rattle.grpc_calls.specs.Framing.{framed};
ghost use Rattle.grpc_calls.specs.Headers.{refusal_headers, request_headers, answer_headers, message_header, trailers};

use crate::escape::escaped;
use crate::refusal::Refusal;
use casd_base::Status;
use hpack_tables::{Header, Headers};
use proto_wire::{Bytes, OutOfMemory};
use std::alloc::Global;

/// Adds a header.
fn push(alloc: Global, headers: &mut Headers, name: &str, value: &[u8]) -> Result<(), OutOfMemory>
    ensures { OnOk result (headers.new ≡ headers.old ++ entry_of name.now value.now ∷ []) }
{
    headers.push(Header {
        name: Bytes::copy_of(alloc, name.as_bytes())?,
        value: Bytes::copy_of(alloc, value)?,
    })
}

/// The answer to a request that is refused.
pub(crate) fn refusal_headers(alloc: Global, refusal: Refusal) -> Result<Headers, OutOfMemory>
    ensures value { IfOk result (λ headers. headers ≡ refusal_headers refusal) }
    ensures small { IfOk result (λ headers. list_size headers ≤ max_list) }
{
    let mut headers = Headers::new(alloc);
    push(alloc, &mut headers, ":status", refusal.text().as_bytes())?;
    Ok(headers)
}

/// The headers of an answer.
#[tactic(auto, unfolding(crate::specs::Headers::answer_headers))]
pub(crate) fn answer_headers(alloc: Global) -> Result<Headers, OutOfMemory>
    ensures value { IfOk result (λ headers. headers ≡ answer_headers) }
    ensures small { IfOk result (λ headers. list_size headers ≤ max_list) }
{
    let mut headers = Headers::new(alloc);
    push(alloc, &mut headers, ":status", b"200")?;
    push(alloc, &mut headers, "content-type", b"application/grpc")?;
    Ok(headers)
}

#[tactic(auto, unfolding(crate::specs::Headers::trailers))]
fn status_headers(alloc: Global, status: &Status) -> Result<Headers, OutOfMemory>
    ensures { IfOk result (λ headers. headers ≡ trailers status.now) }
{
    let number = status.code.number();
    let code = format!(in alloc; "{number}")?;
    let mut headers = Headers::new(alloc);
    push(alloc, &mut headers, "grpc-status", code.as_bytes())?;
    if !status.text.is_empty() {
        let text = escaped(alloc, status.text.as_str())?;
        push(alloc, &mut headers, "grpc-message", text.as_bytes())?;
    }
    Ok(headers)
}

/// The trailers of an answer.
pub(crate) fn trailers(alloc: Global, status: &Status) -> Result<Headers, OutOfMemory>
    requires { length status.now.text ≤ 4096 }
    ensures value { IfOk result (λ headers. headers ≡ trailers status.now) }
    ensures small { IfOk result (λ headers. list_size headers ≤ max_list) }
{
    status_headers(alloc, status)
}

/// The headers of a request.
#[tactic(auto, unfolding(crate::specs::Headers::request_headers))]
pub(crate) fn request_headers(alloc: Global, path: &str) -> Result<Headers, OutOfMemory>
    requires { length path.now ≤ 8192 }
    ensures value { IfOk result (λ headers. headers ≡ request_headers path.now) }
    ensures small { IfOk result (λ headers. list_size headers ≤ max_list) }
{
    let mut headers = Headers::new(alloc);
    push(alloc, &mut headers, ":method", b"POST")?;
    push(alloc, &mut headers, ":scheme", b"http")?;
    push(alloc, &mut headers, ":path", path.as_bytes())?;
    push(alloc, &mut headers, ":authority", b"localhost")?;
    push(alloc, &mut headers, "content-type", b"application/grpc")?;
    push(alloc, &mut headers, "te", b"trailers")?;
    Ok(headers)
}

/// A message with its flag and its length.
pub(crate) fn framed(alloc: Global, message: &[u8]) -> Result<Bytes, OutOfMemory>
    requires { length message.now < 2 ^ 32 }
    ensures { IfOk result (λ bytes. bytes ≡ framed message.now) }
{
    let mut bytes = Vec::with_capacity(alloc, message.len() + 5)?;
    bytes.push(0)?;
    bytes.extend_from_slice(&(message.len() as u32).to_be_bytes())?;
    bytes.extend_from_slice(message)?;
    Ok(Bytes::from_vec(bytes))
}
