//! String literals (RFC 7541, section 5.2).

ghost use Rattle.std.specs.Prelude.{◌≡◌, ◌++◌, OnOk};
ghost use Rattle.hpack_tables.specs.Encoding.{string_spelled};
ghost use Rattle.hpack_tables.specs.Reading.{Gives, is_coded as is_coded_string, string_at};

use crate::huffman::text_in;
use crate::integer::{int_in, push_int};
use crate::offence::Offence;
use proto_wire::{Bytes, OutOfMemory};
use std::alloc::Global;

/// Whether a string literal is coded, by the first bit of its first byte.
fn is_coded(bytes: &[u8]) -> bool
    ensures { result ≡ is_coded_string bytes.now }
{
    match bytes {
        [] => false,
        [b, ..] => *b > 127,
    }
}

/// A string literal, and the bytes after it. It takes memory only once all its bytes are there.
#[tactic(auto, unfolding(crate::specs::Reading::string_at))]
pub(crate) fn string_in(alloc: Global, bytes: &[u8]) -> Result<(Bytes, &[u8]), Offence>
    ensures { Gives (λ x. (x.0, x.1.now)) result (string_at bytes.now) }
{
    let (len, rest) = int_in(7, bytes)?;
    let len = len as usize;
    if rest.len() < len {
        return Err(Offence::Truncated);
    }
    let (front, rest) = rest.split_at(len);
    if !is_coded(bytes) {
        return Ok((Bytes::copy_of(alloc, front)?, rest));
    }
    match text_in(alloc, front)? {
        Some(text) => Ok((text, rest)),
        None => Err(Offence::Huffman),
    }
}

/// Appends a string literal without the code.
#[tactic(auto, unfolding(crate::specs::Encoding::string_spelled))]
pub(crate) fn push_string(out: &mut Vec<u8>, text: &[u8]) -> Result<(), OutOfMemory>
    ensures { OnOk result (out.new.items ≡ out.old.items ++ string_spelled text.now) }
{
    push_int(out, 7, 0, text.len() as u64)?;
    out.extend_from_slice(text)?;
    Ok(())
}
