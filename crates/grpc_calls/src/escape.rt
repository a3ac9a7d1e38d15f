//! The text of a status as the value of a header.

ghost use Rattle.std.specs.Prelude.{◌≡◌, ◌≤◌, ◌*◌, length, IfOk, string_bytes, string_len};
ghost use Rattle.grpc_calls.specs.Escape.{escaped, unescaped};

use percent_encoding::{CONTROLS, percent_decode, percent_encode};
use proto_wire::{OutOfMemory, Text};
use std::alloc::Global;

/// The text with every byte escaped but printable ASCII without `%`.
pub fn escaped(alloc: Global, text: &str) -> Result<String, OutOfMemory>
    ensures value { IfOk result (λ s. string_bytes s ≡ escaped text.now) }
    ensures size { IfOk result (λ s. length (string_bytes s) ≤ 3 * length text.now) }
{
    let mut out = String::new(alloc);
    percent_encode(text.as_bytes(), CONTROLS.add(b'%')).append_to(&mut out)?;
    Ok(out)
}

/// The text of a value. An escape that isn't one stays as it is, and what isn't UTF-8 becomes U+FFFD.
pub fn unescaped(alloc: Global, value: &[u8]) -> Result<Text, OutOfMemory>
    ensures { IfOk result (λ t. t ≡ unescaped value.now) }
{
    let mut bytes = Vec::new(alloc);
    percent_decode(value).append_to(&mut bytes)?;
    let text = String::from_utf8_lossy(alloc, &bytes)?;
    Ok(Text::from_string(text))
}
