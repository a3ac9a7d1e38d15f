//! Lower-case hex.

ghost use Rattle.std.specs.Prelude.{◌≡◌, IfOk};
ghost use Rattle.std.specs.List.{list_all};
ghost use Rattle.std.specs.Option.{option_map};
ghost use Rattle.digest_types.specs.Hex.{unhex_of, is_lower_digit};
ghost use Rattle.digest_types.specs.Reading.{hash_of};

use hex::{FromHex, FromHexError};
use proto_wire::OutOfMemory;
use std::alloc::Global;

fn is_lower(text: &[u8]) -> bool
    ensures { result ≡ list_all is_lower_digit text.now }
{
    text.iter()
        .all(|c| b'0' <= *c && *c <= b'9' || b'a' <= *c && *c <= b'f')
}

/// The bytes that the text spells in lower-case hex, or None if it is malformed.
#[tactic(auto, unfolding(crate::specs::Hex::unhex_of))]
pub fn unhex(alloc: Global, text: &[u8]) -> Result<Option<Vec<u8>>, OutOfMemory>
    ensures { IfOk result (λ o. option_map (λ v. v.items) o ≡ unhex_of text.now) }
{
    if !is_lower(text) {
        return Ok(None);
    }
    match hex::decode(alloc, text) {
        Ok(bytes) => Ok(Some(bytes)),
        Err(FromHexError::OutOfMemory) => Err(OutOfMemory),
        Err(_) => Ok(None),
    }
}

/// The hash that a text of 64 digits of lower-case hex spells. It takes no memory.
#[tactic(auto, unfolding(crate::specs::Hex::unhex_of, crate::specs::Reading::hash_of))]
pub(crate) fn hash_in(text: &[u8]) -> Option<[u8; 32]>
    ensures { result ≡ hash_of text.now }
{
    if text.len() != 64 || !is_lower(text) {
        return None;
    }
    <[u8; 32] as FromHex>::from_hex(text).ok()
}
