//! Reading the text of a digest. No call takes memory.

ghost use Rattle.std.specs.Prelude.{◌≡◌, IfOk};
ghost use Rattle.std.specs.List.{list_all};
ghost use Rattle.std.specs.Option.{option_map};
ghost use Rattle.digest_types.specs.Digest.{IsDigest, printed};
ghost use Rattle.digest_types.specs.Parsing.{before_slash, after_slash, is_digit, is_decimal, size_of, parsed};

use crate::digest::Digest;
use crate::error::DigestError;
use crate::lower_hex::hash_in;

/// The largest size of a blob, 2^63 - 1 bytes.
const MAX_SIZE: u64 = 0x7fff_ffff_ffff_ffff;

impl Digest {
    /// The digest that `print` writes as this text. The hash is what stands before the first slash, or the whole
    /// text if it has none.
    #[tactic(auto, unfolding(crate::specs::Parsing::parsed))]
    pub fn parse(text: &str) -> Result<Digest, DigestError>
        ensures value { result ≡ parsed text.now }
        ensures is { IfOk result IsDigest }
        // Only the text that `print` writes is taken.
        ensures printed { IfOk result (λ d. printed d ≡ text.now) }
    {
        let (hash, size) = parts(text);
        let Some(hash) = hash_in(hash.as_bytes()) else {
            return Err(DigestError::BadHash);
        };
        let Some(size) = size else {
            return Err(DigestError::BadSize);
        };
        let Some(size) = size_in(size) else {
            return Err(DigestError::BadSize);
        };
        Ok(Digest { hash, size })
    }
}

/// What stands before the first slash, or the whole text if it has none, and what follows the slash.
fn parts(text: &str) -> (&str, Option<&str>)
    ensures hash { result.0.now ≡ before_slash text.now }
    ensures size { option_map (λ t. t.now) result.1 ≡ after_slash text.now }
{
    match text.split_once('/') {
        Some((hash, size)) => (hash, Some(size)),
        None => (text, None),
    }
}

/// The number of at most 2^63 - 1 that a decimal text without sign and leading zeros stands for.
#[tactic(auto, unfolding(crate::specs::Parsing::size_of))]
fn size_in(text: &str) -> Option<u64>
    ensures { result ≡ size_of text.now }
{
    if !is_number(text.as_bytes()) {
        return None;
    }
    let Ok(size) = text.parse::<u64>() else {
        return None;
    };
    if size > MAX_SIZE {
        return None;
    }
    Some(size)
}

#[tactic(auto, using(crate::proofs::Decimals::one_digit, crate::proofs::Decimals::no_zero_first))]
fn is_number(text: &[u8]) -> bool
    ensures { result ≡ is_decimal text.now }
{
    if text.is_empty() {
        return false;
    }
    if text.len() > 1 && text[0] == b'0' {
        return false;
    }
    are_digits(text)
}

fn are_digits(text: &[u8]) -> bool
    ensures { result ≡ list_all is_digit text.now }
{
    text.iter().all(|c| b'0' <= *c && *c <= b'9')
}
