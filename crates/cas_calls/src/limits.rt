//! What the calls on many blobs take.

ghost use Rattle.std.specs.Prelude.{◌≡◌};
ghost use Rattle.cas_calls.specs.Limits.{is_sha256, is_plain, max_batch};

/// How many bytes of data a batch has at most.
pub(crate) const MAX_BATCH: u64 = 3_670_016;

/// Whether the digest function of a request is SHA-256 or isn't named.
pub(crate) fn is_sha256(digest_function: &i32) -> bool
    ensures { result ≡ is_sha256 digest_function.now }
{
    digest_function.cast_unsigned() <= 1
}

/// Whether data comes without a compressor.
pub(crate) fn is_plain(compressor: &i32) -> bool
    ensures { result ≡ is_plain compressor.now }
{
    compressor.cast_unsigned() == 0
}
