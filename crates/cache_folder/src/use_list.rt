//! The list of use: the digests of a store in the order of their use, as a text.

ghost use Rattle.std.specs.Prelude.{◌≡◌, ◌≢◌, ◌++◌, ◌∷◌, ◌↔◌, ◌==◌, [], ℕ, List, position, string_bytes, IsTrue, Some, IfOk, IfSome, IfNone, OnOk};
ghost use Rattle.digest_types.specs.Name.{HashAndSize};
ghost use Rattle.digest_types.specs.Digest.{IsDigest, printed};
ghost use Rattle.store_core.specs.State.{DistinctDigests};
ghost use Rattle.cache_folder.specs.UseList.{line, last_line, use_list, IsUseText};

use digest_types::{Digest, Digests};
use indexmap::IndexSet;
use proto_wire::{Bytes, OutOfMemory};
use std::alloc::Global;
use std::str;

/// The first line of the text, which names its form.
const FIRST_LINE: &[u8] = b"casd 2\n";

/// The text of a list of use: the line `casd 2`, a line for each digest as `Digest::print` writes it, the least recent
/// first, and the line `end N` with the number of digests.
pub fn use_text(alloc: Global, order: &Digests) -> Result<Bytes, OutOfMemory>
    requires { DistinctDigests order.now }
    ensures { IfOk result (λ text. text ≡ use_list order.now) }
{
    let mut text = Bytes::copy_of(alloc, FIRST_LINE)?;
    for digest in order.as_slice() {
        push_line(alloc, &mut text, digest)?;
    }
    let end = end_of(alloc, order.len())?;
    text.push_slice(end.as_bytes())?;
    Ok(text)
}

/// The list whose text this is, or `None` exactly if it is no list's.
pub fn read_use(alloc: Global, text: &[u8]) -> Result<Option<Digests>, OutOfMemory>
    ensures { IfOk result (λ found. (order : List HashAndSize) → (found ≡ Some order) ↔ IsUseText order text.now) }
{
    let Some(lines) = text.strip_prefix(FIRST_LINE) else {
        return Ok(None);
    };
    let mut order: IndexSet<Digest> = IndexSet::new(alloc);
    let mut rest = lines;
    'lines: while let Some(found) = next_digest(rest) {
        if !order.insert(found.0)? {
            return Ok(None);
        }
        rest = found.1;
    }
    if !is_end(alloc, rest, order.len())? {
        return Ok(None);
    }
    Ok(Some(Digests::copy_of(alloc, order.as_slice())?))
}

// Adds the line of a digest.
fn push_line(alloc: Global, text: &mut Bytes, digest: &Digest) -> Result<(), OutOfMemory>
    ensures { OnOk result (text.new ≡ text.old ++ line digest.now) }
{
    text.push_slice(digest.print(alloc)?.as_str().as_bytes())?;
    text.push(b'\n')
}

// The last line of the text of so many digests.
fn end_of(alloc: Global, count: usize) -> Result<String, OutOfMemory>
    ensures { IfOk result (λ text. string_bytes text ≡ last_line count) }
{
    Ok(format!(in alloc; "end {count}\n")?)
}

// Whether this is the last line of the text of so many digests.
fn is_end(alloc: Global, text: &[u8], count: usize) -> Result<bool, OutOfMemory>
    ensures { IfOk result (λ is. IsTrue is ↔ (text.now ≡ last_line count)) }
{
    let end = end_of(alloc, count)?;
    Ok(text == end.as_bytes())
}

// The digest whose line the text begins with, and what follows that line. It takes no memory.
fn next_digest(text: &[u8]) -> Option<(Digest, &[u8])>
    ensures some { IfSome result (λ found. IsDigest found.0 × (text.now ≡ line found.0 ++ found.1.now)) }
    ensures none { IfNone result ((d : HashAndSize) (rest : List ℕ) → IsDigest d → text.now ≢ line d ++ rest) }
{
    let Some(end) = first_newline(text) else {
        return None;
    };
    let Some(digest) = digest_in(&text[..end]) else {
        return None;
    };
    Some((digest, &text[end + 1..]))
}

// Where the first newline stands, if there is one.
fn first_newline(text: &[u8]) -> Option<usize>
    ensures { result ≡ position (λ c. c == 10) text.now }
{
    text.iter().position(|byte| *byte == b'\n')
}

// The digest that the text spells. It takes no memory.
fn digest_in(text: &[u8]) -> Option<Digest>
    ensures some { IfSome result (λ d. IsDigest d × (text.now ≡ printed d)) }
    ensures none { IfNone result ((d : HashAndSize) → IsDigest d → text.now ≢ printed d) }
{
    let Ok(text) = str::from_utf8(text) else {
        return None;
    };
    Digest::parse(text).ok()
}
