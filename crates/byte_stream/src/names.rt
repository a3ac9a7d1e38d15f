//! The resource names of ByteStream. No call takes memory.

ghost use Rattle.std.specs.Prelude.{◌≡◌, ◌∷◌, ◌++◌, length, option_map, is_some, IfSome, IfNone};
ghost use Rattle.byte_stream.specs.Names.{segments, segments_behind, two_in, named, digest_in, whole_blob, first_blob, kind_in, upload_in, read_named, write_named};
ghost use Rattle.digest_types.specs.Parsing.{parsed};
ghost use Rattle.uuid.specs.Text.{parsed as parsed_uuid};

use crate::status::{bad_name, compressed};
use casd_base::Status;
use digest_types::Digest;
use uuid::Uuid;

/// The first segment of a text, and what stands behind its slash, if it has one.
fn first_segment(text: &str) -> (&str, Option<&str>)
    ensures segments { segments text.now ≡ result.0.now ∷ segments_behind (option_map (λ t. t.now) result.1) }
    ensures slash { IfSome result.1 (λ t. text.now ≡ result.0.now ++ 47 ∷ t.now) }
    ensures all { IfNone result.1 (text.now ≡ result.0.now) }
{
    match text.split_once('/') {
        Some((segment, behind)) => (segment, Some(behind)),
        None => (text, None),
    }
}

/// The first two segments of a text, with the slash between them, and whether others stand behind them.
fn first_two(text: &str) -> Option<(&str, bool)>
    ensures { option_map (λ two. (two.0.now, two.1)) result ≡ two_in (segments text.now) }
{
    let (first, behind) = first_segment(text);
    let Some(behind) = behind else {
        return None;
    };
    let (second, rest) = first_segment(behind);
    match rest {
        Some(_) => Some((&text[..first.len() + 1 + second.len()], true)),
        None => Some((text, false)),
    }
}

/// The digest of a hash and a size.
fn parse(text: &str) -> Result<Digest, Status>
    ensures { result ≡ named (parsed text.now) }
{
    match Digest::parse(text) {
        Ok(digest) => Ok(digest),
        Err(_) => Err(bad_name()),
    }
}

/// The digest behind `blobs/` in a name to read from.
fn whole_blob(text: Option<&str>) -> Result<Digest, Status>
    ensures { result ≡ whole_blob (segments_behind (option_map (λ t. t.now) text.entry)) }
{
    let Some(text) = text else {
        return Err(bad_name());
    };
    match first_two(text) {
        Some((blob, false)) => parse(blob),
        _ => Err(bad_name()),
    }
}

/// The digest behind `blobs/` in a name to write to.
fn first_blob(text: Option<&str>) -> Result<Digest, Status>
    ensures { result ≡ first_blob (segments_behind (option_map (λ t. t.now) text.entry)) }
{
    let Some(text) = text else {
        return Err(bad_name());
    };
    match first_two(text) {
        Some((blob, _)) => parse(blob),
        None => Err(bad_name()),
    }
}

/// The digest behind the UUID of a name to write to.
fn blob_of_kind(text: Option<&str>) -> Result<Digest, Status>
    ensures { result ≡ kind_in (segments_behind (option_map (λ t. t.now) text.entry)) }
{
    let Some(text) = text else {
        return Err(bad_name());
    };
    let (kind, behind) = first_segment(text);
    if kind == "blobs" {
        return first_blob(behind);
    }
    if kind == "compressed-blobs" {
        return Err(compressed());
    }
    Err(bad_name())
}

fn is_uuid(text: &str) -> bool
    ensures { result ≡ is_some (parsed_uuid text.now) }
{
    Uuid::try_parse(text).is_ok()
}

/// The digest behind `uploads/` in a name to write to.
fn upload(text: Option<&str>) -> Result<Digest, Status>
    ensures { result ≡ upload_in (segments_behind (option_map (λ t. t.now) text.entry)) }
{
    let Some(text) = text else {
        return Err(bad_name());
    };
    let (id, behind) = first_segment(text);
    if !is_uuid(id) {
        return Err(bad_name());
    }
    blob_of_kind(behind)
}

/// The digest of the blob that a name to read from names: `blobs/HASH/SIZE`, after any segments that are neither `blobs` nor
/// `compressed-blobs`. A name with `compressed-blobs` is refused with UNIMPLEMENTED, any other with INVALID_ARGUMENT.
pub fn read_name(name: &str) -> Result<Digest, Status>
    ensures { result ≡ read_named name.now }
{
    let mut rest = Some(name);
    while let Some(text) = rest {
        let (segment, behind) = first_segment(text);
        if segment == "blobs" {
            return whole_blob(behind);
        }
        if segment == "compressed-blobs" {
            return Err(compressed());
        }
        rest = behind;
    }
    Err(bad_name())
}

/// The digest of the blob that a name to write to names: `uploads/UUID/blobs/HASH/SIZE`, after any segments that aren't
/// `uploads`, and before any others. A name with `compressed-blobs` in the place of `blobs` is refused with UNIMPLEMENTED, any
/// other with INVALID_ARGUMENT.
pub fn write_name(name: &str) -> Result<Digest, Status>
    ensures { result ≡ write_named name.now }
{
    let mut rest = Some(name);
    while let Some(text) = rest {
        let (segment, behind) = first_segment(text);
        if segment == "uploads" {
            return upload(behind);
        }
        rest = behind;
    }
    Err(bad_name())
}
