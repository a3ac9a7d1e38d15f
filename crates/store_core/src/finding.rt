//! Which blobs are there, and their use.

ghost use Rattle.std.specs.Prelude.{◌≡◌, ◌&&◌, false, position, if◌then◌else◌, IfOk};
ghost use Rattle.store_core.specs.State.{Distinct, is_of, is_sound};
ghost use Rattle.store_core.specs.Step.{is_here, missing, touched, touched_all, damaged};

use crate::digests::{is_among, is_empty_blob};
use crate::rows::move_back;
use crate::state::Row;
use digest_types::Digest;
use proto_wire::OutOfMemory;
use std::alloc::Global;

/// Whether a digest has a sound row.
pub(crate) fn is_sound(rows: &[Row], digest: &Digest) -> bool
    ensures { result ≡ is_sound rows.now digest.now }
{
    rows.iter().any(|row| row.digest == *digest && row.sound)
}

/// Whether a blob is there.
pub(crate) fn is_here(rows: &[Row], digest: &Digest) -> bool
    ensures { result ≡ is_here rows.now digest.now }
{
    is_empty_blob(digest) || is_sound(rows, digest)
}

/// The blobs that aren't there, each once, in the order of their first mention.
pub(crate) fn missing(
    alloc: Global,
    rows: &[Row],
    digests: &[Digest],
) -> Result<Vec<Digest>, OutOfMemory>
    ensures { IfOk result (λ ds. ds.items ≡ missing rows.now digests.now) }
{
    let mut missing = Vec::new(alloc);
    for digest in digests {
        if !is_here(rows, digest) && !is_among(&missing, digest) {
            missing.push(*digest)?;
        }
    }
    Ok(missing)
}

/// Where the row of a digest stands, if it is sound.
fn place_of_sound(rows: &[Row], digest: &Digest) -> Option<usize>
    ensures { result ≡ position (λ row. is_of digest.now row && row.sound) rows.now }
{
    rows.iter()
        .position(|row| row.digest == *digest && row.sound)
}

/// Makes a sound row the most recent one. It takes no memory.
pub(crate) fn touch(rows: &mut Vec<Row>, digest: &Digest)
    requires { Distinct rows.old.items }
    ensures { rows.new.items ≡ touched digest.now rows.old.items }
{
    if let Some(place) = place_of_sound(rows, digest) {
        move_back(rows, place);
    }
}

/// Makes the sound rows of these digests the most recent ones, one after the other. It takes no memory.
pub(crate) fn touch_all(rows: &mut Vec<Row>, digests: &[Digest])
    requires { Distinct rows.old.items }
    ensures { rows.new.items ≡ touched_all digests.now rows.old.items }
{
    for digest in digests {
        touch(rows, digest);
    }
}

/// Makes a row unsound, if it is that of the digest.
fn damage_row(row: &mut Row, digest: &Digest)
    ensures { row.new ≡ (if is_of digest.now row.old then record row.old { sound = false } else row.old) }
{
    if row.digest == *digest {
        row.sound = false;
    }
}

/// Makes the row of a digest unsound, if there is one. It takes no memory.
pub(crate) fn damage(rows: &mut Vec<Row>, digest: &Digest)
    ensures { rows.new.items ≡ damaged digest.now rows.old.items }
{
    for row in rows.iter_mut() {
        damage_row(row, digest);
    }
}
