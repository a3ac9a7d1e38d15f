//! Which blobs are there.

ghost use Rattle.std.specs.Prelude.{◌≡◌, ◌≤◌, ◌^◌, [], true, IfOk, OnOk};
ghost use Rattle.std.specs.List.{AllByRecursion};
ghost use Rattle.store_core.specs.State.{Distinct, sizes};
ghost use Rattle.store_core.specs.Step.{is_here, missing, touched_all};

use crate::index::Index;
use digest_types::{Digest, Digests};
use indexmap::IndexSet;
use proto_wire::OutOfMemory;
use std::alloc::Global;
use store_core::{Row, is_empty_blob};

/// Whether a blob is there.
pub(crate) fn is_here(index: &Index, digest: &Digest) -> bool
    ensures { result ≡ is_here index.now.rows digest.now }
{
    is_empty_blob(digest) || index.is_sound(digest)
}

/// The blobs that aren't there, each once, in the order of their first mention.
pub(crate) fn missing(
    alloc: Global,
    index: &Index,
    digests: &[Digest],
) -> Result<Vec<Digest>, OutOfMemory>
    ensures { IfOk result (λ ds. ds.items ≡ missing index.now.rows digests.now) }
{
    let mut missing: IndexSet<Digest> = IndexSet::new(alloc);
    for digest in digests {
        if !is_here(index, digest) {
            missing.insert(*digest)?;
        }
    }
    Ok(missing.iter().copied().collect(alloc)?)
}

/// Makes the sound rows of these digests the most recent ones, one after the other. It takes no memory.
pub(crate) fn touch_all(index: &mut Index, digests: &[Digest])
    ensures { index.new ≡ record index.old { rows = touched_all digests.now index.old.rows } }
{
    for digest in digests {
        index.touch(digest);
    }
}

/// Adds these rows to an index that has none.
pub(crate) fn add_all(alloc: Global, index: &mut Index, rows: &[Row]) -> Result<(), OutOfMemory>
    requires empty { index.old.rows ≡ [] }
    requires distinct { Distinct rows.now }
    requires sound { AllByRecursion (λ row. row.sound ≡ true) rows.now }
    requires small { sizes rows.now ≤ 2 ^ 60 }
    ensures { OnOk result (index.new ≡ record index.old { rows = rows.now }) }
{
    let none = Digests::new(alloc);
    for row in rows {
        index.add(&row.digest, row.edges.as_ref(), &none, None)?;
    }
    Ok(())
}
