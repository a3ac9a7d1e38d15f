//! Rows in the order of their use, the least recent first.

ghost use Rattle.std.specs.Prelude.{◌≡◌, ◌<◌, ◌≤◌, ◌^◌, ◌++◌, ◌∷◌, [], Some, true, length, position, slice_get, IfOk};
ghost use Rattle.std.specs.List.{remove};
ghost use Rattle.store_core.specs.State.{is_of, row_of, sizes, Distinct, others};
ghost use Rattle.store_core.specs.declared.state.Row.{Row};

use crate::state::Row;
use digest_types::Digest;
use directory_canon::Edges;
use proto_wire::OutOfMemory;
use std::alloc::Global;

/// A sound row with these edges.
pub(crate) fn sound_row(
    alloc: Global,
    digest: &Digest,
    edges: &Option<Edges>,
) -> Result<Row, OutOfMemory>
    ensures { IfOk result (λ row. row ≡ record { digest = digest.now; edges = edges.now; sound = true }) }
{
    let edges = match edges {
        Some(edges) => Some(Edges::from_vec(Vec::from_slice(alloc, edges.as_slice())?)),
        None => None,
    };
    Ok(Row {
        digest: *digest,
        edges,
        sound: true,
    })
}

fn is_row_of(row: &Row, digest: &Digest) -> bool
    ensures { result ≡ is_of digest.now row.now }
{
    row.digest == *digest
}

/// Where the row of a digest stands.
pub(crate) fn place_of(rows: &[Row], digest: &Digest) -> Option<usize>
    ensures { result ≡ position (is_of digest.now) rows.now }
{
    rows.iter().position(|row| is_row_of(row, digest))
}

/// How many bytes the rows have.
pub(crate) fn used_by(rows: &[Row]) -> u64
    requires { sizes rows.now ≤ 2 ^ 62 }
    ensures { result ≡ sizes rows.now }
{
    let mut used = 0;
    'rows: for row in rows {
        used += row.digest.size;
    }
    used
}

/// Makes the row at this place the most recent one. It takes no memory.
#[tactic(auto, using(crate::proofs::UseOrder::moved_back))]
pub(crate) fn move_back(rows: &mut [Row], place: usize)
    requires { place < length rows.old }
    ensures { (row : Row) → slice_get rows.old place ≡ Some row → rows.new ≡ remove rows.old place ++ row ∷ [] }
{
    rows[place..].rotate_left(1);
}

/// The same, and sound.
fn renew_at(rows: &mut [Row], place: usize)
    requires { place < length rows.old }
    ensures { (row : Row) → slice_get rows.old place ≡ Some row → rows.new ≡ remove rows.old place ++ record row { sound = true } ∷ [] }
{
    move_back(rows, place);
    let last = rows.len() - 1;
    rows[last].sound = true;
}

/// Makes the row of a digest, which stands at this place, the most recent one, and sound. It takes no memory.
pub(crate) fn renew(rows: &mut Vec<Row>, digest: &Digest, place: usize)
    requires there { position (is_of digest.now) rows.old.items ≡ Some place }
    requires distinct { Distinct rows.old.items }
    ensures { (row : Row) → row_of digest.now rows.old.items ≡ Some row → rows.new.items ≡ others digest.now rows.old.items ++ record row { sound = true } ∷ [] }
{
    renew_at(rows, place);
}
