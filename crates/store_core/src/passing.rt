//! Expiry passes, and what is guarded.

ghost use Rattle.std.specs.Prelude.{◌≡◌, ◌≤◌, ◌-◌, ◌^◌, length, IfOk};
ghost use Rattle.store_core.specs.State.{State, sizes};
ghost use Rattle.store_core.specs.Pass.{guarded, gone, without};
ghost use Rattle.store_core.specs.Marks.{guard_marks};

use crate::digests::is_among;
use crate::state::Row;
use digest_types::Digest;
use proto_wire::OutOfMemory;
use std::alloc::Global;

/// How many bytes the guarded rows have.
pub(crate) fn guarded_by(rows: &[Row], guards: &[bool]) -> u64
    requires small { sizes rows.now ≤ 2 ^ 62 }
    ensures { (s : State) → rows.now ≡ s.rows → guards.now ≡ guard_marks s → result ≡ guarded s }
{
    let mut bytes = 0;
    for (row, guard) in rows.iter().zip(guards) {
        if *guard {
            bytes += row.digest.size;
        }
    }
    bytes
}

/// The digests of the rows that a pass removes: the first unguarded ones, until at most `target` bytes are left.
pub(crate) fn gone(
    alloc: Global,
    rows: &[Row],
    guards: &[bool],
    used: u64,
    target: u64,
) -> Result<Vec<Digest>, OutOfMemory>
    requires all { used ≡ sizes rows.now }
    ensures { IfOk result (λ ds. (s : State) → rows.now ≡ s.rows → guards.now ≡ guard_marks s → ds.items ≡ gone s target) }
{
    let mut left = used;
    let mut digests = Vec::new(alloc);
    for (row, guard) in rows.iter().zip(guards) {
        if left <= target {
            break;
        }
        if !*guard {
            digests.push(row.digest)?;
            left -= row.digest.size;
        }
    }
    Ok(digests)
}

/// Takes away the rows of these digests, and answers how many went. It takes no memory.
pub(crate) fn remove(rows: &mut Vec<Row>, gone: &[Digest]) -> u64
    ensures rows { rows.new.items ≡ without gone.now rows.old.items }
    ensures count { result ≡ length rows.old.items - length rows.new.items }
{
    let len = rows.len();
    rows.retain(|row| !is_among(gone, &row.digest));
    (len - rows.len()) as u64
}
