//! Worked examples of a store that is loaded from the shelf in memory.

ghost use Rattle.std.specs.Prelude.{IfOk};
ghost use Rattle.store_core.specs.State.{DistinctDigests};

use crate::body_tests::mem_shelf;
use crate::store_tests::{Act, digest, run};
use blob_store::{MemShelf, ShelfEnd, Store};
use digest_types::{Digest, Digests};
use std::alloc::Global;
use std::process::Abort;
use std::test::*;
use store_core::{Guard, Marks};

// A list of two digests that are not the same.
fn both(rt: &impl Abort, alloc: Global, first: Digest, second: Digest) -> Result<Digests, Fail>
    ensures { IfOk result (λ ds. DistinctDigests ds) }
{
    assert!(rt; first != second);
    Ok(Digests::from_vec(Vec::from_slice(alloc, &[first, second])?))
}

// Loads a store with marks 3 and 10 from a shelf on which `abc`, `ab` and `abc` are found and the calls of these numbers
// fail. The saved list has `abc`, and `zz`, which isn't found.
fn load(
    rt: &impl Abort,
    alloc: Global,
    failing: &[u64],
) -> Result<(Result<Store<MemShelf>, ShelfEnd>, MemShelf), Fail> {
    let saved = both(rt, alloc, digest(rt, b"abc"), digest(rt, b"zz"))?;
    let mut shelf = mem_shelf(alloc, &[b"abc", b"ab", b"abc"], failing, &[])?.with_saved(saved);
    let marks = Marks {
        low: 3,
        high: 10,
        guard: Guard::Leases,
    };
    let store = Store::load(alloc, &mut shelf, marks);
    Ok((store, shelf))
}

#[test]
fn a_load_keeps_each_blob_once_and_the_saved_ones_last(rt: HostRuntime) -> Result<(), Fail> {
    let (store, mut shelf) = load(&rt, rt.alloc(), &[])?;
    let mut store = store.ok().ok_or("not loaded")?;
    let used = [digest(&rt, b"ab"), digest(&rt, b"abc")];
    let list = store.use_list().ok().ok_or("no memory")?;
    assert_eq!(rt; list.as_slice(), &used[..]);
    assert_eq!(rt; shelf.discarded(), 1);
    let steps = [
        (0, Act::Open, "Opened { owner: 1 }"),
        (
            1,
            Act::Usage,
            "Used { usage: Usage { used: 5, guarded: 0, rows: 2, low: 3, high: 10 } }",
        ),
        (1, Act::Pass, "Passed { removed: 1, used: 3 }"),
        (1, Act::Read(b"ab"), "Absent"),
        (1, Act::Read(b"abc"), "Found"),
    ];
    run(&rt, rt.alloc(), &mut store, &mut shelf, &steps)
}

#[test]
fn a_load_fails_where_a_call_of_the_shelf_does(rt: HostRuntime) -> Result<(), Fail> {
    // one look at the saved list, four for a body, and for each body its reader and two reads
    for call in 0..14 {
        let (store, shelf) = load(&rt, rt.alloc(), &[call])?;
        assert_eq!(rt; store.err(), Some(ShelfEnd::Failed), "call {call}");
        assert_eq!(rt; shelf.faults(), 1, "call {call}");
    }
    Ok(())
}
