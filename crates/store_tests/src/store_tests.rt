//! Worked examples of the store over the shelf in memory.

use blob_store::{Checked, Filling, MemShelf, ReadingEnd, Store};
use digest_types::{Digest, Digests};
use directory_canon::Kind;
use proto_wire::Bytes;
use std::alloc::Global;
use std::process::Abort;
use std::test::*;
use store_core::{Event, Guard, Marks, Reply};

// What an owner does, with the bytes of a blob.
#[derive(Clone, Copy)]
pub(crate) enum Act<'a> {
    Open,
    Put(&'a [u8]),
    Read(&'a [u8]),
    Damage(&'a [u8]),
    LeaseFile(&'a [u8]),
    Pass,
    Usage,
    Close,
}

// A store with these marks and a shelf on which the drafts of these numbers are spoilt. Leases alone guard.
fn empty(
    rt: &impl Abort,
    alloc: Global,
    marks: (u64, u64),
    spoilt: &[u64],
) -> Result<(Store<MemShelf>, MemShelf), Fail> {
    guarding(rt, alloc, marks, Guard::Leases, spoilt)
}

// The same with this guard.
fn guarding(
    rt: &impl Abort,
    alloc: Global,
    marks: (u64, u64),
    guard: Guard,
    spoilt: &[u64],
) -> Result<(Store<MemShelf>, MemShelf), Fail> {
    let (low, high) = marks;
    assert!(rt; low <= high);
    assert!(rt; high <= 1000);
    let shelf = MemShelf::new(
        alloc,
        Vec::new(alloc),
        Vec::new(alloc),
        Vec::from_slice(alloc, spoilt)?,
    );
    let marks = Marks { low, high, guard };
    Ok((Store::new(alloc, marks)?, shelf))
}

pub(crate) fn digest(rt: &impl Abort, bytes: &[u8]) -> Digest {
    assert!(rt; bytes.len() <= 100);
    Digest::of(bytes)
}

// The body of these bytes.
pub(crate) fn body(
    rt: &impl Abort,
    alloc: Global,
    shelf: &mut MemShelf,
    bytes: &[u8],
) -> Result<Checked<MemShelf>, Fail> {
    assert!(rt; bytes.len() <= 100);
    let mut filling = Filling::new(alloc, shelf).ok().ok_or("no draft")?;
    filling.add(shelf, bytes).ok().ok_or("not added")?;
    Ok(filling.finish(shelf).ok().ok_or("not sealed")?)
}

// Puts a blob that is no Directory.
fn put(
    rt: &impl Abort,
    alloc: Global,
    store: &mut Store<MemShelf>,
    shelf: &mut MemShelf,
    owner: u64,
    bytes: &[u8],
) -> Result<Reply, Fail> {
    let blob = body(rt, alloc, shelf, bytes)?;
    assert!(rt; blob.edges().is_none());
    let event = Event::Put {
        digest: blob.digest(),
        edges: None,
    };
    assert!(rt; store.next_owner() < 1000);
    assert!(rt; store.next_lease() < 1000);
    let reply = store.apply(shelf, owner, &event, Some(blob));
    Ok(reply.ok().ok_or("no memory")?)
}

// Asks for what moves no body of the owner's.
fn ask(
    rt: &impl Abort,
    store: &mut Store<MemShelf>,
    shelf: &mut MemShelf,
    owner: u64,
    event: &Event,
) -> Result<Reply, Fail> {
    assert!(rt; store.next_owner() < 1000);
    assert!(rt; store.next_lease() < 1000);
    match event {
        Event::Put { .. } => Err("a put has a body")?,
        _ => Ok(
            store
                .apply(shelf, owner, event, None)
                .ok()
                .ok_or("no memory")?,
        ),
    }
}

// One step of an owner.
fn step(
    rt: &impl Abort,
    alloc: Global,
    store: &mut Store<MemShelf>,
    shelf: &mut MemShelf,
    owner: u64,
    act: Act,
) -> Result<Reply, Fail> {
    let event = match act {
        Act::Put(bytes) => return put(rt, alloc, store, shelf, owner, bytes),
        Act::Open => Event::Open,
        Act::Read(bytes) => Event::Read {
            digest: digest(rt, bytes),
        },
        Act::Damage(bytes) => Event::Damage {
            digest: digest(rt, bytes),
        },
        Act::LeaseFile(bytes) => Event::Lease {
            root: digest(rt, bytes),
            kind: Kind::File,
        },
        Act::Pass => Event::Pass,
        Act::Usage => Event::Usage,
        Act::Close => Event::Close,
    };
    ask(rt, store, shelf, owner, &event)
}

// Takes each step in turn: its owner, what it does, and the reply that is due.
pub(crate) fn run(
    rt: &impl Abort,
    alloc: Global,
    store: &mut Store<MemShelf>,
    shelf: &mut MemShelf,
    steps: &[(u64, Act, &str)],
) -> Result<(), Fail> {
    for (number, (owner, does, due)) in steps.iter().enumerate() {
        let reply = step(rt, alloc, store, shelf, *owner, *does)?;
        let text = format!(in alloc; "{reply:?}")?;
        assert_eq!(rt; text.as_str(), *due, "step {number}");
    }
    Ok(())
}

// What the first owner does in a store with marks 10 and 20, and how many bodies are given up.
fn gives_up(
    rt: &impl Abort,
    alloc: Global,
    shows: &str,
    steps: &[(u64, Act, &str)],
    given_up: u64,
) -> Result<(), Fail> {
    let (mut store, mut shelf) = empty(rt, alloc, (10, 20), &[])?;
    step(rt, alloc, &mut store, &mut shelf, 0, Act::Open)?;
    run(rt, alloc, &mut store, &mut shelf, steps)?;
    assert_eq!(rt; shelf.discarded(), given_up, "{shows}");
    Ok(())
}

#[test]
fn a_put_up_to_the_high_mark_is_stored(rt: HostRuntime) -> Result<(), Fail> {
    let (mut store, mut shelf) = empty(&rt, rt.alloc(), (5, 9), &[])?;
    let steps = [
        (0, Act::Open, "Opened { owner: 1 }"),
        (1, Act::Put(b"123456789"), "Stored { removed: 0, used: 9 }"),
        (
            1,
            Act::Put(b"1234567890"),
            "NoSpace { guarded: 0, size: 10, high: 9 }",
        ),
        (1, Act::Put(b"1234"), "Stored { removed: 1, used: 4 }"),
    ];
    run(&rt, rt.alloc(), &mut store, &mut shelf, &steps)
}

#[test]
fn a_put_past_the_high_mark_goes_down_to_the_low_one(rt: HostRuntime) -> Result<(), Fail> {
    let (mut store, mut shelf) = empty(&rt, rt.alloc(), (10, 20), &[])?;
    let steps = [
        (0, Act::Open, "Opened { owner: 1 }"),
        (1, Act::Put(b"aaaaaa"), "Stored { removed: 0, used: 6 }"),
        (1, Act::Put(b"bbbbbb"), "Stored { removed: 0, used: 12 }"),
        (1, Act::Put(b"cccccc"), "Stored { removed: 0, used: 18 }"),
        (1, Act::Put(b"dddddd"), "Stored { removed: 2, used: 12 }"),
        (1, Act::Read(b"aaaaaa"), "Absent"),
        (1, Act::Read(b"bbbbbb"), "Absent"),
        (1, Act::Read(b"dddddd"), "Found"),
        (1, Act::Read(b"cccccc"), "Found"),
    ];
    run(&rt, rt.alloc(), &mut store, &mut shelf, &steps)?;
    let used = [digest(&rt, b"dddddd"), digest(&rt, b"cccccc")];
    let list = store.use_list().ok().ok_or("no memory")?;
    assert_eq!(rt; list.as_slice(), &used[..]);
    Ok(())
}

#[test]
fn a_put_removes_neither_what_is_leased_nor_what_was_just_read(
    rt: HostRuntime,
) -> Result<(), Fail> {
    let (mut store, mut shelf) = empty(&rt, rt.alloc(), (12, 20), &[])?;
    let steps = [
        (0, Act::Open, "Opened { owner: 1 }"),
        (1, Act::Put(b"aaaaaa"), "Stored { removed: 0, used: 6 }"),
        (1, Act::Put(b"bbbbbb"), "Stored { removed: 0, used: 12 }"),
        (1, Act::Put(b"cccccc"), "Stored { removed: 0, used: 18 }"),
        (1, Act::LeaseFile(b"aaaaaa"), "Leased { lease: 1 }"),
        (1, Act::Read(b"bbbbbb"), "Found"),
        (1, Act::Put(b"dddddd"), "Stored { removed: 1, used: 18 }"),
    ];
    run(&rt, rt.alloc(), &mut store, &mut shelf, &steps)?;
    let wanted = [Digest::of(b"cccccc")];
    let find = Event::Find {
        digests: Digests::from_vec(Vec::from_slice(rt.alloc(), &wanted)?),
    };
    let missing = match ask(&rt, &mut store, &mut shelf, 1, &find)? {
        Reply::Missing { digests } => digests.into_vec(),
        _ => Vec::new(rt.alloc()),
    };
    assert_eq!(rt; missing.as_slice(), wanted.as_slice());
    Ok(())
}

#[test]
fn what_is_not_kept_is_given_up(rt: HostRuntime) -> Result<(), Fail> {
    let first = (1, Act::Put(b"aaaaaa"), "Stored { removed: 0, used: 6 }");
    let alloc = rt.alloc();
    gives_up(&rt, alloc, "a blob that is stored is kept", &[first], 0)?;
    let again = (1, Act::Put(b"aaaaaa"), "Present");
    gives_up(
        &rt,
        alloc,
        "a blob that is there is not",
        &[first, again],
        1,
    )?;
    let large = (
        1,
        Act::Put(b"123456789012345678901"),
        "NoSpace { guarded: 0, size: 21, high: 20 }",
    );
    gives_up(&rt, alloc, "nor is one that finds no space", &[large], 1)?;
    let damaged = (1, Act::Damage(b"aaaaaa"), "Marked");
    let repaired = (1, Act::Put(b"aaaaaa"), "Repaired");
    gives_up(
        &rt,
        alloc,
        "a repair gives the old body up",
        &[first, damaged, repaired],
        1,
    )?;
    let other = (2, Act::Put(b"aaaaaa"), "Refused");
    gives_up(
        &rt,
        alloc,
        "a put that is refused gives its body up",
        &[other],
        1,
    )
}

#[test]
fn the_bodies_of_rows_that_go_are_given_up(rt: HostRuntime) -> Result<(), Fail> {
    let first = (1, Act::Put(b"aaaaaa"), "Stored { removed: 0, used: 6 }");
    let second = (1, Act::Put(b"bbbbbb"), "Stored { removed: 0, used: 12 }");
    let third = (1, Act::Put(b"cccccc"), "Stored { removed: 0, used: 18 }");
    let alloc = rt.alloc();
    let pass = (1, Act::Pass, "Passed { removed: 2, used: 6 }");
    gives_up(&rt, alloc, "by a pass", &[first, second, third, pass], 2)?;
    let put = (1, Act::Put(b"dddddd"), "Stored { removed: 2, used: 12 }");
    gives_up(&rt, alloc, "by a put", &[first, second, third, put], 2)?;
    let refused = (2, Act::Pass, "Refused");
    let found = (1, Act::Read(b"aaaaaa"), "Found");
    gives_up(
        &rt,
        alloc,
        "by no pass that is refused",
        &[first, second, third, refused, found],
        0,
    )
}

// Reads a blob in pieces of two bytes, up to its end.
fn bytes_of(
    alloc: Global,
    store: &Store<MemShelf>,
    shelf: &mut MemShelf,
    digest: &Digest,
) -> Result<Result<Bytes, ReadingEnd>, Fail> {
    let reading = store.reading(shelf, digest).ok().ok_or("no reader")?;
    let mut reading = reading.ok_or("not there")?;
    let mut bytes = Bytes::new(alloc);
    for _ in 0..100 {
        let mut buf = [0u8; 2];
        match reading.next(shelf, &mut buf) {
            Ok(0) => return Ok(Ok(bytes)),
            Ok(count) => bytes.push_slice(&buf[..count]).ok().ok_or("memory")?,
            Err(end) => return Ok(Err(end)),
        }
    }
    Err("too long")?
}

#[test]
fn a_blob_that_is_repaired_is_read_back_whole(rt: HostRuntime) -> Result<(), Fail> {
    // the body of the first draft reads another first byte
    let (mut store, mut shelf) = empty(&rt, rt.alloc(), (10, 20), &[0])?;
    let want = Digest::of(b"abcdef");
    let got = Digest::of(b"bbcdef");
    let steps = [
        (0, Act::Open, "Opened { owner: 1 }"),
        (1, Act::Put(b"abcdef"), "Stored { removed: 0, used: 6 }"),
    ];
    run(&rt, rt.alloc(), &mut store, &mut shelf, &steps)?;
    let damaged = bytes_of(rt.alloc(), &store, &mut shelf, &want)?;
    assert_eq!(rt; damaged.err(), Some(ReadingEnd::Damaged { want, got }));

    let steps = [
        (1, Act::Damage(b"abcdef"), "Marked"),
        (1, Act::Read(b"abcdef"), "Absent"),
        (1, Act::Put(b"abcdef"), "Repaired"),
        (1, Act::Read(b"abcdef"), "Found"),
    ];
    run(&rt, rt.alloc(), &mut store, &mut shelf, &steps)?;
    let sound = bytes_of(rt.alloc(), &store, &mut shelf, &want)?;
    assert!(rt; sound.is_ok_and(|bytes| bytes.as_slice() == b"abcdef".as_slice()));
    Ok(())
}

#[test]
fn the_empty_blob_is_there_without_a_body(rt: HostRuntime) -> Result<(), Fail> {
    let (mut store, mut shelf) = empty(&rt, rt.alloc(), (10, 20), &[])?;
    let empty = Digest::empty();
    let bytes = bytes_of(rt.alloc(), &store, &mut shelf, &empty)?;
    assert!(rt; bytes.is_ok_and(|bytes| bytes.as_slice().is_empty()));
    assert!(rt;
        store
            .reading(&mut shelf, &Digest::of(b"a"))
            .is_ok_and(|o| o.is_none())
    );
    let steps = [
        (0, Act::Open, "Opened { owner: 1 }"),
        (1, Act::Read(b""), "Found"),
    ];
    run(&rt, rt.alloc(), &mut store, &mut shelf, &steps)?;
    assert_eq!(rt; store.usage().rows, 0);
    Ok(())
}

#[test]
fn a_session_guards_what_it_put_until_its_owner_goes(rt: HostRuntime) -> Result<(), Fail> {
    let (mut store, mut shelf) = guarding(&rt, rt.alloc(), (0, 10), Guard::Session, &[])?;
    let steps = [
        (0, Act::Open, "Opened { owner: 1 }"),
        (0, Act::Open, "Opened { owner: 2 }"),
        (1, Act::Put(b"abcdef"), "Stored { removed: 0, used: 6 }"),
        (2, Act::Pass, "Passed { removed: 0, used: 6 }"),
        (
            2,
            Act::Put(b"12345"),
            "NoSpace { guarded: 6, size: 5, high: 10 }",
        ),
        (1, Act::Close, "Closed"),
        (2, Act::Put(b"12345"), "Stored { removed: 1, used: 5 }"),
        (
            2,
            Act::Usage,
            "Used { usage: Usage { used: 5, guarded: 5, rows: 1, low: 0, high: 10 } }",
        ),
    ];
    run(&rt, rt.alloc(), &mut store, &mut shelf, &steps)?;
    let (mut store, mut shelf) = empty(&rt, rt.alloc(), (0, 10), &[])?;
    let steps = [
        (0, Act::Open, "Opened { owner: 1 }"),
        (1, Act::Put(b"abcdef"), "Stored { removed: 0, used: 6 }"),
        (1, Act::Pass, "Passed { removed: 1, used: 0 }"),
    ];
    run(&rt, rt.alloc(), &mut store, &mut shelf, &steps)
}
