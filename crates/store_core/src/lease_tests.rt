//! Worked examples of leases.

ghost use Rattle.std.specs.Prelude.{◌≤◌};

use super::*;
use digest_types::{Digest, Digests};
use directory_canon::{Edge, Edges, Kind};
use std::alloc::Global;
use std::process::Abort;
use std::test::*;

fn store(alloc: Global, low: u64, high: u64) -> Core
    requires ordered { low ≤ high }
    requires small { high ≤ 1000 }
{
    let guard = Guard::Leases;
    Core::new(alloc, Marks { low, high, guard })
}

/// A digest of a blob of this name and size.
fn digest(name: u8, size: u32) -> Digest {
    Digest {
        hash: [name; 32],
        size: u64::from(size),
    }
}

fn put(digest: Digest) -> Event {
    Event::Put {
        digest,
        edges: None,
    }
}

fn put_linked(alloc: Global, digest: Digest, edges: &[Edge]) -> Result<Event, Fail> {
    Ok(Event::Put {
        digest,
        edges: Some(Edges::from_vec(Vec::from_slice(alloc, edges)?)),
    })
}

fn file(digest: Digest) -> Edge {
    Edge {
        kind: Kind::File,
        digest,
    }
}

fn dir(digest: Digest) -> Edge {
    Edge {
        kind: Kind::Dir,
        digest,
    }
}

fn lease(root: Edge) -> Event {
    Event::Lease {
        root: root.digest,
        kind: root.kind,
    }
}

fn list(alloc: Global, digests: &[Digest]) -> Result<Digests, Fail> {
    Ok(Digests::from_vec(Vec::from_slice(alloc, digests)?))
}

/// The event gets this reply.
fn expect(
    rt: &impl Abort,
    alloc: Global,
    core: &mut Core,
    owner: u64,
    event: &Event,
    due: &Reply,
) -> Result<(), Fail> {
    assert!(rt; core.next_owner() < u64::MAX && core.next_lease() < u64::MAX);
    let reply = core.step(owner, event)?;
    let told = format!(in alloc; "{reply:?}")?;
    let wanted = format!(in alloc; "{due:?}")?;
    assert_eq!(rt; told, wanted);
    Ok(())
}

/// Each event of an owner gets its reply.
fn run(
    rt: &impl Abort,
    alloc: Global,
    core: &mut Core,
    steps: &[(u64, Event, Reply)],
) -> Result<(), Fail> {
    for (owner, event, due) in steps {
        expect(rt, alloc, core, *owner, event, due)?;
    }
    Ok(())
}

fn stored(removed: u64, used: u64) -> Reply {
    Reply::Stored { removed, used }
}

#[test]
fn a_pass_takes_the_least_recently_used_blob_that_no_lease_reaches(
    rt: HostRuntime,
) -> Result<(), Fail> {
    let alloc = rt.alloc();
    let mut core = store(alloc, 12, 20);
    let [a, b, c, d] = [digest(1, 6), digest(2, 6), digest(3, 6), digest(4, 6)];
    let steps = [
        (0, Event::Open, Reply::Opened { owner: 1 }),
        (1, put(a), stored(0, 6)),
        (1, put(b), stored(0, 12)),
        (1, put(c), stored(0, 18)),
        (1, lease(file(a)), Reply::Leased { lease: 1 }),
        (1, Event::Read { digest: b }, Reply::Found),
        (1, put(d), stored(1, 18)),
        (
            1,
            Event::Find {
                digests: list(alloc, &[c])?,
            },
            Reply::Missing {
                digests: list(alloc, &[c])?,
            },
        ),
    ];
    run(&rt, alloc, &mut core, &steps)
}

#[test]
fn a_lease_guards_all_that_its_root_reaches_until_the_last_one_goes(
    rt: HostRuntime,
) -> Result<(), Fail> {
    let alloc = rt.alloc();
    let mut core = store(alloc, 0, 80);
    let [blob, folder, large, small] = [digest(1, 3), digest(2, 75), digest(3, 3), digest(4, 2)];
    let no_space = Reply::NoSpace {
        guarded: 78,
        size: 3,
        high: 80,
    };
    let passed = |removed, used| Reply::Passed { removed, used };
    let steps = [
        (0, Event::Open, Reply::Opened { owner: 1 }),
        (0, Event::Open, Reply::Opened { owner: 2 }),
        (1, put(blob), stored(0, 3)),
        (1, put_linked(alloc, folder, &[file(blob)])?, stored(0, 78)),
        (1, lease(dir(folder)), Reply::Leased { lease: 1 }),
        (2, lease(dir(folder)), Reply::Leased { lease: 2 }),
        (1, put(large), no_space),
        (1, put(small), stored(0, 80)),
        (1, Event::Pass, passed(1, 78)),
        // Another owner's lease can't be released, and an owner with a lease can't go.
        (2, Event::Release { lease: 1 }, Reply::Refused),
        (1, Event::Close, Reply::Refused),
        (1, Event::Release { lease: 1 }, Reply::Released),
        (1, Event::Close, Reply::Closed),
        (2, Event::Pass, passed(0, 78)),
        (2, Event::Release { lease: 2 }, Reply::Released),
        (2, Event::Pass, passed(2, 0)),
    ];
    run(&rt, alloc, &mut core, &steps)
}

#[test]
fn a_damaged_blob_is_missing_until_it_is_put_again_and_keeps_its_links(
    rt: HostRuntime,
) -> Result<(), Fail> {
    let alloc = rt.alloc();
    let mut core = store(alloc, 10, 20);
    let [blob, folder] = [digest(1, 4), digest(2, 5)];
    let wants = Reply::Stands {
        standing: Standing::Wants {
            digests: list(alloc, &[folder])?,
        },
    };
    let complete = Reply::Stands {
        standing: Standing::Complete {
            digests: list(alloc, &[blob, folder])?,
        },
    };
    let confirm = || Event::Confirm {
        lease: 1,
        files: true,
    };
    let steps = [
        (0, Event::Open, Reply::Opened { owner: 1 }),
        (1, put(blob), stored(0, 4)),
        (1, put_linked(alloc, folder, &[file(blob)])?, stored(0, 9)),
        (1, lease(dir(folder)), Reply::Leased { lease: 1 }),
        (1, Event::Damage { digest: folder }, Reply::Marked),
        (1, Event::Read { digest: folder }, Reply::Absent),
        (1, confirm(), wants),
        (1, put(folder), Reply::Repaired),
        (1, Event::Read { digest: folder }, Reply::Found),
        (1, confirm(), complete),
    ];
    run(&rt, alloc, &mut core, &steps)
}
