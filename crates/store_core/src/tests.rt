//! What no clause says.

ghost use Rattle.std.specs.Prelude.{◌<◌, ◌≤◌, length};

use super::*;
use digest_types::{Digest, Digests};
use directory_canon::{Edge, Edges, Kind};
use std::alloc::Global;
use std::process::Abort;
use std::test::*;

fn store(alloc: Global, low: u64, high: u64) -> Core
    requires ordered { low ≤ high }
    requires small { high ≤ 1000 }
{
    let guard = Guard::Leases;
    Core::new(alloc, Marks { low, high, guard })
}

fn put(bytes: &[u8]) -> Event
    requires { length bytes.now ≤ 100 }
{
    Event::Put {
        digest: Digest::of(bytes),
        edges: None,
    }
}

// A put of a Directory with these bytes, which links to these blobs.
fn put_linked(alloc: Global, bytes: &[u8], edges: &[Edge]) -> Result<Event, Fail>
    requires { length bytes.now ≤ 100 }
{
    Ok(Event::Put {
        digest: Digest::of(bytes),
        edges: Some(Edges::from_vec(Vec::from_slice(alloc, edges)?)),
    })
}

fn edge(kind: Kind, bytes: &[u8]) -> Edge
    requires { length bytes.now ≤ 100 }
{
    Edge {
        kind,
        digest: Digest::of(bytes),
    }
}

fn lease(root: &[u8]) -> Event
    requires { length root.now ≤ 100 }
{
    Event::Lease {
        root: Digest::of(root),
        kind: Kind::Dir,
    }
}

// One step. No test comes near the last number of an owner or a lease.
fn step(rt: &impl Abort, core: &mut Core, owner: u64, event: &Event) -> Result<Reply, Fail> {
    assert!(rt; core.next_owner() < 1000);
    assert!(rt; core.next_lease() < 1000);
    Ok(core.step(owner, event)?)
}

// Takes each step in turn: its owner, the event, and the reply that is due.
fn run(
    rt: &impl Abort,
    alloc: Global,
    core: &mut Core,
    steps: &[(u64, Event, &str)],
) -> Result<(), Fail> {
    for (number, (owner, event, due)) in steps.iter().enumerate() {
        let reply = step(rt, core, *owner, event)?;
        let text = format!(in alloc; "{reply:?}")?;
        assert_eq!(rt; text.as_str(), *due, "step {number}");
    }
    Ok(())
}

// The rows are those of these blobs, in this order.
fn expect_rows(rt: &impl Abort, core: &Core, blobs: &[&[u8]]) {
    assert_eq!(rt; core.rows().len(), blobs.len());
    for (row, bytes) in core.rows().iter().zip(blobs) {
        assert!(rt; bytes.len() <= 100);
        assert_eq!(rt; row.digest, Digest::of(bytes));
    }
}

// The digests are those of these blobs, in any order.
fn expect_digests(rt: &impl Abort, digests: &Digests, blobs: &[&[u8]]) {
    assert_eq!(rt; digests.len(), blobs.len());
    for bytes in blobs {
        assert!(rt; bytes.len() <= 100);
        assert!(rt; digests.as_slice().contains(&Digest::of(bytes)));
    }
}

#[test]
fn a_pass_goes_down_to_the_low_mark(rt: HostRuntime) -> Result<(), Fail> {
    let mut core = store(rt.alloc(), 10, 20);
    let steps = [
        (0, Event::Open, "Opened { owner: 1 }"),
        (1, put(b"first!"), "Stored { removed: 0, used: 6 }"),
        (1, put(b"second"), "Stored { removed: 0, used: 12 }"),
        (1, put(b"third!"), "Stored { removed: 0, used: 18 }"),
        (1, put(b"fourth"), "Stored { removed: 2, used: 12 }"),
        (1, Event::Pass, "Passed { removed: 1, used: 6 }"),
        (1, Event::Pass, "Passed { removed: 0, used: 6 }"),
    ];
    run(&rt, rt.alloc(), &mut core, &steps)?;
    expect_rows(&rt, &core, &[b"fourth"]);
    Ok(())
}

#[test]
fn a_pass_makes_room_for_a_blob_up_to_the_high_mark(rt: HostRuntime) -> Result<(), Fail> {
    let mut core = store(rt.alloc(), 5, 9);
    let steps = [
        (0, Event::Open, "Opened { owner: 1 }"),
        (1, put(b"123456789"), "Stored { removed: 0, used: 9 }"),
        (
            1,
            put(b"1234567890"),
            "NoSpace { guarded: 0, size: 10, high: 9 }",
        ),
        (1, put(b"1234"), "Stored { removed: 1, used: 4 }"),
        // The empty blob is there without a row.
        (1, put(b""), "Present"),
    ];
    run(&rt, rt.alloc(), &mut core, &steps)?;
    expect_rows(&rt, &core, &[b"1234"]);
    Ok(())
}

#[test]
fn a_put_again_makes_a_blob_the_most_recent(rt: HostRuntime) -> Result<(), Fail> {
    let mut core = store(rt.alloc(), 12, 20);
    let steps = [
        (0, Event::Open, "Opened { owner: 1 }"),
        (1, put(b"aaaaaa"), "Stored { removed: 0, used: 6 }"),
        (1, put(b"bbbbbb"), "Stored { removed: 0, used: 12 }"),
        (1, put(b"cccccc"), "Stored { removed: 0, used: 18 }"),
        (1, put(b"aaaaaa"), "Present"),
        (1, put(b"dddddd"), "Stored { removed: 1, used: 18 }"),
    ];
    run(&rt, rt.alloc(), &mut core, &steps)?;
    expect_rows(&rt, &core, &[b"cccccc", b"aaaaaa", b"dddddd"]);
    Ok(())
}

// There is one row, and these are its edges.
fn expect_edges(rt: &impl Abort, core: &Core, edges: &[Edge]) {
    assert_eq!(rt; core.rows().len(), 1);
    for row in core.rows() {
        let found = row.edges.as_ref().map(|edges| edges.as_slice());
        assert_eq!(rt; found, Some(edges));
    }
}

#[test]
fn a_row_keeps_the_edges_of_its_first_put(rt: HostRuntime) -> Result<(), Fail> {
    let mut core = store(rt.alloc(), 10, 20);
    let first = edge(Kind::File, b"file");
    let second = edge(Kind::Dir, b"");
    let steps = [
        (0, Event::Open, "Opened { owner: 1 }"),
        (
            1,
            put_linked(rt.alloc(), b"folder", &[first])?,
            "Stored { removed: 0, used: 6 }",
        ),
        (1, put_linked(rt.alloc(), b"folder", &[second])?, "Present"),
        (1, put(b"folder"), "Present"),
    ];
    run(&rt, rt.alloc(), &mut core, &steps)?;
    expect_edges(&rt, &core, &[first]);
    Ok(())
}

#[test]
fn only_an_open_owner_is_served(rt: HostRuntime) -> Result<(), Fail> {
    let mut core = store(rt.alloc(), 10, 20);
    let steps = [
        (1, put(b"early"), "Refused"),
        (0, Event::Open, "Opened { owner: 1 }"),
        (0, Event::Open, "Opened { owner: 2 }"),
        (1, Event::Close, "Closed"),
        (1, Event::Close, "Refused"),
        (1, put(b"late"), "Refused"),
        (1, Event::Usage, "Refused"),
        (2, put(b"blob"), "Stored { removed: 0, used: 4 }"),
        (3, put(b"other"), "Refused"),
        (2, Event::Close, "Closed"),
        (0, Event::Open, "Opened { owner: 3 }"),
    ];
    run(&rt, rt.alloc(), &mut core, &steps)
}

#[test]
fn a_lease_is_released_by_its_owner_alone(rt: HostRuntime) -> Result<(), Fail> {
    let mut core = store(rt.alloc(), 10, 20);
    let steps = [
        (0, Event::Open, "Opened { owner: 1 }"),
        (0, Event::Open, "Opened { owner: 2 }"),
        (1, lease(b"folder"), "Leased { lease: 1 }"),
        (2, lease(b"folder"), "Leased { lease: 2 }"),
        (2, Event::Release { lease: 1 }, "Refused"),
        (
            2,
            Event::Confirm {
                lease: 1,
                files: true,
            },
            "Refused",
        ),
        (1, Event::Close, "Refused"),
        (1, Event::Release { lease: 1 }, "Released"),
        (1, Event::Release { lease: 1 }, "Refused"),
        (1, Event::Close, "Closed"),
        (2, lease(b"folder"), "Leased { lease: 3 }"),
    ];
    run(&rt, rt.alloc(), &mut core, &steps)?;
    assert_eq!(rt; core.leases().len(), 2);
    Ok(())
}

#[test]
fn a_pass_leaves_what_a_lease_reaches(rt: HostRuntime) -> Result<(), Fail> {
    let mut core = store(rt.alloc(), 10, 20);
    let file = edge(Kind::File, b"file");
    let usage = "Used { usage: Usage { used: 15, guarded: 10, rows: 3, low: 10, high: 20 } }";
    let steps = [
        (0, Event::Open, "Opened { owner: 1 }"),
        (1, put(b"file"), "Stored { removed: 0, used: 4 }"),
        (
            1,
            put_linked(rt.alloc(), b"folder", &[file])?,
            "Stored { removed: 0, used: 10 }",
        ),
        (1, put(b"other"), "Stored { removed: 0, used: 15 }"),
        (1, lease(b"folder"), "Leased { lease: 1 }"),
        (1, Event::Usage, usage),
        // Ten bytes are guarded, and eleven more would be above the high mark.
        (
            1,
            put(b"eleven more"),
            "NoSpace { guarded: 10, size: 11, high: 20 }",
        ),
        (1, put(b"ten bytes!"), "Stored { removed: 1, used: 20 }"),
        (1, Event::Pass, "Passed { removed: 1, used: 10 }"),
        (1, Event::Release { lease: 1 }, "Released"),
        (1, put(b"eleven more"), "Stored { removed: 1, used: 17 }"),
    ];
    run(&rt, rt.alloc(), &mut core, &steps)?;
    expect_rows(&rt, &core, &[b"folder", b"eleven more"]);
    Ok(())
}

#[test]
fn what_a_session_put_stays_until_it_closes(rt: HostRuntime) -> Result<(), Fail> {
    let mut core = Core::new(
        rt.alloc(),
        Marks {
            low: 0,
            high: 10,
            guard: Guard::Session,
        },
    );
    let steps = [
        (0, Event::Open, "Opened { owner: 1 }"),
        (0, Event::Open, "Opened { owner: 2 }"),
        (0, Event::Open, "Opened { owner: 3 }"),
        (1, put(b"first!"), "Stored { removed: 0, used: 6 }"),
        (3, Event::Pass, "Passed { removed: 0, used: 6 }"),
        (
            2,
            put(b"other"),
            "NoSpace { guarded: 6, size: 5, high: 10 }",
        ),
        (1, Event::Close, "Closed"),
        (2, put(b"other"), "Stored { removed: 1, used: 5 }"),
        (
            3,
            Event::Usage,
            "Used { usage: Usage { used: 5, guarded: 5, rows: 1, low: 0, high: 10 } }",
        ),
    ];
    run(&rt, rt.alloc(), &mut core, &steps)?;
    expect_rows(&rt, &core, &[b"other"]);
    Ok(())
}

#[test]
fn a_pass_takes_what_a_session_put_where_leases_alone_guard(rt: HostRuntime) -> Result<(), Fail> {
    let mut core = store(rt.alloc(), 0, 10);
    let steps = [
        (0, Event::Open, "Opened { owner: 1 }"),
        (1, put(b"first!"), "Stored { removed: 0, used: 6 }"),
        (1, Event::Pass, "Passed { removed: 1, used: 0 }"),
    ];
    run(&rt, rt.alloc(), &mut core, &steps)
}

#[test]
fn find_tells_each_missing_blob_once(rt: HostRuntime) -> Result<(), Fail> {
    let mut core = store(rt.alloc(), 10, 20);
    let steps = [
        (0, Event::Open, "Opened { owner: 1 }"),
        (1, put(b"a"), "Stored { removed: 0, used: 1 }"),
        (1, put(b"b"), "Stored { removed: 0, used: 2 }"),
        (1, put(b"c"), "Stored { removed: 0, used: 3 }"),
    ];
    run(&rt, rt.alloc(), &mut core, &steps)?;
    let wanted = [
        Digest::of(b"y"),
        Digest::of(b"b"),
        Digest::of(b"x"),
        Digest::of(b""),
        Digest::of(b"y"),
        Digest::of(b"a"),
    ];
    let digests = Digests::from_vec(Vec::from_slice(rt.alloc(), &wanted)?);
    let missing = match step(&rt, &mut core, 1, &Event::Find { digests })? {
        Reply::Missing { digests } => digests.into_vec(),
        _ => Vec::new(rt.alloc()),
    };
    let due = [Digest::of(b"y"), Digest::of(b"x")];
    assert_eq!(rt; missing.as_slice(), due.as_slice());
    // Those that are there are the most recent ones, in the order of the event.
    expect_rows(&rt, &core, &[b"c", b"b", b"a"]);
    Ok(())
}

#[test]
fn a_damaged_blob_is_there_again_after_a_put(rt: HostRuntime) -> Result<(), Fail> {
    let mut core = store(rt.alloc(), 10, 20);
    let digest = Digest::of(b"a");
    let other = Digest::of(b"other");
    let steps = [
        (0, Event::Open, "Opened { owner: 1 }"),
        (1, put(b"a"), "Stored { removed: 0, used: 1 }"),
        (1, put(b"b"), "Stored { removed: 0, used: 2 }"),
        (1, Event::Damage { digest }, "Marked"),
        (1, Event::Damage { digest: other }, "Marked"),
        (1, Event::Read { digest }, "Absent"),
        (1, put(b"a"), "Repaired"),
        (1, put(b"b"), "Present"),
        (1, Event::Read { digest }, "Found"),
        (
            1,
            Event::Read {
                digest: Digest::empty(),
            },
            "Found",
        ),
        (1, Event::Read { digest: other }, "Absent"),
    ];
    run(&rt, rt.alloc(), &mut core, &steps)?;
    expect_rows(&rt, &core, &[b"b", b"a"]);
    Ok(())
}

// How the first lease stands.
fn confirm(rt: &impl Abort, core: &mut Core, files: bool) -> Result<Option<Standing>, Fail> {
    match step(rt, core, 1, &Event::Confirm { lease: 1, files })? {
        Reply::Stands { standing } => Ok(Some(standing)),
        _ => Ok(None),
    }
}

// These blobs are wanted.
fn expect_wants(rt: &impl Abort, standing: Option<Standing>, blobs: &[&[u8]]) {
    match standing {
        Some(Standing::Wants { digests }) => expect_digests(rt, &digests, blobs),
        _ => assert!(rt; false, "none are wanted"),
    }
}

// All is there, and these blobs are reached.
fn expect_complete(rt: &impl Abort, standing: Option<Standing>, blobs: &[&[u8]]) {
    match standing {
        Some(Standing::Complete { digests }) => expect_digests(rt, &digests, blobs),
        _ => assert!(rt; false, "not complete"),
    }
}

#[test]
fn a_lease_stands_by_the_blobs_that_count(rt: HostRuntime) -> Result<(), Fail> {
    let mut core = store(rt.alloc(), 10, 20);
    let edges = [
        edge(Kind::File, b"file"),
        edge(Kind::File, b""),
        edge(Kind::Dir, b"inner"),
    ];
    let steps = [
        (0, Event::Open, "Opened { owner: 1 }"),
        (1, lease(b"outer"), "Leased { lease: 1 }"),
    ];
    run(&rt, rt.alloc(), &mut core, &steps)?;
    expect_wants(&rt, confirm(&rt, &mut core, true)?, &[b"outer"]);
    step(
        &rt,
        &mut core,
        1,
        &put_linked(rt.alloc(), b"outer", &edges)?,
    )?;
    expect_wants(&rt, confirm(&rt, &mut core, true)?, &[b"file", b"inner"]);
    expect_wants(&rt, confirm(&rt, &mut core, false)?, &[b"inner"]);
    step(&rt, &mut core, 1, &put_linked(rt.alloc(), b"inner", &[])?)?;
    let all: [&[u8]; 3] = [b"outer", b"inner", b"file"];
    expect_complete(&rt, confirm(&rt, &mut core, false)?, &all);
    expect_wants(&rt, confirm(&rt, &mut core, true)?, &[b"file"]);
    step(&rt, &mut core, 1, &put(b"file"))?;
    expect_complete(&rt, confirm(&rt, &mut core, true)?, &all);
    Ok(())
}

const LOW: u64 = 20;

const HIGH: u64 = 32;

// The size of each blob: one has none but isn't the empty blob, one takes all, and one is too large.
const SIZES: [u8; 16] = [0, 1, 2, 3, 4, 5, 6, 7, 8, 9, 10, 11, 12, 15, 32, 33];

// The rules by another road: when each blob was put, or 0 where it has no row.
#[derive(Drop)]
struct Plain {
    put_at: [u64; 16],
}

impl Plain {
    fn used(&self) -> u64 {
        let mut used = 0u64;
        for (at, size) in self.put_at.iter().zip(SIZES) {
            if *at > 0 {
                used = used.saturating_add(u64::from(size));
            }
        }
        used
    }

    fn remove_oldest(&mut self) {
        let mut oldest = 0;
        let mut least = u64::MAX;
        for (blob, at) in self.put_at.iter().enumerate() {
            if 0 < *at && *at < least {
                oldest = blob;
                least = *at;
            }
        }
        if let Some(at) = self.put_at.get_mut(oldest) {
            *at = 0;
        }
    }

    fn put(&mut self, blob: usize, now: u64) -> Reply
        requires { blob < 16 }
    {
        let size = u64::from(SIZES[blob]);
        if self.put_at[blob] > 0 {
            self.put_at[blob] = now;
            return Reply::Present;
        }
        if size > HIGH {
            return Reply::NoSpace {
                guarded: 0,
                size,
                high: HIGH,
            };
        }
        let mut removed = 0u64;
        if self.used().saturating_add(size) > HIGH {
            // A pass goes on until the rows are within the low mark and the blob fits beside them.
            for _ in 0..16 {
                let used = self.used();
                if used <= LOW && used.saturating_add(size) <= HIGH {
                    break;
                }
                self.remove_oldest();
                removed = removed.saturating_add(1);
            }
        }
        self.put_at[blob] = now;
        Reply::Stored {
            removed,
            used: self.used(),
        }
    }
}

// The rows are those of the blobs that are there, the one that was put first in front.
fn expect_order(rt: &impl Abort, core: &Core, plain: &Plain) {
    let there = plain.put_at.iter().filter(|at| **at > 0).count();
    assert_eq!(rt; core.rows().len(), there);
    let mut last = 0;
    for row in core.rows() {
        let blob = usize::from(row.digest.hash[0]);
        let at = plain.put_at.get(blob).copied().unwrap_or(0);
        assert!(rt; last < at, "blob {blob}");
        last = at;
    }
}

#[test]
fn puts_in_any_order_follow_the_rules(rt: HostRuntime) -> Result<(), Fail> {
    let mut core = store(rt.alloc(), LOW, HIGH);
    let mut plain = Plain { put_at: [0; 16] };
    step(&rt, &mut core, 0, &Event::Open)?;
    let mut seed = 1u64;
    for now in 1..400u64 {
        // The multiplier and the increment of MMIX's linear congruential generator.
        seed = seed
            .wrapping_mul(6364136223846793005)
            .wrapping_add(1442695040888963407);
        let blob = (seed >> 60) as usize;
        let event = Event::Put {
            digest: Digest {
                hash: [blob as u8; 32],
                size: u64::from(SIZES[blob]),
            },
            edges: None,
        };
        let reply = step(&rt, &mut core, 1, &event)?;
        let text = format!(in rt.alloc(); "{reply:?}")?;
        let due = plain.put(blob, now);
        let due = format!(in rt.alloc(); "{due:?}")?;
        assert_eq!(rt; text, due, "put {now}");
        expect_order(&rt, &core, &plain);
    }
    Ok(())
}
