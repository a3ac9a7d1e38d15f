//! Worked examples of a bench of three seats over the shelf in memory: each call of its door, by a table of steps.

ghost use Rattle.std.specs.Prelude.{◌≡◌, ◌<◌, ◌≤◌, [], length, IfOk, OnOk};
ghost use Rattle.blob_store.specs.Benched.{view_of};
ghost use Rattle.blob_store.specs.View.{MayCall, own_now};

use crate::callers::{leased_read, put_then_find};
use crate::store_tests::{body, digest};
use blob_store::{Bench, Door, MemShelf, Passed, PutReply, Reading, ReadingEnd, Store};
use digest_types::{Digest, Digests};
use directory_canon::Kind;
use std::alloc::Global;
use std::process::Abort;
use std::test::*;
use store_core::{Guard, Marks, Standing};

// A Directory with one file, "a", of the bytes "abc".
const FOLDER: &[u8] =
    b"\x0a\x49\x0a\x01a\x12\x44\x0a\x40ba7816bf8f01cfea414140de5dae2223b00361a396177a9cb410ff61f20015ad\x10\x03";

// What is done at a seat, with the bytes of a blob.
#[derive(Clone, Copy)]
enum Act<'a> {
    Enter,
    Put(&'a [u8]),
    Find(&'a [u8]),
    Read(&'a [u8]),
    Lease(&'a [u8]),
    Damage(&'a [u8]),
    Pass,
    Usage,
    /// An owner comes, takes a lease on a Directory, looks how it stands with its files, gives it up and goes.
    Visit(&'a [u8]),
    /// What any door's caller does: a put and a find, and a read under a lease.
    PutThenFind(&'a [u8]),
    LeasedRead(&'a [u8]),
}

// Three seats at an empty store with these marks.
fn three_seats(rt: &impl Abort, alloc: Global, marks: Marks) -> Result<Bench<MemShelf>, Fail>
    ensures { IfOk result (λ bench. length bench.seats ≡ 3) }
{
    assert!(rt; marks.low <= marks.high);
    assert!(rt; marks.high <= 1000);
    let store = Store::new(alloc, marks)?;
    Ok(Bench::new(alloc, store, 3)?)
}

fn text(alloc: Global, words: &str) -> Result<String, Fail> {
    Ok(String::from_str(alloc, words)?)
}

// The owner of the chosen seat is there, and turns are left.
fn ready(rt: &impl Abort, bench: &Bench<MemShelf>)
    ensures { MayCall (view_of bench.now) }
{
    assert!(rt; bench.is_entered());
    assert!(rt; bench.left() > 0);
}

// An owner comes to the chosen seat.
#[tactic(auto, using(crate::proofs::VisitLaws::none_at_first, blob_store::proofs::BenchLaws::enters_as_many, blob_store::proofs::BenchLaws::stays_as_many))]
fn come(rt: &impl Abort, bench: &mut Bench<MemShelf>) -> Result<(), Fail>
    ensures len { length bench.new.seats ≡ length bench.old.seats }
    ensures none { OnOk result (own_now (view_of bench.new) ≡ []) }
{
    assert!(rt; !bench.is_entered());
    assert!(rt; bench.left() > 0);
    Ok(bench.enter()?)
}

#[tactic(auto, using(blob_store::proofs::BenchLaws::makes_as_many, blob_store::proofs::BenchLaws::turns_as_many))]
fn put(
    rt: &impl Abort,
    alloc: Global,
    bench: &mut Bench<MemShelf>,
    shelf: &mut MemShelf,
    bytes: &[u8],
) -> Result<String, Fail>
    ensures { length bench.new.seats ≡ length bench.old.seats }
{
    let blob = body(rt, alloc, shelf, bytes)?;
    ready(rt, bench);
    let reply = bench.put(shelf, blob)?;
    Ok(format!(in alloc; "{reply:?}")?)
}

#[tactic(auto, using(blob_store::proofs::BenchLaws::makes_as_many, blob_store::proofs::BenchLaws::turns_as_many))]
fn find(
    rt: &impl Abort,
    alloc: Global,
    bench: &mut Bench<MemShelf>,
    bytes: &[u8],
) -> Result<String, Fail>
    ensures { length bench.new.seats ≡ length bench.old.seats }
{
    let asked = [digest(rt, bytes)];
    let digests = Digests::from_vec(Vec::from_slice(alloc, &asked)?);
    ready(rt, bench);
    let missing = bench.find(&digests)?;
    let words = if missing.as_slice() == asked.as_slice() {
        "missing"
    } else {
        "not missing"
    };
    text(alloc, words)
}

// What a reading gives, compared with these bytes.
fn what_it_gives(shelf: &mut MemShelf, reading: Reading<MemShelf>, bytes: &[u8]) -> &'static str {
    let mut reading = reading;
    let mut buf = [0u8; 100];
    match reading.next(shelf, &mut buf) {
        Ok(count) if buf.get(..count) == Some(bytes) => match reading.next(shelf, &mut buf) {
            Ok(0) => "its bytes",
            _ => "more than its bytes",
        },
        _ => "other bytes",
    }
}

#[tactic(auto, using(blob_store::proofs::BenchLaws::makes_as_many, blob_store::proofs::BenchLaws::turns_as_many))]
fn read(
    rt: &impl Abort,
    alloc: Global,
    bench: &mut Bench<MemShelf>,
    shelf: &mut MemShelf,
    bytes: &[u8],
) -> Result<String, Fail>
    ensures { length bench.new.seats ≡ length bench.old.seats }
{
    let digest = digest(rt, bytes);
    ready(rt, bench);
    match bench.read(shelf, &digest).ok().ok_or("no reader")? {
        Some(reading) => text(alloc, what_it_gives(shelf, reading, bytes)),
        None => text(alloc, "not there"),
    }
}

#[tactic(auto, using(blob_store::proofs::BenchLaws::makes_as_many, blob_store::proofs::BenchLaws::turns_as_many))]
fn lease(
    rt: &impl Abort,
    alloc: Global,
    bench: &mut Bench<MemShelf>,
    bytes: &[u8],
) -> Result<String, Fail>
    ensures { length bench.new.seats ≡ length bench.old.seats }
{
    let root = digest(rt, bytes);
    ready(rt, bench);
    let id = bench.lease(&root, Kind::File)?;
    Ok(format!(in alloc; "lease {id}")?)
}

#[tactic(auto, using(blob_store::proofs::BenchLaws::makes_as_many, blob_store::proofs::BenchLaws::turns_as_many))]
fn damage(
    rt: &impl Abort,
    alloc: Global,
    bench: &mut Bench<MemShelf>,
    bytes: &[u8],
) -> Result<String, Fail>
    ensures { length bench.new.seats ≡ length bench.old.seats }
{
    let digest = digest(rt, bytes);
    ready(rt, bench);
    bench.damage(&digest);
    text(alloc, "marked")
}

#[tactic(auto, using(blob_store::proofs::BenchLaws::makes_as_many, blob_store::proofs::BenchLaws::turns_as_many))]
fn pass(
    rt: &impl Abort,
    alloc: Global,
    bench: &mut Bench<MemShelf>,
    shelf: &mut MemShelf,
) -> Result<String, Fail>
    ensures { length bench.new.seats ≡ length bench.old.seats }
{
    ready(rt, bench);
    let Passed { removed, used } = bench.pass(shelf);
    Ok(format!(in alloc; "{removed} removed, {used} used")?)
}

#[tactic(auto, using(blob_store::proofs::BenchLaws::makes_as_many, blob_store::proofs::BenchLaws::turns_as_many))]
fn usage(rt: &impl Abort, alloc: Global, bench: &mut Bench<MemShelf>) -> Result<String, Fail>
    ensures { length bench.new.seats ≡ length bench.old.seats }
{
    ready(rt, bench);
    let usage = bench.usage();
    assert_eq!(rt; usage, bench.store_usage());
    let (used, guarded, rows) = (usage.used, usage.guarded, usage.rows);
    Ok(format!(in alloc; "{used} used, {guarded} guarded, {rows} rows")?)
}

#[tactic(auto, using(blob_store::proofs::BenchLaws::leaves_as_many))]
fn leave(rt: &impl Abort, bench: &mut Bench<MemShelf>)
    requires { own_now (view_of bench.old) ≡ [] }
    ensures { length bench.new.seats ≡ length bench.old.seats }
{
    ready(rt, bench);
    bench.leave();
}

// Takes a lease on a Directory, looks how it stands with its files, and gives it up.
#[tactic(auto, using(blob_store::proofs::BenchLaws::makes_as_many, blob_store::proofs::BenchLaws::turns_as_many))]
fn hold(rt: &impl Abort, bench: &mut Bench<MemShelf>, root: &Digest) -> Result<Standing, Fail>
    requires { own_now (view_of bench.old) ≡ [] }
    ensures none { OnOk result (own_now (view_of bench.new) ≡ []) }
    ensures len { length bench.new.seats ≡ length bench.old.seats }
{
    ready(rt, bench);
    let id = bench.lease(root, Kind::Dir)?;
    ready(rt, bench);
    let standing = bench.confirm(id, true)?;
    ready(rt, bench);
    bench.release(id);
    Ok(standing)
}

fn standing_text(alloc: Global, standing: &Standing) -> Result<String, Fail> {
    match standing {
        Standing::Complete { digests } => {
            let count = digests.len();
            Ok(format!(in alloc; "complete with {count}")?)
        }
        Standing::Wants { digests } => {
            let count = digests.len();
            Ok(format!(in alloc; "wants {count}")?)
        }
        Standing::NotDirectory { .. } => text(alloc, "not a Directory"),
        Standing::TooMany | Standing::TooDeep => text(alloc, "too large"),
    }
}

fn visit(
    rt: &impl Abort,
    alloc: Global,
    bench: &mut Bench<MemShelf>,
    bytes: &[u8],
) -> Result<String, Fail>
    ensures { length bench.new.seats ≡ length bench.old.seats }
{
    let root = digest(rt, bytes);
    come(rt, bench)?;
    let standing = hold(rt, bench, &root)?;
    leave(rt, bench);
    standing_text(alloc, &standing)
}

#[tactic(auto, using(crate::proofs::VisitBenchLaws::puts_as_many))]
fn put_and_find(
    rt: &impl Abort,
    alloc: Global,
    bench: &mut Bench<MemShelf>,
    shelf: &mut MemShelf,
    bytes: &[u8],
) -> Result<String, Fail>
    ensures { length bench.new.seats ≡ length bench.old.seats }
{
    let blob = body(rt, alloc, shelf, bytes)?;
    ready(rt, bench);
    assert!(rt; bench.left() >= 2);
    let all = put_then_find(bench, shelf, blob, alloc)?;
    Ok(format!(in alloc; "{all}")?)
}

#[tactic(auto, using(crate::proofs::VisitBenchLaws::visits_as_many))]
fn read_leased(
    rt: &impl Abort,
    alloc: Global,
    bench: &mut Bench<MemShelf>,
    shelf: &mut MemShelf,
    bytes: &[u8],
) -> Result<String, Fail>
    ensures { length bench.new.seats ≡ length bench.old.seats }
{
    let root = digest(rt, bytes);
    assert!(rt; !bench.is_entered());
    assert!(rt; bench.left() >= 5);
    let found = leased_read(bench, shelf, &root).ok().ok_or("refused")?;
    Ok(format!(in alloc; "{found}")?)
}

// Does one thing at the chosen seat.
fn take_step(
    rt: &impl Abort,
    alloc: Global,
    bench: &mut Bench<MemShelf>,
    shelf: &mut MemShelf,
    does: Act,
) -> Result<String, Fail>
    ensures { length bench.new.seats ≡ length bench.old.seats }
{
    match does {
        Act::Enter => {
            come(rt, bench)?;
            text(alloc, "entered")
        }
        Act::Put(bytes) => put(rt, alloc, bench, shelf, bytes),
        Act::Find(bytes) => find(rt, alloc, bench, bytes),
        Act::Read(bytes) => read(rt, alloc, bench, shelf, bytes),
        Act::Lease(bytes) => lease(rt, alloc, bench, bytes),
        Act::Damage(bytes) => damage(rt, alloc, bench, bytes),
        Act::Pass => pass(rt, alloc, bench, shelf),
        Act::Usage => usage(rt, alloc, bench),
        Act::Visit(bytes) => visit(rt, alloc, bench, bytes),
        Act::PutThenFind(bytes) => put_and_find(rt, alloc, bench, shelf, bytes),
        Act::LeasedRead(bytes) => read_leased(rt, alloc, bench, shelf, bytes),
    }
}

// These marks, where leases alone guard.
fn leased(low: u64, high: u64) -> Marks
    requires ordered { low ≤ high }
    requires small { high ≤ 1000 }
{
    Marks {
        low,
        high,
        guard: Guard::Leases,
    }
}

// Takes each step in turn at a bench with these marks: at which seat, what is done, and what is answered.
fn run(
    rt: &impl Abort,
    alloc: Global,
    marks: Marks,
    steps: &[(usize, Act, &str)],
) -> Result<(), Fail> {
    let mut bench = three_seats(rt, alloc, marks)?;
    let mut shelf = MemShelf::new(alloc, Vec::new(alloc), Vec::new(alloc), Vec::new(alloc));
    'steps: for (seat, does, due) in steps {
        assert!(rt; *seat < 3);
        bench.choose(*seat);
        let answer = take_step(rt, alloc, &mut bench, &mut shelf, *does)?;
        assert_eq!(rt; answer.as_str(), *due);
    }
    Ok(())
}

#[test]
fn what_one_seat_puts_another_finds_and_reads(rt: HostRuntime) -> Result<(), Fail> {
    let steps = [
        (0, Act::Enter, "entered"),
        (2, Act::Enter, "entered"),
        (0, Act::Put(b"abc"), "Stored { removed: 0, used: 3 }"),
        (2, Act::Find(b"abc"), "not missing"),
        (2, Act::Find(b"abd"), "missing"),
        (2, Act::Read(b"abc"), "its bytes"),
        (2, Act::Read(b"abd"), "not there"),
    ];
    run(&rt, rt.alloc(), leased(10, 20), &steps)
}

#[test]
fn a_put_answers_by_what_is_there(rt: HostRuntime) -> Result<(), Fail> {
    let large = b"a body of 21 letters.";
    let no_space = "NoSpace { guarded: 0, size: 21, high: 20 }";
    let steps = [
        (0, Act::Enter, "entered"),
        (0, Act::Put(b"abc"), "Stored { removed: 0, used: 3 }"),
        (0, Act::Put(b"abc"), "Present"),
        (0, Act::Damage(b"abc"), "marked"),
        (0, Act::Read(b"abc"), "not there"),
        (0, Act::Put(b"abc"), "Repaired"),
        (0, Act::Read(b"abc"), "its bytes"),
        (0, Act::Put(large), no_space),
    ];
    run(&rt, rt.alloc(), leased(10, 20), &steps)
}

#[test]
fn a_lease_of_one_seat_stands_against_the_passes_of_another(rt: HostRuntime) -> Result<(), Fail> {
    let steps = [
        (0, Act::Enter, "entered"),
        (0, Act::Put(b"abc"), "Stored { removed: 0, used: 3 }"),
        (0, Act::Put(b"de"), "Stored { removed: 0, used: 5 }"),
        (0, Act::Lease(b"abc"), "lease 1"),
        (1, Act::Enter, "entered"),
        (1, Act::Usage, "5 used, 3 guarded, 2 rows"),
        (1, Act::Pass, "1 removed, 3 used"),
        (1, Act::Usage, "3 used, 3 guarded, 1 rows"),
        (1, Act::Find(b"de"), "missing"),
    ];
    run(&rt, rt.alloc(), leased(0, 20), &steps)
}

#[test]
fn an_owner_comes_and_goes_and_leaves_what_others_hold(rt: HostRuntime) -> Result<(), Fail> {
    let steps = [
        (0, Act::Enter, "entered"),
        (0, Act::Put(b"abc"), "Stored { removed: 0, used: 3 }"),
        (0, Act::Lease(b"abc"), "lease 1"),
        (1, Act::Visit(b"abc"), "not a Directory"),
        (1, Act::Visit(b""), "complete with 0"),
        (1, Act::Visit(FOLDER), "wants 1"),
        (0, Act::Put(FOLDER), "Stored { removed: 0, used: 78 }"),
        (1, Act::Visit(FOLDER), "complete with 2"),
        (0, Act::Damage(b"abc"), "marked"),
        (1, Act::Visit(FOLDER), "wants 1"),
        (0, Act::Usage, "78 used, 3 guarded, 2 rows"),
    ];
    run(&rt, rt.alloc(), leased(10, 100), &steps)
}

#[test]
fn a_caller_of_any_door_calls_at_a_bench(rt: HostRuntime) -> Result<(), Fail> {
    let steps = [
        (0, Act::Enter, "entered"),
        (0, Act::PutThenFind(b"abc"), "true"),
        (1, Act::LeasedRead(b"abc"), "true"),
        (1, Act::LeasedRead(b"abd"), "false"),
        (0, Act::Usage, "3 used, 0 guarded, 1 rows"),
    ];
    run(&rt, rt.alloc(), leased(10, 20), &steps)
}

#[test]
fn a_session_guards_what_its_seat_put(rt: HostRuntime) -> Result<(), Fail> {
    let steps = [
        (0, Act::Enter, "entered"),
        (1, Act::Enter, "entered"),
        (0, Act::Put(b"abcdef"), "Stored { removed: 0, used: 6 }"),
        (1, Act::Pass, "0 removed, 6 used"),
        (
            1,
            Act::Put(b"12345"),
            "NoSpace { guarded: 6, size: 5, high: 10 }",
        ),
        (1, Act::Usage, "6 used, 6 guarded, 1 rows"),
    ];
    let marks = Marks {
        low: 0,
        high: 10,
        guard: Guard::Session,
    };
    run(&rt, rt.alloc(), marks, &steps)
}
