//! The program `lock_bench`. `turns THREADS N` takes and gives back N turns in each of so many threads; `lock N` and `bench N`
//! put one blob N times, through a door at a lock and through a bench.
#![tactic(auto)]

ghost use Rattle.std.specs.Prelude.{◌≡◌, ◌≤◌, ◌+◌, ◌*◌, ◌<◌, ◌^◌, [], false, All, IfOk, IfSome, IsTrue};
ghost use Rattle.store_core.specs.State.{new_state};
ghost use Rattle.store_core.specs.declared.state.Guard.TheVariants as guards;
ghost use Rattle.turn_lock.specs.Seats.{IsIdle};
ghost use Rattle.blob_store.specs.Doors.{GoesOn};
ghost use Rattle.blob_store.specs.View.{MayCall, own_now};
ghost use Rattle.lock_bench.specs.Waiting.{MayTake};

use blob_store::{Bench, Checked, Door, Filling, Gate, LockDoor, MemShelf, Store};
use std::alloc::{AllocError, Global};
use std::process::ExitCode;
use std::sync::Wait;
use std::thread::Threads;
use std::{env, thread};
use store_core::{Guard, Marks};
use turn_lock::{Seat, Stands, TurnLock};

/// It stands for an empty store.
#[derive(Drop)]
struct Empty {
    count: u64,
}

impl Stands for Empty {
    ghost use Rattle.store_core.specs.State.{new_state};
    ghost use Rattle.store_core.specs.declared.state.Guard.TheVariants as guards;

    ghost state = { λ _. new_state 10 20 guards.Leases };
}

/// How many turns a seat is given.
const TURNS: u64 = 1 << 32;

// Takes so many turns, in each of which the value is changed.
fn turns<R: Wait>(rt: &R, lock: &TurnLock<Empty>, seat: Seat<Empty>, count: u32)
    requires { MayTake TURNS lock.now seat }
{
    let mut seat = seat;
    for i in 0..count {
        let mut turn = lock.take(rt, &mut seat);
        let value = turn.value();
        value.count = value.count.wrapping_add(u64::from(i));
        lock.give_back(&mut seat, turn);
    }
}

// So many seats.
fn seats(
    alloc: Global,
    lock: &TurnLock<Empty>,
    first: &mut Seat<Empty>,
    threads: u32,
) -> Result<Vec<Seat<Empty>>, AllocError>
    requires lock { first.old.lock ≡ lock.now }
    requires idle { IsIdle first.old }
    requires left { 2 ^ 62 < first.old.view.left }
    requires few { threads ≤ 1000 }
    ensures { IfOk result (λ v. All (MayTake TURNS lock.now) v.items) }
{
    let mut seats = Vec::with_capacity(alloc, threads as usize)?;
    for _ in 0..threads {
        seats.push(lock.seat(first, TURNS))?;
    }
    Ok(seats)
}

// Each thread takes so many turns at once.
fn run<R: Wait + Threads + Sync>(
    rt: &R,
    lock: &TurnLock<Empty>,
    seats: Vec<Seat<Empty>>,
    count: u32,
) -> Result<(), AllocError>
    requires { All (MayTake TURNS lock.now) seats.items }
{
    thread::map_vec(rt, seats, &|seat| turns(rt, lock, seat, count))?;
    Ok(())
}

/// A gate that hears nothing.
#[derive(Drop)]
struct Silent {
    rings: u64,
}

impl Gate for Silent {
    ghost rings = { λ g. g.rings };

    fn ring(&mut self) {
        self.rings += 1;
    }
}

// A body of 64 bytes.
fn body(alloc: Global, shelf: &mut MemShelf) -> Option<Checked<MemShelf>> {
    let mut filling = Filling::new(alloc, shelf).ok()?;
    if filling.add(shelf, &[7; 64]).is_err() {
        filling.give_up(shelf);
        return None;
    }
    filling.finish(shelf).ok()
}

// Puts one blob, and answers whether there was memory for it.
fn put_one<D: Door<MemShelf>>(alloc: Global, door: &mut D, shelf: &mut MemShelf) -> bool
    requires call { MayCall (D.view door.old) }
    requires none { own_now (D.view door.old) ≡ [] }
    ensures { IsTrue result → GoesOn (D.view door.old) (D.view door.new) 1 }
{
    let Some(blob) = body(alloc, shelf) else {
        return false;
    };
    let Ok(_) = door.put(shelf, blob) else {
        return false;
    };
    true
}

// Enters, puts one blob so many times and leaves. It answers whether there was memory for it.
fn puts<D: Door<MemShelf>>(alloc: Global, door: &mut D, count: u32) -> bool
    requires out { (D.view door.old).entered ≡ false }
    requires left { 2 ^ 62 < (D.view door.old).left }
{
    let mut shelf = MemShelf::new(alloc, Vec::new(alloc), Vec::new(alloc), Vec::new(alloc));
    if door.enter().is_err() {
        return false;
    }
    for _ in 0..count {
        if !put_one(alloc, door, &mut shelf) {
            return false;
        }
    }
    door.leave();
    true
}

// A store with the marks of a daemon.
fn store(alloc: Global) -> Option<Store<MemShelf>>
    ensures { IfSome result (λ s. s.state ≡ new_state 1610612736 2147483648 guards.Leases) }
{
    let marks = Marks {
        low: 1_610_612_736,
        high: 2_147_483_648,
        guard: Guard::Leases,
    };
    Store::new(alloc, marks).ok()
}

fn puts_at_lock<R: Wait>(rt: &R, alloc: Global, count: u32) -> Option<bool> {
    let store = store(alloc)?;
    let (lock, seat) = TurnLock::new(alloc, store).ok()?;
    let mut door = LockDoor::new(alloc, rt, &lock, seat, Silent { rings: 0 });
    Some(puts(alloc, &mut door, count))
}

fn puts_at_bench(alloc: Global, count: u32) -> Option<bool> {
    let store = store(alloc)?;
    let mut bench = Bench::new(alloc, store, 1).ok()?;
    Some(puts(alloc, &mut bench, count))
}

fn turns_of<R: Wait + Threads + Sync>(
    rt: &R,
    alloc: Global,
    threads: u32,
    count: u32,
) -> Option<bool>
    requires { threads ≤ 1000 }
{
    let (lock, mut first) = TurnLock::new(alloc, Empty { count: 0 }).ok()?;
    let seats = seats(alloc, &lock, &mut first, threads).ok()?;
    Some(run(rt, &lock, seats, count).is_ok())
}

// The number of a word, or 1, and at most so much.
fn number(word: Option<String>, most: u32) -> u32
    ensures { result ≤ most }
{
    match word {
        Some(word) => word.parse::<u32>().unwrap_or(1).min(most),
        None => most.min(1),
    }
}

fn main(rt: HostRuntime) -> ExitCode {
    let Ok(mut words) = env::args(&rt) else {
        return ExitCode::from(2);
    };
    words.next();
    let kind = words.next();
    let first = number(words.next(), 100_000_000);
    let second = number(words.next(), 100_000_000);
    let done = match kind.as_ref().map(|kind| kind.as_str()) {
        Some("turns") => turns_of(&rt, rt.alloc(), first.min(1_000), second),
        Some("lock") => puts_at_lock(&rt, rt.alloc(), first),
        Some("bench") => puts_at_bench(rt.alloc(), first),
        _ => None,
    };
    match done {
        Some(true) => ExitCode::SUCCESS,
        _ => ExitCode::FAILURE,
    }
}
