//! Where threads wait. Nothing here decides whose turn it is: that is told by the tickets in the lock's table alone, and a
//! thread that was woken looks there again. So no contract is owed here but that each call is safe.
//!
//! A thread that finds the lock free draws a ticket, which is mostly due at once. The others come in by the `Entrance`, one
//! at a time, and that one waits until the lock is free before it draws. For a thread that slept with a ticket would keep all
//! behind it asleep, and each turn would cost a wake.

use std::hint;
use std::sync::Wait;
use std::sync::atomic::{AtomicU64, Ordering};

/// How often a thread looks before it sleeps.
const LOOKS: u32 = 100;

/// Nobody is inside, or nobody sleeps.
const FREE: u64 = 0;

/// One is inside.
const TAKEN: u64 = 1;

/// Others may sleep until somebody wakes one.
const AWAITED: u64 = 2;

/// One thread goes in at a time; the others look for a while, and then sleep.
#[derive(Drop)]
pub(crate) struct Entrance {
    state: AtomicU64,
}

impl Entrance {
    pub(crate) fn new() -> Entrance {
        Entrance {
            state: AtomicU64::new(FREE),
        }
    }

    /// Goes in. It makes no system call where nobody is inside.
    pub(crate) fn enter<R: Wait>(&self, rt: &R) {
        if self.is_left() && self.try_enter() {
            return;
        }
        // Whoever slept leaves the mark that others may sleep, since it can't know.
        for _ in rt.forever() {
            if self.state.swap(AWAITED, Ordering::SeqCst) == FREE {
                return;
            }
            self.state.park(rt, AWAITED as u32);
            self.is_left();
        }
    }

    /// Leaves, and wakes one that sleeps. It makes no system call where nobody does.
    pub(crate) fn leave(&self) {
        if self.state.swap(FREE, Ordering::SeqCst) == AWAITED {
            self.state.wake_one();
        }
    }

    fn try_enter(&self) -> bool {
        self.state
            .compare_exchange(FREE, TAKEN, Ordering::SeqCst, Ordering::SeqCst)
            .is_ok()
    }

    // Looks a number of times whether nobody is inside. Where others sleep already it looks no longer.
    fn is_left(&self) -> bool {
        for _ in 0..LOOKS {
            match self.state.load(Ordering::SeqCst) {
                TAKEN => hint::spin_loop(),
                state => return state == FREE,
            }
        }
        false
    }
}

/// Where threads sleep until something has come about that they look for themselves.
#[derive(Drop)]
pub(crate) struct Rest {
    state: AtomicU64,
}

impl Rest {
    pub(crate) fn new() -> Rest {
        Rest {
            state: AtomicU64::new(FREE),
        }
    }

    /// What a thread does after it has looked so often in vain: nothing much for a while, then it leaves a mark and looks
    /// once more, and then it sleeps, unless the mark was taken away since. It answers how often it has looked then.
    pub(crate) fn pause<R: Wait>(&self, rt: &R, looks: u32) -> u32 {
        if looks < LOOKS {
            hint::spin_loop();
            return looks + 1;
        }
        if looks == LOOKS {
            self.state.swap(AWAITED, Ordering::SeqCst);
            return looks + 1;
        }
        self.state.park(rt, AWAITED as u32);
        0
    }

    /// Wakes those that sleep, and takes the mark away. It makes no system call if nobody sleeps.
    pub(crate) fn wake(&self) {
        if self.state.load(Ordering::SeqCst) == AWAITED {
            self.state.store(FREE, Ordering::SeqCst);
            self.state.wake_all();
        }
    }
}
