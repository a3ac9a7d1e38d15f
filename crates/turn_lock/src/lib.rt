//! Turns at the store, and what happened in them as one history. A `TurnLock` gives the store to one of many seats at a time,
//! and each seat knows the history up to its last turn, with its own entries in it; a `Diary` has the entries of one holder
//! without a lock. A history stands in the proofs alone: a program keeps counts.
#![tactic(auto)]

mod diary;
mod entrance;
mod kinds;
mod lock;
mod phase;
mod seat;
mod stands;
mod steps;

pub use diary::Diary;
pub use lock::{Turn, TurnLock};
pub use phase::Phase;
pub use seat::Seat;
pub use stands::Stands;

#[cfg(test)]
mod tests;
