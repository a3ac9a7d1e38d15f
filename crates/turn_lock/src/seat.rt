//! `Seat`.

ghost use Rattle.std.specs.Prelude.{◌≡◌, ◌+◌, ◌≤◌, ◌^◌};
ghost use Rattle.store_core.specs.History.{Legal};
ghost use Rattle.turn_lock.specs.Views.{IsOwn};

use crate::kinds::TableSeat;
use std::marker::Model;

/// A seat at a lock: the right to take a number of turns. It knows a beginning of the history of all seats.
#[derive(Drop)]
pub struct Seat<S> {
    pub(crate) raw: TableSeat<S>,
    pub(crate) left: u64,
    pub(crate) made: u64,
    pub(crate) owner: Option<u64>,
}

impl<S> Model for Seat<S> {
    ghost use Rattle.turn_lock.specs.Seats.{AtLock, IsSeat};

    ghost Value = { AtLock };

    ghost view = { λ s. record { lock = s.raw.table_id; view = s.raw.me.0 } };

    ghost invariant = { λ s. IsSeat s.raw.me s.left s.made s.owner };
}

impl<S> Seat<S> {
    /// How many turns it may still take. It takes no memory and never waits.
    pub fn left(&self) -> u64
        ensures left { result ≡ self.now.view.left }
        ensures most { self.now.view.left ≤ 2 ^ 63 }
        // The entries made and the turns left are no more than the turns given.
        ensures budget { self.now.view.made + self.now.view.left ≤ self.now.view.grant }
        // What it has seen is a legal history.
        ensures legal { Legal self.now.view.start self.now.view.seen }
        // The entries of its owner in it are its own.
        ensures own { IsOwn self.now.view }
    {
        self.left
    }

    /// How many entries it and the seats that it took in have made. It takes no memory and never waits.
    pub fn made(&self) -> u64
        ensures { result ≡ self.now.view.made }
    {
        self.made
    }

    /// Its owner, if it has had one. It takes no memory and never waits.
    pub fn owner(&self) -> Option<u64>
        ensures { result ≡ self.now.view.owner }
    {
        self.owner
    }
}
