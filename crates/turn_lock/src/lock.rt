//! `TurnLock`.

ghost use Rattle.std.specs.Prelude.{◌≡◌, ◌<◌, ◌^◌, [], length, IfOk, Some};
ghost use Rattle.std.specs.Borrow.{sem};
ghost use Rattle.turn_lock.specs.Lending.{LendsValue};
ghost use Rattle.turn_lock.specs.Views.{first_view, state_of, stays, fresh};
ghost use Rattle.turn_lock.specs.Seats.{IsIdle, IsInTurn, author, MayGive, Takes, Gives, GivesBack, Joined, HasLeft};

use crate::entrance::{Entrance, Rest};
use crate::kinds::{LockRule, SeatView};
use crate::seat::Seat;
use crate::stands::Stands;
use atomic_table::{Refused, Table};
use proto_wire::OutOfMemory;
use std::alloc::Global;
use std::marker::{Brand, Model};
use std::snapshot::Snapshot;
use std::sync::Wait;
use store_core::{Event, Reply};

/// A lock round a value, whose turns come in the order of tickets.
#[derive(Drop)]
pub struct TurnLock<S: Stands> {
    pub(crate) table: Table<Option<S>, SeatView, Snapshot<S>, LockRule<S>, Global>,
    pub(crate) entrance: Entrance,
    // where one sleeps until no ticket is out, and where those sleep that wait for theirs
    pub(crate) free: Rest,
    pub(crate) due: Rest,
}

impl<S: Stands> Model for TurnLock<S> {
    ghost use Rattle.std.specs.Prelude.{◌≡◌};
    ghost use Rattle.atomic_table.specs.Seated.{TableId};

    // which lock it is
    ghost Value = { TableId };

    ghost view = { λ l. l.table.shared.table_id };

    ghost invariant = { λ l. (l.table.shared.table_id.words ≡ 2) × (l.table.shared.table_id.slots ≡ 1) };
}

/// A turn: the value, out of the lock, and the turn's number.
pub struct Turn<S> {
    pub(crate) value: S,
    pub(crate) ticket: u64,
}

impl<S> Turn<S> {
    /// The value.
    pub fn value(&mut self) -> &mut S
        ensures* writes_back { sem 𝓛 (LendsValue S.row self.entry result) }
        ensures value { result.now ≡ self.old.value }
    {
        &mut self.value
    }
}

// Whose entry it is.
fn author_of(owner: Option<u64>, event: &Event, reply: &Reply) -> Option<u64>
    ensures { result ≡ author owner event.now reply.now }
{
    match event {
        Event::Open => match reply {
            Reply::Opened { owner } => Some(*owner),
            _ => None,
        },
        _ => owner,
    }
}

impl<S: Stands> TurnLock<S> {
    /// A new seat, to which another gives `turns` of its turns. It has seen what that one has seen.
    pub fn seat(&self, from: &mut Seat<S>, turns: u64) -> Seat<S>
        requires lock { from.old.lock ≡ self.now }
        requires idle { IsIdle from.old }
        requires turns { (0 < turns) × (turns < from.old.view.left) }
        ensures old { from.new ≡ record from.old { view = stays turns from.old.view } }
        ensures new { result ≡ record from.old { view = fresh turns from.old.view } }
    {
        let raw = self.cut::<Brand>(&mut from.raw, turns);
        from.left -= turns;
        Seat {
            raw,
            left: turns,
            made: 0,
            owner: None,
        }
    }

    /// Waits for a turn, and takes the value out.
    pub fn take<R: Wait>(&self, rt: &R, seat: &mut Seat<S>) -> Turn<S>
        requires lock { seat.old.lock ≡ self.now }
        requires idle { IsIdle seat.old }
        requires left { 0 < seat.old.view.left }
        ensures taken { Takes seat.old seat.new result.ticket }
        ensures value { S.state result.value ≡ state_of seat.new.view }
    {
        let turn = self.take_out(rt, &mut seat.raw);
        seat.left -= 1;
        turn
    }

    /// Ends a turn that made one entry: the event, and the reply that the step gave.
    pub fn give(&self, seat: &mut Seat<S>, turn: Turn<S>, event: &Event, reply: &Reply)
        requires lock { seat.old.lock ≡ self.now }
        requires turn { IsInTurn turn.ticket seat.old }
        requires may { MayGive seat.old.view event.now reply.now (S.state turn.value) }
        ensures given { Gives seat.old seat.new event.now reply.now }
    {
        let owner = author_of(seat.owner, event, reply).unwrap();
        self.enter::<Brand>(&mut seat.raw, owner, event, reply);
        self.put_back(&mut seat.raw, turn);
        seat.made += 1;
        seat.owner = Some(owner);
    }

    /// Ends a turn without an entry.
    pub fn give_back(&self, seat: &mut Seat<S>, turn: Turn<S>)
        requires lock { seat.old.lock ≡ self.now }
        requires turn { IsInTurn turn.ticket seat.old }
        requires value { S.state turn.value ≡ state_of seat.old.view }
        ensures given { GivesBack seat.old seat.new }
    {
        self.put_back(&mut seat.raw, turn);
    }

    /// Takes in a seat whose owner, if it has one, has left, with its turns.
    pub fn join(&self, into: &mut Seat<S>, from: Seat<S>)
        requires locks { (into.old.lock ≡ self.now) × (from.lock ≡ self.now) }
        requires idle { IsIdle into.old × IsIdle from }
        requires gone { HasLeft from.view }
        ensures joined { Joined into.old from into.new }
    {
        let Seat {
            raw,
            left,
            made,
            owner: _,
        } = from;
        self.unite(&mut into.raw, raw);
        into.left += left;
        into.made += made;
    }
}

impl<S: Stands + Drop> TurnLock<S> {
    /// A lock round a value, with its first seat, which has 2^63 turns. The history begins at the state that the value
    /// stands for.
    pub fn new(alloc: Global, value: S) -> Result<(TurnLock<S>, Seat<S>), OutOfMemory>
        ensures { IfOk result (λ r. r.1 ≡ record { lock = r.0; view = first_view (S.state value) }) }
    {
        let start = Snapshot::of(&value);
        let mut slots = Vec::with_capacity(alloc, 1)?;
        slots.push_reserved(Some(value));
        match Table::new(alloc, &[0, 0], slots, &start) {
            Ok((table, raw)) => Ok((
                TurnLock {
                    table,
                    entrance: Entrance::new(),
                    free: Rest::new(),
                    due: Rest::new(),
                },
                Seat {
                    raw,
                    left: 1 << 63,
                    made: 0,
                    owner: None,
                },
            )),
            Err(Refused { slots: _ }) => Err(OutOfMemory),
        }
    }

    /// The value, once there is no other seat: the seat has every turn that was given.
    pub fn close(self, seat: Seat<S>) -> S
        requires lock { seat.lock ≡ self }
        requires idle { IsIdle seat }
        requires all { seat.view.grant ≡ 2 ^ 63 }
        ensures value { S.state result ≡ state_of seat.view }
        ensures made { seat.view.made ≡ length seat.view.seen }
    {
        let TurnLock {
            table,
            entrance: _,
            free: _,
            due: _,
        } = self;
        let Seat {
            raw,
            left: _,
            made: _,
            owner: _,
        } = seat;
        let mut closed = table.close_with(raw);
        let value = closed.take(0);
        closed.free();
        value.unwrap()
    }
}
