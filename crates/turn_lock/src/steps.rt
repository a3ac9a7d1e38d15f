//! The steps of a turn lock, on the table's own seats.

ghost use Rattle.std.specs.Prelude.{◌≡◌, ℕ, ◌<◌, [], ◌∷◌, false, Some, None};
ghost use Rattle.store_core.specs.History.{IsLegalAt};
ghost use Rattle.store_core.specs.Step.{is_opening};
ghost use Rattle.turn_lock.specs.Noted.{entry};
ghost use Rattle.turn_lock.specs.declared.phase.Phase.TheVariants.{Idle, Waits, HasTurn};
ghost use Rattle.turn_lock.specs.Views.{IsOwn, state_of, stays, fresh};
ghost use Rattle.turn_lock.specs.Kinds.{Drew, IsDue, Looked, Took, Entered, PassedOn, United};

use crate::kinds::{Cut, Draw, Enter, Learn, Look, PassOn, Said, TableSeat, Unite};
use crate::lock::{Turn, TurnLock};
use crate::stands::Stands;
use std::sync::Wait;
use store_core::{Event, Reply};

impl<S: Stands> TurnLock<S> {
    pub(crate) fn draw(&self, seat: &mut TableSeat<S>) -> u64
        requires seat { seat.old.table_id ≡ self.now }
        requires idle { (seat.old.me.0.phase ≡ Idle) × (0 < seat.old.me.0.left) }
        ensures seat { seat.new.table_id ≡ seat.old.table_id }
        ensures drew { Drew S.state seat.old.me result seat.new.me }
    {
        self.table.shared.fetch_add::<Draw<S>>(seat, 0, 1)
    }

    fn look(&self, seat: &mut TableSeat<S>, ticket: u64) -> u64
        requires seat { seat.old.table_id ≡ self.now }
        requires waits { (seat.old.me.0.phase ≡ Waits ticket) × (seat.old.me.0.owed ≡ 1) × (seat.old.me.1 ≡ []) }
        ensures seat { seat.new.table_id ≡ seat.old.table_id }
        ensures looked { Looked S.state seat.old.me result seat.new.me }
    {
        self.table.shared.load::<Look<S>>(seat, 1)
    }

    // Returns once the ticket is due, which it mostly is at once.
    fn await_turn<R: Wait>(&self, rt: &R, seat: &mut TableSeat<S>, ticket: u64)
        requires seat { seat.old.table_id ≡ self.now }
        requires waits { (seat.old.me.0.phase ≡ Waits ticket) × (seat.old.me.0.owed ≡ 1) × (seat.old.me.1 ≡ []) }
        ensures seat { seat.new.table_id ≡ seat.old.table_id }
        ensures due { IsDue S.state seat.old.me ticket seat.new.me }
    {
        let mut looks = 0;
        for _ in rt.forever() {
            if self.look(seat, ticket) == ticket {
                return;
            }
            looks = self.due.pause(rt, looks);
        }
        unreachable!()
    }

    // Whether no ticket is out. Another thread may draw one before the answer is read.
    fn is_free(&self) -> bool {
        self.table.shared.peek(0) == self.table.shared.peek(1)
    }

    // Comes in by the entrance, and returns once no ticket is out.
    fn await_free<R: Wait>(&self, rt: &R) {
        self.entrance.enter(rt);
        let mut looks = 0;
        for _ in rt.forever() {
            if self.is_free() {
                return;
            }
            looks = self.free.pause(rt, looks);
        }
    }

    pub(crate) fn take_out<R: Wait>(&self, rt: &R, seat: &mut TableSeat<S>) -> Turn<S>
        requires seat { seat.old.table_id ≡ self.now }
        requires idle { (seat.old.me.0.phase ≡ Idle) × (0 < seat.old.me.0.left) × (seat.old.me.1 ≡ []) }
        ensures seat { seat.new.table_id ≡ seat.old.table_id }
        ensures took { Took S.state seat.old.me result.ticket result.value seat.new.me }
    {
        let waits = !self.is_free();
        if waits {
            self.await_free(rt);
        }
        let ticket = self.draw(seat);
        if waits {
            self.entrance.leave();
        }
        self.await_turn(rt, seat, ticket);
        let value = self.table.shared.exchange(seat, 0, None).unwrap();
        Turn { value, ticket }
    }

    // Puts the value back, and ends the turn.
    pub(crate) fn put_back(&self, seat: &mut TableSeat<S>, turn: Turn<S>)
        requires seat { seat.old.table_id ≡ self.now }
        requires turn { (seat.old.me.0.phase ≡ HasTurn turn.ticket) × (seat.old.me.1 ≡ (0, None) ∷ []) }
        requires value { S.state turn.value ≡ state_of seat.old.me.0 }
        ensures seat { seat.new.table_id ≡ seat.old.table_id }
        ensures passed { PassedOn S.state seat.old.me 0 seat.new.me }
    {
        let Turn { value, ticket: _ } = turn;
        let out = self.table.shared.exchange(seat, 0, Some(value));
        let None = out else { unreachable!() };
        self.table.shared.fetch_add::<PassOn<S>>(seat, 1, 1);
        self.due.wake();
        self.free.wake();
    }

    pub(crate) fn enter<J: Said>(
        &self,
        seat: &mut TableSeat<S>,
        owner: u64,
        event: &Event,
        reply: &Reply,
    )
        requires seat { seat.old.table_id ≡ self.now }
        requires made { J.made ≡ entry owner event.now reply.now }
        requires turn { ((t : ℕ) × (seat.old.me.0.phase ≡ HasTurn t)) × (seat.old.me.0.owed ≡ 1) }
        requires legal { IsLegalAt (state_of seat.old.me.0) (entry owner event.now reply.now) }
        requires whose { is_opening event.now ≡ false → seat.old.me.0.owner ≡ Some owner }
        ensures seat { seat.new.table_id ≡ seat.old.table_id }
        ensures entered { Entered S.state (entry owner event.now reply.now) seat.old.me 0 seat.new.me }
    {
        self.table.shared.load::<Enter<S, J>>(seat, 1);
    }

    pub(crate) fn cut<J: Said>(&self, from: &mut TableSeat<S>, turns: u64) -> TableSeat<S>
        requires seat { from.old.table_id ≡ self.now }
        requires turns { (J.turns ≡ turns) × (0 < turns) × (turns < from.old.me.0.left) }
        requires idle { from.old.me.0.phase ≡ Idle }
        ensures seats { (from.new.table_id ≡ from.old.table_id) × (result.table_id ≡ from.old.table_id) }
        ensures old { from.new.me ≡ (stays turns from.old.me.0, from.old.me.1) }
        ensures new { result.me ≡ (fresh turns from.old.me.0, []) }
    {
        self.table.shared.split_seat::<Cut<J>>(from)
    }

    pub(crate) fn unite(&self, into: &mut TableSeat<S>, from: TableSeat<S>)
        requires seats { (into.old.table_id ≡ self.now) × (from.table_id ≡ self.now) }
        requires idle { (into.old.me.0.phase ≡ Idle) × (from.me.0.phase ≡ Idle) × (from.me.1 ≡ []) }
        requires own { IsOwn into.old.me.0 }
        ensures seat { into.new.table_id ≡ into.old.table_id }
        ensures united { United S.state into.old.me from.me into.new.me }
    {
        self.table.shared.join_seat::<Unite>(into, from);
        self.table.shared.load::<Learn<S>>(into, 1);
    }
}
