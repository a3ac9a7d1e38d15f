//! The table under a turn lock: its rule, and the kinds of step on it.
//!
//! - Word 0 counts the tickets that were drawn, word 1 the turns that ended.
//! - The one slot has the value, or is out with the seat whose turn it is.
//! - The view of a seat is a `View`, and the rule is `Kept`.

use crate::stands::Stands;
use atomic_table::{Join, Play, Seat, Split, TableRule};
use std::marker::{Brand, Model, PhantomData};
use std::snapshot::Snapshot;

/// What a seat knows. No value of it is made.
pub struct SeatView;

impl Model for SeatView {
    ghost use Rattle.turn_lock.specs.Views.{View, first_view};
    ghost use Rattle.store_core.specs.State.{new_state};
    ghost use Rattle.store_core.specs.declared.state.Guard.TheVariants as guards;

    ghost Value = { View };

    ghost view = { λ _. first_view (new_state 0 0 guards.Leases) };
}

/// The rule of the lock. The key is the value that the lock is made of.
pub struct LockRule<S> {
    of: PhantomData<S>,
}

impl<S: Stands> TableRule<Option<S>, SeatView, Snapshot<S>> for LockRule<S> {
    ghost use Rattle.turn_lock.specs.Views.{first_view};
    ghost use Rattle.turn_lock.specs.LockRule.{Kept};

    ghost holds = { λ _. Kept S.state };

    ghost first = { λ k. first_view (S.state k.value) };
}

/// What a step is told beside what it finds.
pub(crate) trait Said {
    ghost use Rattle.std.specs.Prelude.{ℕ};
    ghost use Rattle.store_core.specs.History.{Entry};

    // the entry that a turn makes
    ghost made: { Entry };
    // the turns that a new seat is given
    ghost turns: { ℕ };
}

impl Said for Brand {
    ghost use Rattle.store_core.specs.declared.event.Event.TheVariants as events;
    ghost use Rattle.store_core.specs.declared.event.Reply.TheVariants as replies;
    ghost use Rattle.turn_lock.specs.Noted.{entry};

    ghost made = { entry 0 events.Open replies.Refused };

    ghost turns = { 0 };
}

pub(crate) struct Draw<S> {
    of: PhantomData<S>,
}

impl<S: Stands> Play<Option<S>, SeatView> for Draw<S> {
    ghost use Rattle.turn_lock.specs.Kinds.{Drew};

    ghost then = { λ _ m r n. Drew S.state m r n };
}

pub(crate) struct Look<S> {
    of: PhantomData<S>,
}

impl<S: Stands> Play<Option<S>, SeatView> for Look<S> {
    ghost use Rattle.turn_lock.specs.Kinds.{Looked};

    ghost then = { λ _ m r n. Looked S.state m r n };
}

pub(crate) struct Enter<S, J> {
    of: PhantomData<(S, J)>,
}

impl<S: Stands, J: Said> Play<Option<S>, SeatView> for Enter<S, J> {
    ghost use Rattle.turn_lock.specs.Kinds.{Entered};

    ghost then = { λ _ m r n. Entered S.state J.made m r n };
}

pub(crate) struct PassOn<S> {
    of: PhantomData<S>,
}

impl<S: Stands> Play<Option<S>, SeatView> for PassOn<S> {
    ghost use Rattle.turn_lock.specs.Kinds.{PassedOn};

    ghost then = { λ _ m r n. PassedOn S.state m r n };
}

pub(crate) struct Cut<J> {
    of: PhantomData<J>,
}

impl<J: Said> Split<SeatView> for Cut<J> {
    ghost use Rattle.turn_lock.specs.Views.{stays, fresh};

    ghost left = { stays J.turns };

    ghost right = { fresh J.turns };
}

pub(crate) struct Unite;

impl Join<SeatView> for Unite {
    ghost use Rattle.turn_lock.specs.Views.{both, spent};

    ghost both = { both };

    ghost spent = { spent };
}

pub(crate) struct Learn<S> {
    of: PhantomData<S>,
}

impl<S: Stands> Play<Option<S>, SeatView> for Learn<S> {
    ghost use Rattle.turn_lock.specs.Kinds.{Learnt};

    ghost then = { λ _ m r n. Learnt S.state m r n };
}

// The table's own seat.
pub(crate) type TableSeat<S> = Seat<Option<S>, SeatView>;
