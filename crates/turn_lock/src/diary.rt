//! `Diary`. The history that it has is no data of the program. It is the view of a seat at an `atomic_table` with one
//! word and no slots:
//!
//! - The word is the number of the entries.
//! - The view is a `Told`: the state at which the history begins, and the entries since.
//! - The rule, `IsCounted`, says that there is one view, whose entries are legal from the state at which they begin,
//!   and that the word is their number, at most 2^63. It reads no key.
//!
//! There is one kind of step, a `fetch_add` after which the seat knows the history that it is told (`Learns`). It adds
//! as many to the word as entries come: 0 where `new` tells the start, and 1 at each `note`. What is told is a ghost
//! member of a type parameter, and each caller's proof picks it. The table is never read: a diary keeps the number
//! beside it, for `left`.

ghost use Rattle.std.specs.Prelude.{◌≡◌, ◌+◌, ◌<◌, ◌^◌, ◌++◌, [], ◌∷◌, length, IfOk};
ghost use Rattle.store_core.specs.History.{state, IsLegalAt, Legal};
ghost use Rattle.turn_lock.specs.Noted.{entry};

use crate::stands::Stands;
use atomic_table::{Play, Seat, Table, TableRule};
use proto_wire::OutOfMemory;
use std::alloc::Global;
use std::marker::{Brand, Model, PhantomData};
use store_core::{Event, Reply};

/// How many entries a diary takes.
const MOST: u64 = 1 << 63;

/// What the seat of a diary knows. No value of it is made.
struct History;

impl Model for History {
    ghost use Rattle.turn_lock.specs.Told.{Told};
    ghost use Rattle.turn_lock.specs.Counted.{untold};

    ghost Value = { Told };

    ghost view = { λ _. untold };
}

/// The rule of a diary's table.
struct Counted;

impl TableRule<(), History, ()> for Counted {
    ghost use Rattle.turn_lock.specs.Counted.{IsCounted, untold};

    ghost holds = { λ _ s. IsCounted s };

    ghost first = { λ _. untold };
}

/// What is told at a step: the history after it.
trait Tells {
    ghost use Rattle.turn_lock.specs.Told.{Told};

    ghost told: { Told };
}

impl Tells for Brand {
    ghost use Rattle.turn_lock.specs.Counted.{untold};

    ghost told = { untold };
}

/// A step after which the seat knows what is told.
struct Learns<J> {
    of: PhantomData<J>,
}

impl<J: Tells> Play<(), History> for Learns<J> {
    ghost use Rattle.std.specs.Prelude.{◌≡◌, []};

    ghost then = { λ _ _ _ after. after ≡ (J.told, []) };
}

/// The history of one holder: the state at which it began, and the entries since.
#[derive(Drop)]
pub struct Diary {
    table: Table<(), History, (), Counted, Global>,
    seat: Seat<(), History>,
    count: u64,
}

impl Model for Diary {
    ghost use Rattle.turn_lock.specs.Told.{Told};

    ghost Value = { Told };

    ghost use Rattle.turn_lock.specs.Seated.{IsSeated};

    ghost view = { λ d. d.seat.me.0 };

    ghost invariant = { IsSeated };
}

impl Diary {
    /// Begins a history at the state that the value stands for.
    pub fn new<S: Stands>(alloc: Global, value: &S) -> Result<Diary, OutOfMemory>
        ensures { IfOk result (λ d. d ≡ record { start = S.state value.now; seen = [] }) }
    {
        let (table, mut seat) = Table::of_words(alloc, &[0], &())?;
        begin::<S, Brand>(&table, &mut seat, value);
        Ok(Diary {
            table,
            seat,
            count: 0,
        })
    }

    /// Appends one entry: the one of the step from the state so far, whose reply isn't Refused. It takes no memory.
    pub fn note(&mut self, owner: u64, event: &Event, reply: &Reply)
        requires legal { IsLegalAt (state self.old.start self.old.seen) (entry owner event.now reply.now) }
        requires room { length self.old.seen < 2 ^ 63 }
        ensures noted { self.new ≡ record self.old { seen = self.old.seen ++ entry owner event.now reply.now ∷ [] } }
        ensures legal { Legal self.new.start self.new.seen }
    {
        append::<Brand>(&self.table, &mut self.seat, owner, event, reply);
        self.count += 1;
    }

    /// How many more entries it takes: 2^63 less those that it has. It takes no memory.
    pub fn left(&self) -> u64
        ensures left { result + length self.now.seen ≡ 2 ^ 63 }
        ensures legal { Legal self.now.start self.now.seen }
    {
        MOST - self.count
    }
}

// The seat learns at which state the history begins.
fn begin<S: Stands, J: Tells>(
    table: &Table<(), History, (), Counted, Global>,
    seat: &mut Seat<(), History>,
    value: &S,
)
    requires table { (seat.old.table_id ≡ table.now.shared.table_id) × (seat.old.table_id.words ≡ 1) }
    requires seat { (seat.old.me.0.seen ≡ []) × (seat.old.me.1 ≡ []) }
    requires told { J.told ≡ record { start = S.state value.now; seen = [] } }
    ensures table { seat.new.table_id ≡ seat.old.table_id }
    ensures seat { seat.new.me ≡ (record { start = S.state value.now; seen = [] }, []) }
{
    table.shared.fetch_add::<Learns<J>>(seat, 0, 0);
}

// The seat learns of one more entry.
fn append<J: Tells>(
    table: &Table<(), History, (), Counted, Global>,
    seat: &mut Seat<(), History>,
    owner: u64,
    event: &Event,
    reply: &Reply,
)
    requires table { (seat.old.table_id ≡ table.now.shared.table_id) × (seat.old.table_id.words ≡ 1) }
    requires seat { (seat.old.me.1 ≡ []) × Legal seat.old.me.0.start seat.old.me.0.seen }
    requires room { length seat.old.me.0.seen < 2 ^ 63 }
    requires legal { IsLegalAt (state seat.old.me.0.start seat.old.me.0.seen) (entry owner event.now reply.now) }
    requires told { J.told ≡ record seat.old.me.0 { seen = seat.old.me.0.seen ++ entry owner event.now reply.now ∷ [] } }
    ensures table { seat.new.table_id ≡ seat.old.table_id }
    ensures seat { seat.new.me ≡ (record seat.old.me.0 { seen = seat.old.me.0.seen ++ entry owner event.now reply.now ∷ [] }, []) }
    ensures legal { Legal seat.new.me.0.start seat.new.me.0.seen }
{
    table.shared.fetch_add::<Learns<J>>(seat, 0, 1);
}
