//! `Seats`: the store of a replay, and the seats at it.

ghost use Rattle.std.specs.Prelude.{◌≡◌, ◌<◌, IfOk, string_bytes};
ghost use Rattle.casd_server.specs.Answer.{closed_below, new_seated, run_record, answer};
ghost use Rattle.casd_server.specs.Record.{record_view};
ghost use Rattle.casd_server.specs.Sitting.{seated_at};
ghost use Rattle.store_core.specs.declared.state.Guard.TheVariants as guards;

use crate::answer::{Answer, answer_line, not_built};
use crate::asking::{close, pass, usage};
use crate::batch;
use crate::record_line::Record;
use crate::sitting::{rise, sit};
use crate::word::Word;
use blob_store::{Bench, Door, MemShelf, Store};
use proto_wire::OutOfMemory;
use std::alloc::Global;
use std::marker::Model;
use store_core::Marks;

/// How many seats there are.
const SEATS: usize = 100;

/// A bench over a store in memory, and its shelf, whose calls don't fail.
#[derive(Drop)]
pub(crate) struct Seats {
    alloc: Global,
    bench: Bench<MemShelf>,
    shelf: MemShelf,
}

impl Model for Seats {
    ghost use Rattle.casd_server.specs.Answer.{Seated};
    ghost use Rattle.casd_server.specs.Sitting.{IsReady, seated_at};
    ghost use Rattle.blob_store.specs.Memory.{shelved_of};

    ghost Value = { Seated };

    ghost view = { λ s. seated_at s.bench };

    ghost invariant = { λ s. IsReady s.bench (shelved_of s.shelf) };
}

impl Seats {
    /// An empty store, and no owner on any seat.
    pub(crate) fn new(alloc: Global, marks: Marks) -> Result<Seats, OutOfMemory>
        requires { marks.guard ≡ guards.Leases }
        ensures { IfOk result (λ s. s ≡ new_seated marks.low marks.high) }
    {
        let store = Store::new(alloc, marks)?;
        Ok(Seats {
            alloc,
            bench: Bench::new(alloc, store, SEATS)?,
            shelf: MemShelf::new(alloc, Vec::new(alloc), Vec::new(alloc), Vec::new(alloc)),
        })
    }

    /// The bench, when the owners of all seats have gone, in the order of the seats. It takes no memory.
    pub(crate) fn close_all(self) -> Bench<MemShelf>
        ensures { seated_at result ≡ closed_below 100 self }
    {
        let Seats { mut bench, .. } = self;
        'seats: for seat in 0..SEATS {
            rise(&mut bench, seat);
        }
        bench
    }

    /// Runs a record. After want of memory a part of it may have been done.
    fn run(&mut self, asked: &Record) -> Result<Answer, OutOfMemory>
        requires { asked.now.seat < 100 }
        ensures { IfOk result (λ a. (a, self.new) ≡ run_record self.old (record_view asked.now)) }
    {
        let seat = asked.seat as usize;
        sit(&mut self.bench, seat)?;
        match asked.word {
            Word::BatchUpdateBlobs => Ok(Answer::Call(batch::call(
                self.alloc,
                &mut self.bench,
                &mut self.shelf,
                &asked.messages,
            )?)),
            Word::Pass => pass(&mut self.bench, &mut self.shelf),
            Word::Usage => usage(&mut self.bench),
            Word::Close => close(&mut self.bench, seat),
            _ => Ok(Answer::Call(Err(not_built()))),
        }
    }

    /// Runs a record, and gives the line of its answer with its newline.
    #[tactic(auto, unfolding(crate::specs::Answer::answer))]
    pub(crate) fn answer(&mut self, asked: &Record) -> Result<String, OutOfMemory>
        requires { asked.now.seat < 100 }
        ensures { IfOk result (λ line. (string_bytes line, self.new) ≡ answer self.old (record_view asked.now)) }
    {
        let answered = self.run(asked)?;
        answer_line(self.alloc, asked, &answered)
    }
}
