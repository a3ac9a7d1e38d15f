//! Replaying records: lines of calls on standard input become lines of answers.

ghost use Rattle.std.specs.Prelude.{◌≡◌, ◌≢◌, ◌⊎◌, ◌+◌, ◌-◌, length, IfSome, IfNone, None, if◌then◌else◌, ◌≤◌, ◌<◌, ◌^◌, ℕ, List, Option, IfOk, IfErr, OnOk, OnErr, IsErrOf, MatchOption, Some, true, false, string_bytes};
ghost use Rattle.casd_base.specs.Causes.{Rose};
ghost use Rattle.casd_base.specs.Streams.{Adds};
ghost use Rattle.casd_server.specs.Output.{AddsPart};
ghost use Rattle.casd_server.specs.Record.{record_of};
ghost use Rattle.casd_server.specs.Answer.{Seated};
ghost use Rattle.casd_server.specs.Run.{line_result, malformed_text};
ghost use Rattle.casd_server.specs.Going.{Going};
ghost use Rattle.casd_server.specs.Replay.{Replays, status_of};
ghost use Rattle.casd_server.specs.declared.records.End.TheVariants as ends;

use crate::input::{Found, Input, Stop};
use crate::marks::DEFAULT_MARKS;
use crate::output::write_all;
use crate::parse::parse;
use crate::seats::Seats;
use casd_base::{Sink, SinkEnd, Source};
use proto_wire::OutOfMemory;
use std::alloc::{AllocError, Global};

/// How a replay ended.
#[derive(Clone, Copy, Debug, PartialEq, Eq)]
pub enum End {
    /// The input was read to its end, and all lines were answered.
    Done,
    /// The words aren't those of a replay.
    Refused,
    /// A line was malformed.
    Malformed,
    /// The source failed.
    ReadFault,
    /// The sink failed.
    WriteFault,
    OutOfMemory,
    /// 2^50 bytes were read.
    Spent,
}

impl End {
    /// The status of the process.
    pub fn status(self) -> u8
        ensures { result ≡ status_of self }
    {
        match self {
            End::Done => 0,
            End::Refused => 2,
            End::Malformed => 3,
            End::ReadFault => 4,
            End::WriteFault => 5,
            End::OutOfMemory => 6,
            End::Spent => 7,
        }
    }
}

impl From<OutOfMemory> for End {
    ghost from_gives = { λ _ e. e ≡ ends.OutOfMemory };

    fn from(_e: OutOfMemory) -> End {
        End::OutOfMemory
    }
}

impl From<AllocError> for End {
    ghost from_gives = { λ _ e. e ≡ ends.OutOfMemory };

    fn from(_e: AllocError) -> End {
        End::OutOfMemory
    }
}

impl From<SinkEnd> for End {
    ghost use Rattle.casd_server.specs.Ends.{end_of_sink};

    ghost from_gives = { λ e r. r ≡ end_of_sink e };

    fn from(e: SinkEnd) -> End {
        match e {
            SinkEnd::Failed => End::WriteFault,
            SinkEnd::OutOfMemory => End::OutOfMemory,
        }
    }
}

impl From<Stop> for End {
    ghost use Rattle.casd_server.specs.Ends.{end_of_stop};

    ghost from_gives = { λ e r. r ≡ end_of_stop e };

    fn from(e: Stop) -> End {
        match e {
            Stop::ReadFault => End::ReadFault,
            Stop::OutOfMemory => End::OutOfMemory,
            Stop::Spent => End::Spent,
        }
    }
}

fn write_malformed<W: Sink>(alloc: Global, number: u64, sink: &mut W) -> Result<(), End>
    ensures ok { OnOk result (Adds (W.written sink.old) (W.written sink.new) (malformed_text number)) }
    ensures err { OnErr result (AddsPart (W.written sink.old) (W.written sink.new) (malformed_text number)) }
    ensures end { IfErr result (λ e. (e ≡ ends.WriteFault) ⊎ (e ≡ ends.OutOfMemory)) }
    ensures later { W.write_faults sink.old ≤ W.write_faults sink.new }
    ensures fault { IsErrOf result End.WriteFault → Rose (W.write_faults sink.old) (W.write_faults sink.new) }
{
    let text = format!(in alloc; "malformed line {number}\n")?;
    write_all(sink, text.as_bytes())?;
    Ok(())
}

/// Answers one line, and says whether it was a record.
fn answer<W: Sink>(
    alloc: Global,
    seats: &mut Seats,
    number: u64,
    line: &[u8],
    sink: &mut W,
) -> Result<bool, End>
    ensures ok { IfOk result (λ going. Adds (W.written sink.old) (W.written sink.new) (line_result seats.old number (record_of line.now)).0) }
    ensures kept { IfOk result (λ going. (line_result seats.old number (record_of line.now)).1 ≡ (if going then Some seats.new else None)) }
    ensures err { OnErr result (AddsPart (W.written sink.old) (W.written sink.new) (line_result seats.old number (record_of line.now)).0) }
    ensures end { IfErr result (λ e. (e ≡ ends.WriteFault) ⊎ (e ≡ ends.OutOfMemory)) }
    ensures later { W.write_faults sink.old ≤ W.write_faults sink.new }
    ensures fault { IsErrOf result End.WriteFault → Rose (W.write_faults sink.old) (W.write_faults sink.new) }
{
    let Some(record) = parse(alloc, line)? else {
        write_malformed(alloc, number, sink)?;
        return Ok(false);
    };
    let text = seats.answer(&record)?;
    write_all(sink, text.as_bytes())?;
    Ok(true)
}

/// What a replay keeps between two lines. Lines count from 1.
#[derive(Drop)]
struct Running {
    alloc: Global,
    input: Input,
    seats: Seats,
    number: u64,
}

/// Reads and answers one line, and says how the replay ended, if it did.
fn step<S: Source, W: Sink>(
    running: &mut Running,
    source: &mut S,
    sink: &mut W,
) -> Result<Option<End>, End>
    requires count { running.old.number < 2 ^ 63 }
    ensures ok { (left written : Option (List ℕ))
        → Going left (S.left source.old) written (W.written sink.old) running.old.input running.old.seats running.old.number
        → IfOk result (λ o. MatchOption o
        (Going left (S.left source.new) written (W.written sink.new) running.new.input running.new.seats running.new.number)
        (Replays left (S.left source.new) written (W.written sink.new))) }
    ensures err { (left written : Option (List ℕ))
        → Going left (S.left source.old) written (W.written sink.old) running.old.input running.old.seats running.old.number
        → IfErr result (Replays left (S.left source.new) written (W.written sink.new)) }
    // A line was taken of what was pending or came.
    ensures shorter { IfOk result (λ o. IfNone o (length running.new.input.bytes + running.old.input.read < length running.old.input.bytes + running.new.input.read)) }
    ensures bounded { running.new.input.read ≤ 2 ^ 50 }
    ensures later { S.read_faults source.old ≤ S.read_faults source.new }
    ensures written { W.write_faults sink.old ≤ W.write_faults sink.new }
    ensures read_fault { IsErrOf result End.ReadFault → Rose (S.read_faults source.old) (S.read_faults source.new) }
    ensures write_fault { IsErrOf result End.WriteFault → Rose (W.write_faults sink.old) (W.write_faults sink.new) }
    ensures ends { IfOk result (λ o. IfSome o (λ e. (e ≡ ends.Done) ⊎ (e ≡ ends.Malformed))) }
    ensures faults { IfErr result (λ e. e ≢ ends.Refused) }
{
    let Running {
        alloc,
        input,
        seats,
        number,
    } = running;
    match input.fill(source)? {
        Found::Line(len) => {
            if !answer(*alloc, seats, *number, input.front(len), sink)? {
                return Ok(Some(End::Malformed));
            }
            input.advance(len + 1);
            *number += 1;
            Ok(None)
        }
        Found::End => {
            if input.pending().is_empty() {
                return Ok(Some(End::Done));
            }
            if !answer(*alloc, seats, *number, input.pending(), sink)? {
                return Ok(Some(End::Malformed));
            }
            Ok(Some(End::Done))
        }
        Found::TooLong => {
            write_malformed(*alloc, *number, sink)?;
            Ok(Some(End::Malformed))
        }
    }
}

/// Reads and answers lines until the replay ends.
fn run<S: Source, W: Sink>(alloc: Global, source: &mut S, sink: &mut W) -> Result<End, End>
    ensures ok { IfOk result (Replays (S.left source.old) (S.left source.new) (W.written sink.old) (W.written sink.new)) }
    ensures err { IfErr result (Replays (S.left source.old) (S.left source.new) (W.written sink.old) (W.written sink.new)) }
    ensures later { S.read_faults source.old ≤ S.read_faults source.new }
    ensures written { W.write_faults sink.old ≤ W.write_faults sink.new }
    ensures read_fault { IsErrOf result End.ReadFault → Rose (S.read_faults source.old) (S.read_faults source.new) }
    ensures write_fault { IsErrOf result End.WriteFault → Rose (W.write_faults sink.old) (W.write_faults sink.new) }
    ensures ends { IfOk result (λ e. (e ≡ ends.Done) ⊎ (e ≡ ends.Malformed)) }
    ensures faults { IfErr result (λ e. e ≢ ends.Refused) }
{
    let mut running = Running {
        alloc,
        input: Input::new(alloc),
        seats: Seats::new(alloc, DEFAULT_MARKS)?,
        number: 1,
    };
    'lines: loop {
        if let Some(end) = step(&mut running, source, sink)? {
            running.seats.close_all();
            return Ok(end);
        }
    }
}

/// Runs the records of the source, writes their answers to the sink, and answers the status of the process.
pub(crate) fn replay_records<S: Source, W: Sink>(alloc: Global, source: &mut S, sink: &mut W) -> u8
    ensures replays { (end : End) × (result ≡ status_of end)
        × Replays (S.left source.old) (S.left source.new) (W.written sink.old) (W.written sink.new) end }
    ensures words { result ≢ 2 }
    ensures read_fault { result ≡ 4 → Rose (S.read_faults source.old) (S.read_faults source.new) }
    ensures write_fault { result ≡ 5 → Rose (W.write_faults sink.old) (W.write_faults sink.new) }
    ensures reads_later { S.read_faults source.old ≤ S.read_faults source.new }
    ensures writes_later { W.write_faults sink.old ≤ W.write_faults sink.new }
{
    let end = match run(alloc, source, sink) {
        Ok(end) | Err(end) => end,
    };
    end.status()
}
