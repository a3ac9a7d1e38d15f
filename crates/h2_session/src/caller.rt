//! What the caller hands in.

ghost use Rattle.std.specs.Prelude.{◌≡◌, ◌<◌, ◌≤◌, ◌^◌, ◌++◌, ◌↔◌, ◌∷◌, [], ℕ, Some, None, true, false, IfOk, OnOk, IfSome, IsNone, slice_get};
ghost use Rattle.h2_frames.specs.Spelling.{IsStreamNumber, spelled};
ghost use Rattle.hpack_tables.specs.Table.{list_size};
ghost use Rattle.h2_session.specs.Codes.{max_list};
ghost use Rattle.h2_session.specs.declared.event.Out.TheVariants as outs;
ghost use Rattle.h2_session.specs.declared.stream.Sending.TheVariants as sending;
ghost use Rattle.h2_frames.specs.declared.frame.Frame.TheVariants as frames;
ghost use Rattle.hpack_tables.specs.Encoding.{block_spelled};
ghost use Rattle.h2_session.specs.Machine.{part_of};
ghost use Rattle.h2_session.specs.Part.{stream_of, place_of, is_live, IsRow};
ghost use Rattle.h2_session.specs.Said.{said, said_on, may_say, is_sending, waiting, headers_frame, IsSayable, IsSayableNow, cancelled, may_begin, next_number, begun};
ghost use Rattle.h2_session.specs.Sent.{Settles, Pays, ending, spellings};
ghost use Rattle.h2_session.specs.Rows.{is_unopened};
ghost use Rattle.h2_session.specs.Faults.{is_server};
ghost use Rattle.h2_session.specs.Session.{last_of_peer};

use crate::event::Out;
use crate::flow::Flow;
use crate::machine::Machine;
use crate::number::StreamNumber;
use crate::pump::write_end;
use crate::small::{SmallHeaders, block_of};
use crate::stream::{Sending, Stream};
use crate::waits::Waits;
use h2_frames::{Frame, write_frame};
use hpack_tables::Headers;
use proto_wire::{Bytes, OutOfMemory};
use std::alloc::Global;

/// The largest number of a stream.
const MAX_NUMBER: u32 = 0x7fff_ffff;

fn is_unopened(sending: &Sending) -> bool
    ensures { result ≡ is_unopened sending.now }
{
    match sending {
        Sending::Unopened => true,
        _ => false,
    }
}

fn is_sending(sending: &Sending) -> bool
    ensures { result ≡ is_sending sending.now }
{
    match sending {
        Sending::Unopened | Sending::Open => true,
        _ => false,
    }
}

/// Writes HEADERS.
fn write_headers(
    alloc: Global,
    stream: u32,
    headers: &Headers,
    end: bool,
    shrink: bool,
    out: &mut Bytes,
) -> Result<(), OutOfMemory>
    requires number { IsStreamNumber stream }
    requires small { list_size headers.now ≤ max_list }
    ensures { OnOk result (out.new ≡ out.old ++ spelled (frames.Headers stream (block_spelled headers.now shrink) end true)) }
{
    let block = block_of(alloc, headers, shrink)?;
    let frame = Frame::Headers {
        stream,
        block,
        end,
        whole: true,
    };
    write_frame(&frame, out)
}

/// Writes the headers of an answer, and its end if they are all of it.
fn write_answer(
    alloc: Global,
    stream: &Stream,
    headers: &Headers,
    end: bool,
    shrink: bool,
    out: &mut Bytes,
) -> Result<(), OutOfMemory>
    requires { list_size headers.now ≤ max_list }
    ensures { OnOk result (out.new ≡ out.old ++ spellings (frames.Headers stream.now.number (block_spelled headers.now shrink) end true ∷ ending end stream.now)) }
{
    let number = stream.number.get();
    write_headers(alloc, number, headers, end, shrink, out)?;
    if !end {
        return Ok(());
    }
    write_end(out, number, stream.ended)
}

/// Writes RST_STREAM.
pub(crate) fn write_reset(stream: &Stream, code: u32, out: &mut Bytes) -> Result<(), OutOfMemory>
    ensures { OnOk result (out.new ≡ out.old ++ spelled (frames.Reset stream.now.number code)) }
{
    let frame = Frame::Reset {
        stream: stream.number.get(),
        code,
    };
    write_frame(&frame, out)
}

impl Machine {
    /// Hands in what is sent on a stream.
    pub(crate) fn send(
        &mut self,
        out: &mut Bytes,
        stream: u32,
        what: Out,
    ) -> Result<(), OutOfMemory>
        requires live { may_say (stream_of stream (part_of self.old)) ≡ true }
        requires sayable { IsSayable self.old.role what (stream_of stream (part_of self.old)) }
        ensures settles { OnOk result (Settles (said stream what (part_of self.old)) out.old (part_of self.new) out.new) }
        ensures role { self.new.role ≡ self.old.role }
    {
        self.say(out, stream, what)?;
        self.pump(out)?;
        Ok(())
    }

    fn say(&mut self, out: &mut Bytes, stream: u32, what: Out) -> Result<(), OutOfMemory>
        requires live { may_say (stream_of stream (part_of self.old)) ≡ true }
        requires sayable { IsSayable self.old.role what (stream_of stream (part_of self.old)) }
        ensures pays { OnOk result (Pays (said stream what (part_of self.old)) out.old (part_of self.new) out.new) }
        ensures stays { (self.new.role ≡ self.old.role) × (self.new.highest ≡ self.old.highest) }
    {
        let Some(i) = self.place(stream) else {
            unreachable!()
        };
        match what {
            Out::Piece { bytes, end } => self.say_piece(out, stream, i, bytes, end),
            Out::Headers { headers, end } => self.say_headers(out, stream, i, headers, end),
        }
    }

    fn say_piece(
        &mut self,
        out: &mut Bytes,
        stream: u32,
        i: usize,
        bytes: Bytes,
        end: bool,
    ) -> Result<(), OutOfMemory>
        requires { IsRow stream self.old.streams i }
        ensures pays { OnOk result (Pays (said stream (outs.Piece bytes end) (part_of self.old)) out.old (part_of self.new) out.new) }
        ensures stays { (self.new.role ≡ self.old.role) × (self.new.highest ≡ self.old.highest) }
    {
        self.cursor = self.turn_for(i);
        self.streams.add_piece(i, bytes, end)?;
        Ok(())
    }

    fn say_headers(
        &mut self,
        out: &mut Bytes,
        stream: u32,
        i: usize,
        headers: Headers,
        end: bool,
    ) -> Result<(), OutOfMemory>
        requires row { IsRow stream self.old.streams i }
        requires small { list_size headers ≤ max_list }
        ensures pays { OnOk result (Pays (said stream (outs.Headers headers end) (part_of self.old)) out.old (part_of self.new) out.new) }
        ensures stays { (self.new.role ≡ self.old.role) × (self.new.highest ≡ self.old.highest) }
    {
        if is_unopened(&self.streams.get(i).sending) {
            self.answer(out, stream, i, headers, end)
        } else {
            self.say_trailers(out, stream, i, headers, end)
        }
    }

    fn say_trailers(
        &mut self,
        out: &mut Bytes,
        stream: u32,
        i: usize,
        headers: Headers,
        end: bool,
    ) -> Result<(), OutOfMemory>
        requires row { IsRow stream self.old.streams i }
        requires opened { IfSome (slice_get self.old.streams i) (λ s. is_unopened s.sending ≡ false) }
        requires small { list_size headers ≤ max_list }
        ensures pays { OnOk result (Pays (said stream (outs.Headers headers end) (part_of self.old)) out.old (part_of self.new) out.new) }
        ensures stays { (self.new.role ≡ self.old.role) × (self.new.highest ≡ self.old.highest) }
    {
        self.cursor = self.turn_for(i);
        self.streams.set_trailers(i, headers);
        Ok(())
    }

    /// The headers of an answer, which may be all of it.
    fn answer(
        &mut self,
        out: &mut Bytes,
        stream: u32,
        i: usize,
        headers: Headers,
        end: bool,
    ) -> Result<(), OutOfMemory>
        requires row { IsRow stream self.old.streams i }
        requires unopened { IfSome (slice_get self.old.streams i) (λ s. is_unopened s.sending ≡ true) }
        requires small { list_size headers ≤ max_list }
        ensures pays { OnOk result (Pays (said stream (outs.Headers headers end) (part_of self.old)) out.old (part_of self.new) out.new) }
        ensures stays { (self.new.role ≡ self.old.role) × (self.new.highest ≡ self.old.highest) }
    {
        write_answer(
            self.alloc,
            self.streams.get(i),
            &headers,
            end,
            self.shrink,
            out,
        )?;
        self.streams.set_answered(i, end);
        self.shrink = false;
        Ok(())
    }

    /// Resets a stream, if it is live.
    pub(crate) fn cancel(
        &mut self,
        out: &mut Bytes,
        stream: u32,
        code: u32,
    ) -> Result<(), OutOfMemory>
        ensures settles { OnOk result (Settles (cancelled stream code (part_of self.old)) out.old (part_of self.new) out.new) }
        ensures role { self.new.role ≡ self.old.role }
    {
        self.drop_stream(out, stream, code)?;
        self.pump(out)?;
        Ok(())
    }

    fn drop_stream(&mut self, out: &mut Bytes, stream: u32, code: u32) -> Result<(), OutOfMemory>
        ensures pays { OnOk result (Pays (cancelled stream code (part_of self.old)) out.old (part_of self.new) out.new) }
        ensures stays { (self.new.role ≡ self.old.role) × (self.new.highest ≡ self.old.highest) }
    {
        let Some(i) = self.place(stream) else {
            return Ok(());
        };
        write_reset(self.streams.get(i), code, out)?;
        self.streams.remove(i);
        Ok(())
    }

    /// Where the next turn begins once a stream has more to write: there, if no other has anything left.
    fn turn_for(&self, i: usize) -> usize {
        if self.streams.is_idle() {
            i
        } else {
            self.cursor
        }
    }

    /// Begins a stream of a client, unless the peer's limit is reached or the numbers are used up.
    pub(crate) fn begin(
        &mut self,
        out: &mut Bytes,
        headers: &Headers,
    ) -> Result<Option<u32>, OutOfMemory>
        requires client { is_server self.old.role ≡ false }
        requires small { list_size headers.now ≤ max_list }
        ensures none { IfOk result (λ o. IsNone o ↔ (may_begin (part_of self.old) ≡ false)) }
        ensures some { IfOk result (λ o. IfSome o (λ n. (n ≡ next_number (part_of self.old)) × Settles (begun headers.now (part_of self.old)) out.old (part_of self.new) out.new)) }
        ensures same { IfOk result (λ o. IsNone o → (self.new ≡ self.old) × (out.new ≡ out.old)) }
        ensures role { self.new.role ≡ self.old.role }
    {
        let number = self.next_number();
        if self.streams.len() as u64 >= u64::from(self.most) || number > MAX_NUMBER {
            return Ok(None);
        }
        self.open(out, number, headers)?;
        self.pump(out)?;
        Ok(Some(number))
    }

    fn next_number(&self) -> u32
        ensures { result ≡ next_number (part_of self.now) }
    {
        if self.highest == 0 {
            1
        } else {
            self.highest + 2
        }
    }

    fn open(&mut self, out: &mut Bytes, number: u32, headers: &Headers) -> Result<(), OutOfMemory>
        requires client { is_server self.old.role ≡ false }
        requires number { (number ≡ next_number (part_of self.old)) × (number < 2 ^ 31) }
        requires small { list_size headers.now ≤ max_list }
        ensures pays { OnOk result (Pays (begun headers.now (part_of self.old)) out.old (part_of self.new) out.new) }
        ensures role { self.new.role ≡ self.old.role }
    {
        write_headers(self.alloc, number, headers, false, self.shrink, out)?;
        let row = Stream {
            number: StreamNumber::new(number),
            flow: Flow::new(),
            ended: false,
            sending: Sending::Open,
            waits: Waits::new(self.alloc),
        };
        self.highest = number;
        self.shrink = false;
        self.streams.add(row)?;
        Ok(())
    }

    /// How many bytes of a stream wait for a window.
    pub(crate) fn waiting(&self, stream: u32) -> u64
        ensures { result ≡ waiting (stream_of stream (part_of self.now)) }
    {
        match self.place(stream) {
            Some(i) => self.streams.get(i).waits.len() as u64,
            None => 0,
        }
    }

    /// Whether more may be handed in on a stream.
    pub(crate) fn may_say(&self, stream: u32) -> bool
        ensures { result ≡ may_say (stream_of stream (part_of self.now)) }
    {
        match self.place(stream) {
            Some(i) => is_sending(&self.streams.get(i).sending),
            None => false,
        }
    }

    /// The highest stream that the peer began, or 0.
    pub(crate) fn last_of_peer(&self) -> u32
        ensures value { result ≡ last_of_peer (part_of self.now) }
        ensures range { result < 2 ^ 31 }
    {
        if self.role.is_server() {
            self.highest
        } else {
            0
        }
    }
}
