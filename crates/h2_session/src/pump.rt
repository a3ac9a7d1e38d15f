//! What this end writes on its streams, as their windows and the connection's allow.

ghost use Rattle.std.specs.Prelude.{◌≡◌, ◌<◌, ◌++◌, [], ◌∷◌, OnOk, IfSome, IfNone, All, ◌≤◌, ◌==◌, true, false, length, take, if◌then◌else◌};
ghost use Rattle.h2_session.specs.Codes.{no_error};
ghost use Rattle.h2_frames.specs.declared.frame.Frame.TheVariants as frames;
ghost use Rattle.h2_frames.specs.Spelling.{IsStreamNumber, spelled};
ghost use Rattle.h2_session.specs.Machine.{part_of};
ghost use Rattle.h2_session.specs.Rows.{left_in};
ghost use Rattle.h2_session.specs.Sent.{Settles, Writes, spellings, is_closing, IsStuck, AreLast};
ghost use Rattle.h2_session.specs.Turns.{HasTurn, AreTrailers};
ghost use Rattle.h2_session.specs.declared.turn.Turn.TheVariants.{Piece as APiece, Trailers as ATrailers};

use crate::code::NO_ERROR;
use crate::machine::Machine;
use crate::stream::{Sending, Stream};
use crate::turn::Turn;
use crate::turns::{is_closing, next_turn};
use h2_frames::{Frame, write_data, write_frame};
use proto_wire::{Bytes, OutOfMemory};
use std::alloc::Global;

/// A server has ended a stream. A peer that hasn't is asked to stop (RFC 9113, section 8.1).
pub(crate) fn write_end(out: &mut Bytes, stream: u32, ended: bool) -> Result<(), OutOfMemory>
    requires { IsStreamNumber stream }
    ensures { OnOk result (out.new ≡ out.old ++ spellings (if ended then [] else frames.Reset stream no_error ∷ [])) }
{
    if ended {
        return Ok(());
    }
    let code = NO_ERROR;
    write_frame(&Frame::Reset { stream, code }, out)
}

/// Whether a DATA frame of so many bytes ends the stream.
fn ends(stream: &Stream, size: usize) -> bool
    ensures { result ≡ (if size == length stream.now.waits then is_closing stream.now.sending else false) }
{
    size == stream.waits.len() && is_closing(&stream.sending)
}

/// Writes the next bytes of a stream.
fn write_row(stream: &Stream, size: usize, end: bool, out: &mut Bytes) -> Result<(), OutOfMemory>
    requires { (size ≤ length stream.now.waits) × (size ≤ 16384) }
    ensures { OnOk result (out.new ≡ out.old ++ spelled (frames.Data stream.now.number (take size stream.now.waits) size end)) }
{
    write_data(stream.number.get(), stream.waits.front(size), end, out)
}

/// Writes the trailers of a stream, and its end.
fn write_last(
    alloc: Global,
    stream: &Stream,
    shrink: bool,
    out: &mut Bytes,
) -> Result<(), OutOfMemory>
    requires { AreTrailers stream.now.sending }
    ensures { OnOk result (AreLast stream.now shrink out.old out.new) }
{
    let Sending::Trailers(headers) = &stream.sending else {
        unreachable!()
    };
    let block = headers.block(alloc, shrink)?;
    let frame = Frame::Headers {
        stream: stream.number.get(),
        block,
        end: true,
        whole: true,
    };
    write_frame(&frame, out)?;
    write_end(out, stream.number.get(), stream.ended)
}

impl Machine {
    /// Writes all that the windows allow, a frame of each stream in turn.
    pub(crate) fn pump(&mut self, out: &mut Bytes) -> Result<(), OutOfMemory>
        ensures settles { OnOk result (Settles (part_of self.old) out.old (part_of self.new) out.new) }
        ensures stays { (self.new.role ≡ self.old.role) × (self.new.highest ≡ self.old.highest) }
    {
        'frames: while let Some((i, turn)) = self.next_turn() {
            self.write_turn(out, i, turn)?;
            self.cursor = i.saturating_add(1);
        }
        Ok(())
    }

    fn next_turn(&self) -> Option<(usize, Turn)>
        ensures some { IfSome result (λ t. HasTurn self.now.window self.now.initial self.now.streams t.0 t.1) }
        ensures none { IfNone result (All (IsStuck self.now.window self.now.initial) self.now.streams) }
    {
        if self.streams.is_idle() {
            return None;
        }
        next_turn(
            self.streams.as_slice(),
            self.cursor,
            self.initial,
            self.window,
        )
    }

    fn write_turn(&mut self, out: &mut Bytes, i: usize, turn: Turn) -> Result<(), OutOfMemory>
        requires { HasTurn self.old.window self.old.initial self.old.streams i turn }
        ensures writes { OnOk result (Writes (part_of self.old) out.old (part_of self.new) out.new) }
        ensures less { OnOk result (left_in self.new.streams < left_in self.old.streams) }
        ensures stays { (self.new.role ≡ self.old.role) × (self.new.highest ≡ self.old.highest) }
    {
        match turn {
            Turn::Piece(size) => self.write_piece(out, i, size),
            Turn::Trailers => self.write_trailers(out, i),
        }
    }

    fn write_piece(&mut self, out: &mut Bytes, i: usize, size: usize) -> Result<(), OutOfMemory>
        requires { HasTurn self.old.window self.old.initial self.old.streams i (APiece size) }
        ensures writes { OnOk result (Writes (part_of self.old) out.old (part_of self.new) out.new) }
        ensures less { OnOk result (left_in self.new.streams < left_in self.old.streams) }
        ensures stays { (self.new.role ≡ self.old.role) × (self.new.highest ≡ self.old.highest) }
    {
        let stream = self.streams.get(i);
        let end = ends(stream, size);
        write_row(stream, size, end, out)?;
        self.streams.advance(i, self.initial, size, end);
        self.window -= size as u32;
        Ok(())
    }

    fn write_trailers(&mut self, out: &mut Bytes, i: usize) -> Result<(), OutOfMemory>
        requires { HasTurn self.old.window self.old.initial self.old.streams i ATrailers }
        ensures writes { OnOk result (Writes (part_of self.old) out.old (part_of self.new) out.new) }
        ensures less { OnOk result (left_in self.new.streams < left_in self.old.streams) }
        ensures stays { (self.new.role ≡ self.old.role) × (self.new.highest ≡ self.old.highest) }
    {
        write_last(self.alloc, self.streams.get(i), self.shrink, out)?;
        self.shrink = false;
        self.streams.remove(i);
        Ok(())
    }
}
