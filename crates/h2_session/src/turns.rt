//! What the streams may write next. No call takes memory.

ghost use Rattle.std.specs.Prelude.{◌≡◌, ◌≤◌, length, IfNone, IfSome, All};
ghost use Rattle.std.specs.List.{AllWithin};
ghost use Rattle.h2_session.specs.Sent.{is_closing, IsStuck};
ghost use Rattle.h2_session.specs.Turns.{IsTurn, HasTurn, end_of};

use crate::code::MAX_FRAME;
use crate::stream::{Sending, Stream};
use crate::turn::Turn;

pub(crate) fn is_closing(sending: &Sending) -> bool
    ensures { result ≡ is_closing sending.now }
{
    match sending {
        Sending::HalfClose => true,
        _ => false,
    }
}

/// The end of a stream whose bytes are all written.
fn end_of(sending: &Sending) -> Option<Turn>
    ensures { result ≡ end_of sending.now }
{
    match sending {
        Sending::Trailers(_) => Some(Turn::Trailers),
        Sending::HalfClose => Some(Turn::Piece(0)),
        _ => None,
    }
}

fn turn_of(stream: &Stream, initial: u32, window: u32) -> Option<Turn>
    ensures { IsTurn window initial stream.now result }
{
    let len = stream.waits.len();
    if len == 0 {
        return end_of(&stream.sending);
    }
    let window = stream.flow.window(initial).min(u64::from(window));
    if window == 0 {
        return None;
    }
    let size = (len as u64).min(window).min(MAX_FRAME as u64);
    Some(Turn::Piece(size as usize))
}

fn turn_within(
    streams: &[Stream],
    from: usize,
    to: usize,
    initial: u32,
    window: u32,
) -> Option<(usize, Turn)>
    requires { (from ≤ to) × (to ≤ length streams.now) }
    ensures some { IfSome result (λ t. HasTurn window initial streams.now t.0 t.1) }
    ensures none { IfNone result (AllWithin (IsStuck window initial) streams.now from to) }
{
    'rows: for i in from..to {
        if let Some(turn) = turn_of(&streams[i], initial, window) {
            return Some((i, turn));
        }
    }
    None
}

/// What a stream may write, the first from a place on.
pub(crate) fn next_turn(
    streams: &[Stream],
    from: usize,
    initial: u32,
    window: u32,
) -> Option<(usize, Turn)>
    ensures some { IfSome result (λ t. HasTurn window initial streams.now t.0 t.1) }
    ensures none { IfNone result (All (IsStuck window initial) streams.now) }
{
    let len = streams.len();
    let from = from.min(len);
    match turn_within(streams, from, len, initial, window) {
        Some(turn) => Some(turn),
        None => turn_within(streams, 0, from, initial, window),
    }
}
