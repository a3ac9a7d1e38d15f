//! Whether what a caller has may be handed in. No call takes memory.

ghost use Rattle.std.specs.Prelude.{◌≡◌, ◌-◌, nat_le, Some, None, true, if◌then◌else◌};
ghost use Rattle.hpack_tables.specs.Table.{list_size, size_of};
ghost use Rattle.h2_session.specs.Codes.{max_list};
ghost use Rattle.h2_session.specs.Machine.{part_of};
ghost use Rattle.h2_session.specs.Part.{stream_of};
ghost use Rattle.h2_session.specs.Said.{is_sending, may_say, IsSayable, IsSayableNow};

use crate::code::MAX_LIST;
use crate::event::Out;
use crate::machine::Machine;
use crate::role::Role;
use crate::stream::Sending;
use hpack_tables::{Header, Headers};

/// How many bytes a header counts beside its name and its value (RFC 9113, section 6.5.2).
const OVERHEAD: usize = 32;

/// What a header leaves of so many bytes, if there is room for it.
fn room_after(header: &Header, room: usize) -> Option<usize>
    ensures { result ≡ (if nat_le (size_of header.now) room then Some (room - size_of header.now) else None) }
{
    let size = header
        .name
        .len()
        .checked_add(header.value.len())?
        .checked_add(OVERHEAD)?;
    room.checked_sub(size)
}

fn are_small(headers: &[Header]) -> bool
    ensures { result ≡ nat_le (list_size headers.now) max_list }
{
    let mut room = MAX_LIST as usize;
    'headers: for header in headers {
        match room_after(header, room) {
            Some(rest) => room = rest,
            None => return false,
        }
    }
    true
}

/// Whether a header list is within its limit.
pub(crate) fn is_small(headers: &Headers) -> bool
    ensures { result ≡ nat_le (list_size headers.now) max_list }
{
    are_small(headers.as_slice())
}

fn is_sayable_now(role: Role, what: &Out, sending: &Sending) -> bool
    ensures yes { result ≡ true → (is_sending sending.now ≡ true) × IsSayableNow role what.now sending.now }
    ensures no { IsSayableNow role what.now sending.now → result ≡ true }
{
    match (role, what, sending) {
        (Role::Server, Out::Headers { headers, .. }, Sending::Unopened) => is_small(headers),
        (Role::Server, Out::Headers { headers, end }, Sending::Open) => *end && is_small(headers),
        (Role::Server, Out::Piece { end, .. }, Sending::Open) => !*end,
        (Role::Client, Out::Piece { .. }, Sending::Open) => true,
        _ => false,
    }
}

impl Machine {
    /// Whether this may be handed in on a stream.
    pub(crate) fn may_send(&self, stream: u32, what: &Out) -> bool
        ensures yes { result ≡ true → (may_say (stream_of stream (part_of self.now)) ≡ true) × IsSayable self.now.role what.now (stream_of stream (part_of self.now)) }
        ensures no { IsSayable self.now.role what.now (stream_of stream (part_of self.now)) → result ≡ true }
    {
        match self.place(stream) {
            Some(i) => is_sayable_now(self.role, what, &self.streams.get(i).sending),
            None => false,
        }
    }
}
