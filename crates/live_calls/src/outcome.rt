//! `Outcome`.

ghost use Rattle.std.specs.Prelude.{◌≡◌, Some, None, Result, Ok, Err};
ghost use Rattle.cas_calls.specs.Statuses.{fine, out_of_memory};
ghost use Rattle.live_calls.specs.declared.outcome.Outcome.TheVariants as outcomes;
ghost use Rattle.live_calls.specs.Replied.{replied_by};

use cas_calls::out_of_memory;
use casd_base::{Code, Status};
use proto_wire::{Bytes, OutOfMemory, Text};

/// How a turn of a call ends.
#[derive(Debug, Drop)]
pub enum Outcome<P> {
    /// It waits here.
    Rests(P),
    /// It gives a message, and waits here.
    Gives {
        message: Bytes,
        place: P,
    },
    /// It is answered with this message, if there is one, and this status.
    Finishes {
        message: Option<Bytes>,
        status: Status,
    },
    /// It ends without an answer.
    Vanishes,
}

fn fine() -> Status
    ensures { result ≡ fine }
{
    Status {
        code: Code::Ok,
        text: Text::empty(),
    }
}

/// The call ends well, behind the messages that it gave.
pub(crate) fn end<P>() -> Outcome<P>
    ensures { result ≡ outcomes.Finishes None fine }
{
    Outcome::Finishes {
        message: None,
        status: fine(),
    }
}

/// The call is refused.
pub(crate) fn refuse<P>(status: Status) -> Outcome<P>
    ensures { result ≡ outcomes.Finishes None status }
{
    Outcome::Finishes {
        message: None,
        status,
    }
}

/// The call is answered with one message, if there was memory for it.
pub(crate) fn reply<P>(message: Result<Bytes, OutOfMemory>) -> Outcome<P>
    ensures { result ≡ replied_by message }
{
    match message {
        Ok(message) => Outcome::Finishes {
            message: Some(message),
            status: fine(),
        },
        Err(OutOfMemory) => refuse(out_of_memory()),
    }
}
