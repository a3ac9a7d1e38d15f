//! `MessageFault`.

ghost use Rattle.std.specs.Prelude.{◌≡◌};
ghost use Rattle.grpc_calls.specs.Framing.{status_of};

use casd_base::{Code, Status};
use proto_wire::Text;

/// Why the messages of a stream can't be read.
#[derive(Clone, Copy, Debug)]
pub(crate) enum MessageFault {
    /// The flag is 1, and no compression was agreed on.
    Compressed,
    /// The flag is above 1.
    BadFlag,
    /// The content is longer than 8,388,608 bytes.
    TooLarge,
    /// The stream ends inside a message.
    Truncated,
}

impl MessageFault {
    /// The status that tells it. It takes no memory.
    pub(crate) fn status(self) -> Status
        ensures { result ≡ status_of self }
    {
        match self {
            MessageFault::Compressed => Status {
                code: Code::Unimplemented,
                text: Text::short("compressed message"),
            },
            MessageFault::BadFlag => Status {
                code: Code::Internal,
                text: Text::short("bad flag"),
            },
            MessageFault::TooLarge => Status {
                code: Code::InvalidArgument,
                text: Text::short("message too large"),
            },
            MessageFault::Truncated => Status {
                code: Code::InvalidArgument,
                text: Text::short("truncated message"),
            },
        }
    }
}
