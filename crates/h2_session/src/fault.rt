//! `ConnFault`.

ghost use Rattle.std.specs.Prelude.{◌≡◌};
ghost use Rattle.h2_session.specs.declared.fault.ConnFault.TheVariants.{OutOfMemory as NoMemory};

use proto_wire::OutOfMemory;

/// Why a connection has ended.
#[derive(Clone, Copy, Debug, PartialEq, Eq)]
pub enum ConnFault {
    /// The peer sent what it may not send. `code` is that of the GOAWAY that tells it, and `at` is the place of the first byte of
    /// the frame, in bytes of the connection from 0.
    Offence { code: u32, at: u64 },
    OutOfMemory,
}

impl From<OutOfMemory> for ConnFault {
    ghost from_gives = { λ _ e. e ≡ NoMemory };

    fn from(_e: OutOfMemory) -> ConnFault {
        ConnFault::OutOfMemory
    }
}

/// Why a frame was not taken.
#[derive(Clone, Copy, Debug)]
pub(crate) enum Stop {
    /// It offends, and this is the code that tells it.
    Offence(u32),
    OutOfMemory,
}

impl From<OutOfMemory> for Stop {
    ghost use Rattle.h2_session.specs.declared.fault.Stop.TheVariants.{OutOfMemory as NoRoom};

    ghost from_gives = { λ _ e. e ≡ NoRoom };

    fn from(_e: OutOfMemory) -> Stop {
        Stop::OutOfMemory
    }
}
