//! `ServeEnd`.

ghost use Rattle.std.specs.Prelude.{◌≡◌};
ghost use Rattle.casd_daemon.specs.Serving.{status_of};

/// How `serve` ends.
#[derive(Clone, Copy, Debug, PartialEq, Eq)]
pub enum ServeEnd {
    /// So many connections came as were to come, or the host has no more, and the line was printed.
    Done,
    /// The words aren't of their form.
    Refused,
    /// The host had no shelf, or the shelf failed while the store was loaded.
    Unloaded,
    /// The host failed to make ready, or to accept a connection.
    Unaccepted,
    OutOfMemory,
    /// The host failed to print the line.
    Unprinted,
    /// The host failed to keep the list of use.
    Unkept,
}

impl ServeEnd {
    /// The status of the process.
    pub fn status(self) -> u8
        ensures { result ≡ status_of self }
    {
        match self {
            ServeEnd::Done => 0,
            ServeEnd::Refused => 2,
            ServeEnd::Unloaded => 3,
            ServeEnd::Unaccepted => 4,
            ServeEnd::OutOfMemory => 5,
            ServeEnd::Unprinted => 6,
            ServeEnd::Unkept => 7,
        }
    }
}
