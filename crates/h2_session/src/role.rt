//! `Role`.

ghost use Rattle.std.specs.Prelude.{◌≡◌};
ghost use Rattle.h2_session.specs.Faults.{is_server};

/// Which end of the connection this is.
#[derive(Clone, Copy, Debug, PartialEq, Eq)]
pub(crate) enum Role {
    Server,
    Client,
}

impl Role {
    pub(crate) fn is_server(self) -> bool
        ensures { result ≡ is_server self }
    {
        match self {
            Role::Server => true,
            Role::Client => false,
        }
    }
}
