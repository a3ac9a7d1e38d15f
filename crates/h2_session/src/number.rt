//! `StreamNumber`.

ghost use Rattle.std.specs.Prelude.{◌≡◌};
ghost use Rattle.h2_frames.specs.Spelling.{IsStreamNumber};

use std::marker::Model;

/// The number of a stream, from 1 to 2^31 - 1 (RFC 9113, section 5.1.1).
#[derive(Clone, Copy, Debug)]
pub(crate) struct StreamNumber {
    number: u32,
}

impl Model for StreamNumber {
    ghost use Rattle.std.specs.Prelude.{ℕ};
    ghost use Rattle.h2_frames.specs.Spelling.{IsStreamNumber};

    ghost Value = { ℕ };

    ghost view = { λ n. n.number };

    ghost inverse = { λ n. record { number = n } };

    ghost invariant = { λ n. IsStreamNumber n.number };
}

impl StreamNumber {
    pub(crate) fn new(number: u32) -> StreamNumber
        requires { IsStreamNumber number }
        ensures { result ≡ number }
    {
        StreamNumber { number }
    }

    pub(crate) fn get(self) -> u32
        ensures value { result ≡ self }
        ensures range { IsStreamNumber result }
    {
        self.number
    }
}
