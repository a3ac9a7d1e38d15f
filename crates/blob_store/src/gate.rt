//! What is told when the store fills up, and who hears it.

ghost use Rattle.std.specs.Prelude.{◌≡◌, ◌+◌, ◌<◌, ◌^◌, ℕ};
ghost use Rattle.blob_store.specs.Rings.{passes_in, stops_in};

/// What is told when a put leaves the store above its ring mark.
pub trait Gate {
    // how often it was told
    ghost rings: { Self → ℕ };

    /// Says that an expiry pass is due. It may wait.
    fn ring(&mut self)
        requires { rings self.old < 2 ^ 63 }
        ensures { rings self.new ≡ rings self.old + 1 };
}

/// What an ear hears.
#[derive(Clone, Copy, Debug, PartialEq, Eq)]
pub enum Ring {
    /// An expiry pass is due.
    Pass,
    /// The end is near: no more passes are wanted.
    Stop,
}

/// What the one who makes the passes listens with.
pub trait Ear {
    // how often it heard that a pass is due
    ghost passes: { Self → ℕ };

    // how often it heard that it is to stop
    ghost stops: { Self → ℕ };

    /// Waits until there is something to hear.
    fn wait(&mut self) -> Ring
        requires few { passes self.old < 2 ^ 63 }
        requires on { stops self.old ≡ 0 }
        ensures passes { passes self.new ≡ passes self.old + passes_in result }
        ensures stops { stops self.new ≡ stops self.old + stops_in result };
}
