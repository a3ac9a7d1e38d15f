//! `Seat`.

ghost use Rattle.std.specs.Prelude.{◌≡◌};
ghost use Rattle.blob_store.specs.Benched.{unseated};

/// A seat of a bench: its owner, if it has had one, and whether that is in the store now.
#[derive(Clone, Copy, Debug, PartialEq, Eq)]
pub struct Seat {
    pub owner: Option<u64>,
    pub entered: bool,
}

impl Seat {
    /// A seat that has had no owner.
    pub(crate) fn empty() -> Seat
        ensures { result ≡ unseated }
    {
        Seat {
            owner: None,
            entered: false,
        }
    }
}
