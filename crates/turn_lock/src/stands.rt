//! `Stands`.

/// A value that stands for a state of the store.
pub trait Stands {
    ghost use Rattle.store_core.specs.State.{State};

    // the state that it stands for
    ghost state: { Self → State };
}
