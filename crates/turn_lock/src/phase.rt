//! `Phase`.

/// Where a seat stands between two turns. It exists in proofs alone.
pub enum Phase {
    /// It has no turn and waits for none.
    Idle,
    /// It waits for the turn with this number.
    Waits(u64),
    /// It has the turn with this number, and the value is out of the lock with it.
    HasTurn(u64),
    /// It was taken in by another.
    Gone,
}
