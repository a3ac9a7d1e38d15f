//! The store's rules over hashed indexes: it takes the events of `store_core`'s `Core`, with the same replies and the same
//! states, and looks a row up where that walks. It holds no bodies: it tells which rows go, and the running store gives
//! up the bodies of these.
#![tactic(auto)]

mod asking;
mod flags;
mod index;
mod machine;
mod standing;

pub use machine::IndexedCore;
