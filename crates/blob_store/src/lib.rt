//! The bodies of blobs on a shelf, and the door to the store. Bytes become a body under the digest that they have, and are
//! read back only as the bytes of their digest. A door is a seat at the store: the one contract between the store and
//! everything above it.
#![tactic(auto)]

mod bell;
mod bench;
mod bodies;
mod checked;
mod door;
mod filling;
mod gate;
pub mod laws;
mod load;
mod lock_door;
mod memory;
mod noting;
mod reading;
mod seat;
mod shelf;
mod store;
mod taking;
mod turns;

pub use bell::{Bell, BellEar, BellGate};
pub use bench::Bench;
pub use checked::Checked;
pub use door::{Door, Passed, PutReply};
pub use filling::Filling;
pub use gate::{Ear, Gate, Ring};
pub use lock_door::LockDoor;
pub use memory::{MemBody, MemDraft, MemReader, MemShelf};
pub use reading::{Reading, ReadingEnd};
pub use seat::Seat;
pub use shelf::{Shelf, ShelfEnd};
pub use store::Store;
