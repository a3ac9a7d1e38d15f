//! The store's rules as a machine of plain lists: events go in, replies come out. It holds no bodies and knows no
//! connection; the running store keeps indexes and is proved equal to it.
#![tactic(auto)]

mod digests;
mod event;
mod finding;
mod holds;
pub mod laws;
pub mod leases;
mod machine;
mod order;
pub mod owners;
mod passing;
mod reach;
mod rows;
mod standing;
mod state;

pub use digests::is_empty_blob;
pub use event::{Event, Reply, Standing, Usage};
pub use machine::Core;
pub use order::{digests_of, sort_pairs};
pub use reach::is_dir;
pub use standing::{MAX_PAIRS, MAX_STEPS, counted};
pub use state::{Guard, Lease, Marks, Row};

#[cfg(test)]
mod lease_tests;
#[cfg(test)]
mod random_tests;
#[cfg(test)]
mod tests;
