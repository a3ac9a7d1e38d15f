//! The leases of the store, what owners hold, what both guard, and the order in which blobs were used. It is told of each
//! row, lease and hold, and has no bodies. What a change costs goes by what it changes: a row by itself, a lease by what it
//! reaches.
#![tactic(auto)]

mod depth;
mod holder;
mod index;
mod lease_reach;
mod lease_reaches;
mod pairs;
mod slots;
mod table;
mod table_lease;
mod tally;
mod use_order;
mod walk;

pub use table::LeaseTable;
pub use table_lease::TableLease;
pub use use_order::UseOrder;

#[cfg(test)]
mod tests;
