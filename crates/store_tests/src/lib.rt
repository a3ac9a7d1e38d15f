//! Worked examples of bodies, the store and a bench, and two callers of any door, which are proved by the clauses of `Door`
//! alone.
#![tactic(auto)]

mod callers;

pub use callers::{leased_read, put_then_find};

#[cfg(test)]
mod bench_tests;
#[cfg(test)]
mod body_tests;
#[cfg(test)]
mod load_tests;
#[cfg(test)]
mod store_tests;
