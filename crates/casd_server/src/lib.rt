//! The top calls of the daemon. `replay` runs records from standard input over a store in memory, or serves one connection
//! of HTTP/2 from standard input over such a store; the program `casd` calls it. What stands below it reads a line, runs its
//! call over the store, and spells the answer; of a connection that is done by `serve_connection`.
#![tactic(auto)]

mod answer;
mod asking;
mod batch;
mod command;
mod cut;
mod h2;
mod input;
mod link;
mod marks;
mod output;
mod parse;
mod record_line;
mod records;
mod seats;
mod sitting;
mod word;

pub use casd_connection::{ConnEnd, ConnReport, serve_connection};
pub use command::replay;
pub use records::End;

#[cfg(test)]
mod core_tests;
#[cfg(test)]
mod h2_tests;
#[cfg(test)]
mod tests;
