//! Directories in their canonical form (Remote Execution API v2, Directory): each has one spelling, so that equal
//! Directories have equal digests. It makes them, reads and writes them, and tells what they link to.
#![tactic(auto)]

mod borrowed;
mod directory;
mod entries;
mod entry;
mod error;
mod first;
mod fits;
mod keyed;
pub mod laws;
mod node;
mod order;
mod read;
mod tree;
mod twice;
mod valid;
mod write;

pub use directory::{Directory, Dirs};
pub use error::DirError;
pub use node::{Edge, Edges, Kind, Node};
pub use read::{links_of, read_canon};
pub use tree::{TreeMsg, tree_of, write_tree};
pub use write::write_canon;

#[cfg(test)]
mod tests;
#[cfg(test)]
mod tests_make;
