//! A folder that keeps the bodies of blobs, and the list of their use that outlives a run. The store above reaches it by
//! the trait `Shelf`. A body is a file whose name says nothing of its content, and no name of a file is made of bytes of
//! a client. That the folder keeps what is written is trusted, not proved: a store checks each body by its digest.
#![tactic(auto)]

mod body_name;
mod draft;
mod folder;
mod host_shelf;
mod keep;
mod use_list;

pub use draft::{HostBody, HostDraft, HostReader};
pub use folder::{CacheFolder, FolderError};
pub use host_shelf::HostShelf;
pub use keep::keep_use;
pub use use_list::{read_use, use_text};

#[cfg(test)]
mod tests;
