//! `Call` and `Reading`.

use crate::unfinished::Unfinished;

/// What is read of a call.
#[derive(Debug, Drop)]
pub(crate) enum Reading {
    /// A client: the headers of the answer haven't come.
    Headers,
    /// Messages, with what has come of the next one.
    Body(Unfinished),
    /// Nothing more.
    Over,
}

/// A call that isn't over.
#[derive(Debug, Drop)]
pub(crate) struct Call {
    pub(crate) stream: u32,
    pub(crate) reading: Reading,
}
