//! `Place`.

ghost use Rattle.std.specs.Prelude.{◌≡◌};
ghost use Rattle.live_calls.specs.Places.{Unary, Reading, Away, is_giving};

use crate::method::Method;
use blob_store::Shelf;
use byte_stream::ReadCall;
use proto_wire::Bytes;
use std::marker::Model;

/// The messages that came of a call that takes one.
#[derive(Debug, Drop)]
pub enum Messages {
    Nothing,
    One(Bytes),
    Many,
}

/// What is kept of a call that waits.
#[derive(Drop)]
pub(crate) enum Kept<K: Shelf> {
    /// A call that takes one message, until the peer half-closes.
    Unary { method: Method, messages: Messages },
    /// A Read that gives its responses.
    Reading(ReadCall<K>),
    /// It has its turn.
    Away,
}

/// Where a call waits.
#[derive(Drop)]
pub struct Place<K: Shelf> {
    pub(crate) kept: Kept<K>,
}

impl<K: Shelf> Model for Place<K> {
    ghost use Rattle.live_calls.specs.Places.{Waiting, waiting_at};

    ghost Value = { Waiting };

    ghost view = { λ p. waiting_at p.kept };
}

impl<K: Shelf> Place<K> {
    /// A call that has its turn.
    pub fn away() -> Place<K>
        ensures { result ≡ Away }
    {
        Place { kept: Kept::Away }
    }

    /// A call that takes one message, of which these came.
    pub(crate) fn unary(method: Method, messages: Messages) -> Place<K>
        ensures { result ≡ Unary method messages }
    {
        Place {
            kept: Kept::Unary { method, messages },
        }
    }

    /// A Read that gives its responses.
    pub(crate) fn reading(call: ReadCall<K>) -> Place<K>
        ensures { result ≡ Reading call }
    {
        Place {
            kept: Kept::Reading(call),
        }
    }

    /// Whether the call gives responses of its own accord.
    pub fn is_giving(&self) -> bool
        ensures { result ≡ is_giving self.now }
    {
        match &self.kept {
            Kept::Unary {
                method: _,
                messages: _,
            } => false,
            Kept::Reading(_) => true,
            Kept::Away => false,
        }
    }
}
