//! `Text`.

ghost use Rattle.std.specs.Prelude.{◌≡◌, [], ◌≤◌, ◌==◌, length, IfOk, OnErr, ◌<◌, string_bytes};
ghost use Rattle.proto_wire.specs.Text.{held_bytes};

use crate::memory::OutOfMemory;
use arrayvec::ArrayString;
use std::alloc::Global;
use std::marker::Model;

/// How many bytes of text are kept in place.
pub const IN_PLACE: usize = 32;

#[derive(Debug, Drop)]
enum Held {
    InPlace(ArrayString<IN_PLACE>),
    OnHeap(String),
}

/// A text. One of at most 32 bytes is kept in place and takes no memory. Contracts see its bytes.
#[derive(Debug, Drop)]
pub struct Text {
    held: Held,
}

impl Model for Text {
    ghost use Rattle.std.specs.Prelude.{List, ℕ};
    ghost use Rattle.proto_wire.specs.Text.{held_bytes};

    ghost Value = { List ℕ };

    ghost view = { λ t. held_bytes t.held };
}

impl Text {
    /// No text. It takes no memory.
    pub fn empty() -> Text
        ensures { result ≡ [] }
    {
        Text::short("")
    }

    /// A text of at most 32 bytes. It takes no memory.
    pub fn short(text: &str) -> Text
        requires { length text.now ≤ 32 }
        ensures { result ≡ text.now }
    {
        let mut kept = ArrayString::new();
        kept.push_str(text);
        Text {
            held: Held::InPlace(kept),
        }
    }

    /// A copy of a text. One of at most 32 bytes takes no memory.
    pub fn new(alloc: Global, text: &str) -> Result<Text, OutOfMemory>
        ensures value { IfOk result (λ t. t ≡ text.now) }
        ensures long { OnErr result (32 < length text.now) }
    {
        if text.len() <= IN_PLACE {
            return Ok(Text::short(text));
        }
        let kept = String::from_str(alloc, text)?;
        Ok(Text {
            held: Held::OnHeap(kept),
        })
    }

    /// The text of a string, which it keeps. It takes no memory.
    pub fn from_string(text: String) -> Text
        ensures { result ≡ string_bytes text }
    {
        Text {
            held: Held::OnHeap(text),
        }
    }

    pub fn as_str(&self) -> &str
        ensures { result.now ≡ self.now }
    {
        match &self.held {
            Held::InPlace(text) => text.as_str(),
            Held::OnHeap(text) => text.as_str(),
        }
    }

    pub fn len(&self) -> usize
        ensures { result ≡ length self.now }
    {
        self.as_str().len()
    }

    pub fn is_empty(&self) -> bool
        ensures { result ≡ (length self.now == 0) }
    {
        self.as_str().is_empty()
    }
}
