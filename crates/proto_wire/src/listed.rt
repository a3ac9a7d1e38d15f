//! `Listed`.

ghost use Rattle.std.specs.Prelude.{◌≡◌, ◌++◌, ◌∷◌, ◌==◌, [], length, IfOk, OnOk, OnErr};

use crate::memory::OutOfMemory;
use std::alloc::Global;
use std::marker::Model;

/// Values on the heap, seen as the list of them. It is made from a `Vec` and gives it back.
#[derive(Debug, Drop)]
pub struct Listed<T> {
    vec: Vec<T>,
}

impl<T> Model for Listed<T> {
    ghost use Rattle.std.specs.Prelude.{List};

    ghost Value = { List T };

    ghost view = { λ l. l.vec.items };
}

impl<T: Drop> Listed<T> {
    /// No values. It takes no memory.
    pub fn new(alloc: Global) -> Listed<T>
        ensures { result ≡ [] }
    {
        Listed {
            vec: Vec::new(alloc),
        }
    }

    /// The values of a vector. It takes no memory.
    pub fn from_vec(vec: Vec<T>) -> Listed<T>
        ensures { result ≡ vec.items }
    {
        Listed { vec }
    }

    /// The vector. It takes no memory.
    pub fn into_vec(self) -> Vec<T>
        ensures { result.items ≡ self }
    {
        let Listed { vec } = self;
        vec
    }

    pub fn len(&self) -> usize
        ensures { result ≡ length self.now }
    {
        self.vec.len()
    }

    pub fn is_empty(&self) -> bool
        ensures { result ≡ (length self.now == 0) }
    {
        self.vec.is_empty()
    }

    pub fn as_slice(&self) -> &[T]
        ensures { result.now ≡ self.now }
    {
        self.vec.as_slice()
    }

    /// Adds a value at the end.
    pub fn push(&mut self, value: T) -> Result<(), OutOfMemory>
        ensures ok { OnOk result (self.new ≡ self.old ++ (value ∷ [])) }
        ensures err { OnErr result (self.new ≡ self.old) }
    {
        self.vec.push(value)?;
        Ok(())
    }
}

impl<T: Copy + Drop> Listed<T> {
    /// A copy of some values.
    pub fn copy_of(alloc: Global, values: &[T]) -> Result<Listed<T>, OutOfMemory>
        ensures { IfOk result (λ l. l ≡ values.now) }
    {
        let vec = Vec::from_slice(alloc, values)?;
        Ok(Listed { vec })
    }

    /// Adds copies of some values at the end.
    pub fn push_slice(&mut self, values: &[T]) -> Result<(), OutOfMemory>
        ensures ok { OnOk result (self.new ≡ self.old ++ values.now) }
        ensures err { OnErr result (self.new ≡ self.old) }
    {
        self.vec.extend_from_slice(values)?;
        Ok(())
    }
}
