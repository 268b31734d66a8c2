//! Bytes, as a list of numbers below 256.
ghost use Rattle.std.specs.Prelude.{◌≡◌, ◌↔◌, IsTrue, [], ◌∷◌, ◌++◌, ◌<◌, length, get_or, IfOk, OnOk, OnErr};

use crate::memory::NoMemory;
use std::alloc::{AllocError, Global};
use std::marker::Model;

/// Bytes, which contracts see as a list of numbers below 256.
pub struct Bytes {
    all: Vec<u8>,
}

// (with its own `Drop`, so that what drops bytes need not prove again how they are dropped)
impl Drop for Bytes {
    fn drop(self) {
        let Bytes { all: _all } = self;
    }
}

impl Model for Bytes {
    ghost use Rattle.std.specs.Prelude.{List, ℕ};
    ghost use Rattle.std.specs.Coded.{coded_list, coded_ℕ};

    ghost Value = { List ℕ };

    ghost coded = { coded_list coded_ℕ };

    ghost view = { λ b. b.all.items };
}

impl Bytes {
    /// No bytes. Takes no memory before the first `add`.
    pub fn new(alloc: Global) -> Bytes
        ensures { result ≡ [] }
    {
        Bytes {
            all: Vec::new(alloc),
        }
    }

    /// The bytes of `v`, taken as they are.
    pub fn of(v: Vec<u8>) -> Bytes
        ensures { result ≡ v.items }
    {
        Bytes { all: v }
    }

    /// The vector of these bytes, given back.
    pub fn into_vec(self) -> Vec<u8>
        ensures { result.items ≡ self }
    {
        let Bytes { all } = self;
        all
    }

    /// The number of bytes.
    pub fn len(&self) -> usize
        ensures { result ≡ length self.now }
    {
        self.all.len()
    }

    /// The byte at place `i`, from 0. Condition: `i` is below the length.
    pub fn at(&self, i: usize) -> u8
        requires { i < length self.now }
        ensures { result ≡ get_or self.now i 0 }
    {
        self.all[i]
    }

    /// All bytes, lent.
    pub fn as_slice(&self) -> &[u8]
        ensures { result.now ≡ self.now }
    {
        self.all.as_slice()
    }

    /// The same bytes.
    pub fn copy(&self, alloc: Global) -> Result<Bytes, NoMemory>
        ensures { IfOk result (λ b. b ≡ self.now) }
    {
        let all = Vec::from_slice(alloc, self.all.as_slice())?;
        Ok(Bytes { all })
    }

    /// Adds `byte` at the end. Where an allocation fails, the bytes stay.
    pub fn add(&mut self, byte: u8) -> Result<(), AllocError>
        ensures ok { OnOk result (self.new ≡ self.old ++ byte ∷ []) }
        ensures err { OnErr result (self.new ≡ self.old) }
    {
        self.all.push(byte)?;
        Ok(())
    }

    /// Adds `more` at the end. Where an allocation fails, the bytes stay.
    pub fn add_all(&mut self, more: &[u8]) -> Result<(), AllocError>
        ensures ok { OnOk result (self.new ≡ self.old ++ more.now) }
        ensures err { OnErr result (self.new ≡ self.old) }
    {
        self.all.extend_from_slice(more)?;
        Ok(())
    }

    /// Whether the two have the same bytes. Takes no memory.
    pub fn is(&self, other: &Bytes) -> bool
        ensures { IsTrue result ↔ (self.now ≡ other.now) }
    {
        self.as_slice() == other.as_slice()
    }
}
