//! Texts in UTF-8.
ghost use Rattle.std.specs.Prelude.{◌≡◌, ◌↔◌, IsTrue, [], ◌∷◌, ◌++◌, ◌<◌, length, get_or, IfOk, OnOk, OnErr};
ghost use Rattle.std.specs.Str.{IsUtf8};
ghost use Rattle.plan_base.specs.Held.{held_bytes};

use crate::letters::InlineBytes;
use crate::memory::NoMemory;
use containers::Items;
use std::alloc::{AllocError, Global};
use std::marker::Model;

/// The bytes of a text.
#[derive(Drop)]
pub enum TextRepr {
    /// At most 16, which take no memory.
    Short(InlineBytes<16>),
    /// Any number, in memory of their own.
    Long(Vec<u8>),
}

/// A text, which contracts see as the list of its UTF-8 bytes. A short one takes no memory.
pub struct Text {
    held: TextRepr,
    alloc: Global,
}

// (with its own `Drop`, so that what drops a text need not prove again how its bytes are dropped)
impl Drop for Text {
    fn drop(self) {
        let Text {
            held: _held,
            alloc: _alloc,
        } = self;
    }
}

impl Model for Text {
    ghost use Rattle.std.specs.Prelude.{List, ℕ};
    ghost use Rattle.std.specs.Coded.{coded_list, coded_ℕ};
    ghost use Rattle.plan_base.specs.Held.{held_bytes};

    ghost Value = { List ℕ };

    ghost coded = { coded_list coded_ℕ };

    ghost view = { λ b. held_bytes b.held };
}

/// The same bytes.
fn copied(alloc: Global, held: &TextRepr) -> Result<TextRepr, AllocError>
    ensures { IfOk result (λ h. held_bytes h ≡ held_bytes held.now) }
{
    match held {
        TextRepr::Short(few) => Ok(TextRepr::Short(few.copy())),
        TextRepr::Long(all) => Ok(TextRepr::Long(Vec::from_slice(alloc, all.as_slice())?)),
    }
}

impl Text {
    /// The empty text. Takes no memory before the first `add`.
    pub fn new(alloc: Global) -> Text
        ensures { result ≡ [] }
    {
        Text {
            held: TextRepr::Short(InlineBytes::none()),
            alloc,
        }
    }

    /// The bytes of `v`.
    pub fn of(v: Vec<u8>) -> Text
        ensures { result ≡ v.items }
    {
        let alloc = *v.allocator();
        if v.len() <= 16 {
            let few = InlineBytes::of(v.as_slice());
            return Text {
                held: TextRepr::Short(few),
                alloc,
            };
        }
        Text {
            held: TextRepr::Long(v),
            alloc,
        }
    }

    /// The number of bytes.
    pub fn len(&self) -> usize
        ensures { result ≡ length self.now }
    {
        self.as_slice().len()
    }

    /// The byte at place `i`, from 0. Condition: `i` is below the length.
    pub fn at(&self, i: usize) -> u8
        requires { i < length self.now }
        ensures { result ≡ get_or self.now i 0 }
    {
        self.as_slice()[i]
    }

    /// All bytes, lent.
    pub fn as_slice(&self) -> &[u8]
        ensures { result.now ≡ self.now }
    {
        match &self.held {
            TextRepr::Short(few) => few.as_slice(),
            TextRepr::Long(all) => all.as_slice(),
        }
    }

    /// The text, lent. Condition: its bytes are valid UTF-8. Takes no memory.
    pub fn as_str(&self) -> &str
        requires { IsUtf8 self.now }
        ensures { result.now ≡ self.now }
    {
        // Safety: the condition is that of the call.
        unsafe { str::from_utf8_unchecked(self.as_slice()) }
    }

    /// The same text.
    pub fn copy(&self, alloc: Global) -> Result<Text, NoMemory>
        ensures { IfOk result (λ b. b ≡ self.now) }
    {
        let held = copied(alloc, &self.held)?;
        Ok(Text { held, alloc })
    }

    /// Adds `byte` at the end. Where an allocation fails, the bytes stay.
    pub fn add(&mut self, byte: u8) -> Result<(), AllocError>
        ensures ok { OnOk result (self.new ≡ self.old ++ byte ∷ []) }
        ensures err { OnErr result (self.new ≡ self.old) }
    {
        let more = [byte];
        self.add_all(more.as_slice())
    }

    /// Adds `more` at the end. Where an allocation fails, the bytes stay.
    pub fn add_all(&mut self, more: &[u8]) -> Result<(), AllocError>
        ensures ok { OnOk result (self.new ≡ self.old ++ more.now) }
        ensures err { OnErr result (self.new ≡ self.old) }
    {
        let mut all = Vec::from_slice(self.alloc, self.as_slice())?;
        all.extend_from_slice(more)?;
        *self = Text::of(all);
        Ok(())
    }

    /// Whether the two texts are the same. Takes no memory.
    pub fn is(&self, other: &Text) -> bool
        ensures { IsTrue result ↔ (self.now ≡ other.now) }
    {
        self.as_slice() == other.as_slice()
    }
}

/// A list of texts.
pub type Texts = Items<Text>;
