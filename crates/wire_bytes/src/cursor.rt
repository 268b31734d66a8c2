//! Reads fields from bytes.
ghost use Rattle.std.specs.Prelude.{◌≡◌, ◌+◌, ◌<◌, ◌≤◌, length};
ghost use Rattle.std.specs.Int.{w8, w16, w32, w64};
ghost use Rattle.wire_bytes.specs.Fields.{Reads, bytes_at, number_at, int_at, IsBytes};

use std::marker::Model;

/// The place of a field that isn't whole, in bytes from 0.
#[derive(Clone, Copy, PartialEq, Eq)]
pub struct Truncated(pub u32);

/// Reads fields from the left of some bytes, which contracts see as a place and the bytes from there on.
///
/// After a refusal the cursor is where it was. No call takes memory.
#[derive(Drop)]
pub struct Cursor<'a> {
    rest: &'a [u8],
    at: u32,
}

impl<'a> Model for Cursor<'a> {
    ghost use Rattle.std.specs.Prelude.{◌+◌, ◌≤◌, length};
    ghost use Rattle.wire_bytes.specs.Fields.{Front, IsBytes};

    ghost Value = { Front };

    ghost view = { λ c. record { at = c.at; rest = c.rest.now } };

    ghost invariant = { λ c. (c.at + length c.rest.now ≤ 4194304) × IsBytes c.rest.now };
}

impl<'a> Cursor<'a> {
    /// A cursor at the first of `bytes`. Condition: at most 4,194,304 bytes.
    pub fn over(bytes: &'a [u8]) -> Cursor<'a>
        requires { length bytes.now ≤ 4194304 }
        ensures at { result.at ≡ 0 }
        ensures rest { result.rest ≡ bytes.now }
    {
        Cursor { rest: bytes, at: 0 }
    }

    /// Another cursor at the same place, to come back to.
    pub fn fork(&self) -> Cursor<'a>
        ensures same { result ≡ self.now }
        ensures within { self.now.at + length self.now.rest ≤ 4194304 }
        ensures bytes { IsBytes self.now.rest }
    {
        Cursor {
            rest: self.rest,
            at: self.at,
        }
    }

    /// The place of the next field, in bytes from 0.
    pub fn at(&self) -> u32
        ensures place { result ≡ self.now.at }
        ensures within { self.now.at + length self.now.rest ≤ 4194304 }
        ensures bytes { IsBytes self.now.rest }
    {
        self.at
    }

    /// The next `n` bytes. `Truncated` where fewer are left.
    pub fn take(&mut self, n: u32) -> Result<&'a [u8], Truncated>
        ensures { Reads (λ x. x.now) (λ e. e.0) result self.old self.new (bytes_at n self.old) }
    {
        let count = n as usize;
        if self.rest.len() < count {
            return Err(Truncated(self.at));
        }
        let (front, rest) = self.rest.split_at(count);
        self.rest = rest;
        self.at += n;
        Ok(front)
    }

    /// The next byte. `Truncated` where none is left.
    pub fn u8(&mut self) -> Result<u8, Truncated>
        ensures { Reads (λ x. x) (λ e. e.0) result self.old self.new (number_at w8 self.old) }
    {
        let bytes = self.take(1)?;
        Ok(u8::from_be_bytes([bytes[0]]))
    }

    /// The next number of two bytes, the higher byte first. `Truncated` where it isn't whole.
    pub fn u16(&mut self) -> Result<u16, Truncated>
        ensures { Reads (λ x. x) (λ e. e.0) result self.old self.new (number_at w16 self.old) }
    {
        let bytes = self.take(2)?;
        Ok(u16::from_be_bytes([bytes[0], bytes[1]]))
    }

    /// The next number of four bytes, the highest byte first. `Truncated` where it isn't whole.
    pub fn u32(&mut self) -> Result<u32, Truncated>
        ensures { Reads (λ x. x) (λ e. e.0) result self.old self.new (number_at w32 self.old) }
    {
        let bytes = self.take(4)?;
        Ok(u32::from_be_bytes([bytes[0], bytes[1], bytes[2], bytes[3]]))
    }

    /// The next number of eight bytes, the highest byte first. `Truncated` where it isn't whole.
    pub fn u64(&mut self) -> Result<u64, Truncated>
        ensures { Reads (λ x. x) (λ e. e.0) result self.old self.new (number_at w64 self.old) }
    {
        let bytes = self.take(8)?;
        Ok(u64::from_be_bytes([
            bytes[0], bytes[1], bytes[2], bytes[3], bytes[4], bytes[5], bytes[6], bytes[7],
        ]))
    }

    /// The next number of eight bytes in two's complement, the highest byte first. `Truncated` where it isn't whole.
    pub fn i64(&mut self) -> Result<i64, Truncated>
        ensures { Reads (λ x. x) (λ e. e.0) result self.old self.new (int_at self.old) }
    {
        Ok(self.u64()?.cast_signed())
    }
}
