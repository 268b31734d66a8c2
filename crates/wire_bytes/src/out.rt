//! Writes fields into room that was taken before.
ghost use Rattle.std.specs.Prelude.{◌≡◌, [], ◌∷◌, ◌++◌, ◌+◌, ◌≤◌, length, IfOk};
ghost use Rattle.std.specs.Int.{w16, w32, w64, to_be_bytes, cast_unsigned};

use std::alloc::{AllocError, Global};
use std::marker::Model;

/// Bytes put one after another into room that was taken before, which contracts see as the bytes and the room left.
#[derive(Drop)]
pub struct Out {
    bytes: Vec<u8>,
    room: u32,
}

impl Model for Out {
    ghost use Rattle.std.specs.Prelude.{◌+◌, ◌≤◌, vec_len, vec_capacity};
    ghost use Rattle.wire_bytes.specs.Fields.{Page};

    ghost Value = { Page };

    ghost view = { λ o. record { bytes = o.bytes.items; room = o.room } };

    ghost invariant = { λ o. vec_len o.bytes + o.room ≤ vec_capacity o.bytes };
}

impl Out {
    /// No bytes, with room for `n`.
    pub fn with_room(alloc: Global, n: u32) -> Result<Out, AllocError>
        ensures bytes { IfOk result (λ o. o.bytes ≡ []) }
        ensures room { IfOk result (λ o. o.room ≡ n) }
    {
        let bytes = Vec::with_capacity(alloc, n as usize)?;
        Ok(Out { bytes, room: n })
    }

    /// How many more bytes have room.
    pub fn room(&self) -> u32
        ensures { result ≡ self.now.room }
    {
        self.room
    }

    /// Puts a byte. Condition: it has room.
    pub fn put_u8(&mut self, v: u8)
        requires { 1 ≤ self.old.room }
        ensures bytes { self.new.bytes ≡ self.old.bytes ++ v ∷ [] }
        ensures room { self.new.room + 1 ≡ self.old.room }
    {
        self.bytes.push_reserved(v);
        self.room -= 1;
    }

    /// Puts a number as two bytes, the higher first. Condition: they have room.
    pub fn put_u16(&mut self, v: u16)
        requires { 2 ≤ self.old.room }
        ensures bytes { self.new.bytes ≡ self.old.bytes ++ to_be_bytes w16 v }
        ensures room { self.new.room + 2 ≡ self.old.room }
    {
        self.put_bytes(&v.to_be_bytes());
    }

    /// Puts a number as four bytes, the highest first. Condition: they have room.
    pub fn put_u32(&mut self, v: u32)
        requires { 4 ≤ self.old.room }
        ensures bytes { self.new.bytes ≡ self.old.bytes ++ to_be_bytes w32 v }
        ensures room { self.new.room + 4 ≡ self.old.room }
    {
        self.put_bytes(&v.to_be_bytes());
    }

    /// Puts a number as eight bytes, the highest first. Condition: they have room.
    pub fn put_u64(&mut self, v: u64)
        requires { 8 ≤ self.old.room }
        ensures bytes { self.new.bytes ≡ self.old.bytes ++ to_be_bytes w64 v }
        ensures room { self.new.room + 8 ≡ self.old.room }
    {
        self.put_bytes(&v.to_be_bytes());
    }

    /// Puts a number with sign as eight bytes of two's complement, the highest first. Condition: they have room.
    pub fn put_i64(&mut self, v: i64)
        requires { 8 ≤ self.old.room }
        ensures bytes { self.new.bytes ≡ self.old.bytes ++ to_be_bytes w64 (cast_unsigned w64 v) }
        ensures room { self.new.room + 8 ≡ self.old.room }
    {
        self.put_u64(v.cast_unsigned());
    }

    /// Puts bytes as they are. Condition: they have room.
    pub fn put_bytes(&mut self, v: &[u8])
        requires { length v.now ≤ self.old.room }
        ensures bytes { self.new.bytes ≡ self.old.bytes ++ v.now }
        ensures room { self.new.room + length v.now ≡ self.old.room }
    {
        // The room was taken before, so this asks for no memory and succeeds.
        if self.bytes.extend_from_slice(v).is_ok() {
            self.room -= v.len() as u32;
        }
    }

    /// The bytes that were put, as a vector.
    pub fn into_vec(self) -> Vec<u8>
        ensures { result.items ≡ self.bytes }
    {
        let Out { bytes, room: _ } = self;
        bytes
    }
}
