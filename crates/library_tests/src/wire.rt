// Numbers and fields as bytes.

use std::alloc::Global;
use wire_bytes::{Cursor, Out, Truncated};

static NUMBERS: &[u8] =
    b"\x07\x01\x02\x00\x00\x01\x00\x00\x00\x00\x00\x00\x00\x00\x03\xff\xff\xff\xff\xff\xff\xff\xfe";

fn begin(c: &mut Cursor) -> bool {
    c.u8() == Ok(7) && c.u16() == Ok(258) && c.u32() == Ok(256) && c.u64() == Ok(3)
}

fn end(c: &mut Cursor) -> bool {
    c.at() == 15 && c.i64() == Ok(-2) && c.u8() == Err(Truncated(23))
}

// Whether bytes are the numbers 7, 258, 256, 3 and -2, and nothing else.
fn are_numbers(bytes: &[u8]) -> bool {
    if bytes.len() > 100 {
        return false;
    }
    let mut c = Cursor::over(bytes);
    begin(&mut c) && end(&mut c)
}

// Each number is read back from the bytes that a person wrote down for it.
#[test]
fn numbers_are_big_endian(rt: HostRuntime) {
    assert!(rt; are_numbers(NUMBERS));
}

// Whether four bytes are refused at the first one, which is `a`.
fn is_cut(c: &mut Cursor) -> bool {
    c.u32() == Err(Truncated(0)) && c.u8() == Ok(97)
}

fn stays(c: &mut Cursor) -> bool {
    let save = c.fork();
    c.take(3).is_err() && c.at() == save.at()
}

fn takes(c: &mut Cursor, rest: &[u8]) -> bool {
    c.take(2) == Ok(rest) && c.take(0) == Ok(b"".as_slice())
}

fn is_refused_in_place(bytes: &[u8], rest: &[u8]) -> bool {
    if bytes.len() > 100 {
        return false;
    }
    let mut c = Cursor::over(bytes);
    is_cut(&mut c) && stays(&mut c) && takes(&mut c, rest)
}

// A field that is cut off is refused at its first byte, and the bytes that are there can still be read.
#[test]
fn cut_fields_are_refused_in_place(rt: HostRuntime) {
    assert!(rt; is_refused_in_place(b"abc", b"bc"));
}

static WRITTEN: &[u8] =
    b"\x07\x01\x02\x00\x00\x01\x00\x00\x00\x00\x00\x00\x00\x00\x03\xff\xff\xff\xff\xff\xff\xff\xfehi";

// Whether the same numbers and two letters are these bytes, and use up the room.
fn are_written(alloc: Global, wanted: &[u8]) -> bool {
    match Out::with_room(alloc, 25) {
        Ok(mut out) => {
            out.put_u8(7);
            out.put_u16(258);
            out.put_u32(256);
            out.put_u64(3);
            out.put_i64(-2);
            out.put_bytes(b"hi");
            out.room() == 0 && out.into_vec().as_slice() == wanted
        }
        Err(_) => false,
    }
}

// What is put stands there in order, and uses up the room.
#[test]
fn puts_use_up_the_room(rt: HostRuntime) {
    assert!(rt; are_written(rt.alloc(), WRITTEN));
}
