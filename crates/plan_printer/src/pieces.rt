//! Puts names, numbers and texts.
ghost use Rattle.std.specs.Prelude.{◌≡◌, ◌++◌, ◌||◌, ◌==◌, ◌<◌, nat_lt, OnOk};
ghost use Rattle.std.specs.Fmt.{decimal};
ghost use Rattle.std.specs.List.{flat_map};
ghost use Rattle.plan_printer_spec.specs.Literals.{int_text, host_text, dev_text, hex_digit, hex_pair, byte_text, string_text, blob_text};
ghost use Rattle.plan_printer_spec.specs.Pieces.{scalar_text};
ghost use Rattle.plan_printer_spec.specs.Printed.{bool_text};

use plan_base::{Bytes, Name, NoMemory};
use std::alloc::Global;

/// Adds bytes at the end, or none where an allocation fails.
pub fn put(out: &mut Bytes, more: &[u8]) -> Result<(), NoMemory>
    ensures { OnOk result (out.new ≡ out.old ++ more.now) }
{
    out.add_all(more)?;
    Ok(())
}

/// A name between two texts.
#[tactic(auto, using(std::proofs::Common::append_assoc))]
pub(crate) fn put_named(
    before: &[u8],
    name: &Name,
    after: &[u8],
    out: &mut Bytes,
) -> Result<(), NoMemory>
    ensures { OnOk result (out.new ≡ out.old ++ (before.now ++ name.now ++ after.now)) }
{
    put(out, before)?;
    put(out, name.as_slice())?;
    put(out, after)
}

/// A number in decimal digits.
pub(crate) fn put_decimal(alloc: Global, number: u64, out: &mut Bytes) -> Result<(), NoMemory>
    ensures { OnOk result (out.new ≡ out.old ++ decimal number) }
{
    let digits = format!(in alloc; "{number}")?;
    put(out, digits.as_bytes())
}

/// A number with its sign, `~` before a negative one.
#[tactic(auto, unfolding(plan_printer_spec::specs::Literals::int_text), using(std::proofs::Common::append_assoc))]
pub(crate) fn put_int(alloc: Global, number: i64, out: &mut Bytes) -> Result<(), NoMemory>
    ensures { OnOk result (out.new ≡ out.old ++ int_text number) }
{
    if number >= 0 {
        return put_decimal(alloc, number as u64, out);
    }
    put(out, b"~")?;
    put_decimal(alloc, number.unsigned_abs(), out)
}

/// A host.
#[tactic(auto, unfolding(plan_printer_spec::specs::Literals::host_text), using(std::proofs::Common::append_assoc))]
pub(crate) fn put_host(alloc: Global, number: u32, out: &mut Bytes) -> Result<(), NoMemory>
    ensures { OnOk result (out.new ≡ out.old ++ host_text number) }
{
    put(out, b"@")?;
    put_decimal(alloc, u64::from(number), out)
}

/// A device.
#[tactic(auto, unfolding(plan_printer_spec::specs::Literals::dev_text), using(std::proofs::Common::append_assoc))]
pub(crate) fn put_dev(alloc: Global, number: u32, out: &mut Bytes) -> Result<(), NoMemory>
    ensures { OnOk result (out.new ≡ out.old ++ dev_text number) }
{
    put(out, b"%")?;
    put_decimal(alloc, u64::from(number), out)
}

/// A hex digit in lower case.
fn hex_digit(value: u8) -> u8
    requires { value < 16 }
    ensures { result ≡ hex_digit value }
{
    if value < 10 { b'0' + value } else { 87 + value }
}

/// The two hex digits of a byte.
#[tactic(auto, using(std::proofs::Common::append_assoc))]
fn put_hex_pair(byte: u8, out: &mut Bytes) -> Result<(), NoMemory>
    ensures { OnOk result (out.new ≡ out.old ++ hex_pair byte) }
{
    put(out, &[hex_digit(byte / 16), hex_digit(byte % 16)])
}

/// Whether a byte stands behind a backslash between such quotes.
fn is_escaped(quote: u8, byte: u8) -> bool
    ensures { result ≡ (byte == quote) || (byte == 92) }
{
    byte == quote || byte == b'\\'
}

/// Whether a byte is printed by its hex digits.
fn is_control(byte: u8) -> bool
    ensures { result ≡ nat_lt byte 32 || (byte == 127) }
{
    byte < 32 || byte == 127
}

/// A byte of a text between such quotes.
#[tactic(auto, unfolding(plan_printer_spec::specs::Literals::byte_text), using(std::proofs::Common::append_assoc))]
fn put_byte(quote: u8, byte: u8, out: &mut Bytes) -> Result<(), NoMemory>
    ensures { OnOk result (out.new ≡ out.old ++ byte_text quote byte) }
{
    if is_escaped(quote, byte) {
        return put(out, &[b'\\', byte]);
    }
    if byte == b'\n' {
        return put(out, b"\\n");
    }
    if byte == b'\t' {
        return put(out, b"\\t");
    }
    if byte == b'\r' {
        return put(out, b"\\r");
    }
    if is_control(byte) {
        put(out, b"\\x")?;
        return put_hex_pair(byte, out);
    }
    put(out, &[byte])
}

/// The bytes of a text between such quotes.
fn put_bytes(quote: u8, bytes: &[u8], out: &mut Bytes) -> Result<(), NoMemory>
    ensures { OnOk result (out.new ≡ out.old ++ flat_map (byte_text quote) bytes.now) }
{
    for byte in bytes {
        put_byte(quote, *byte, out)?;
    }
    Ok(())
}

/// A string of these bytes.
#[tactic(auto, unfolding(plan_printer_spec::specs::Literals::string_text), using(std::proofs::Common::append_assoc))]
pub(crate) fn put_string(bytes: &[u8], out: &mut Bytes) -> Result<(), NoMemory>
    ensures { OnOk result (out.new ≡ out.old ++ string_text bytes.now) }
{
    put(out, b"\"")?;
    put_bytes(b'"', bytes, out)?;
    put(out, b"\"")
}

/// A char by its scalar value. A number that is none prints as nothing.
#[tactic(auto, unfolding(plan_printer_spec::specs::Literals::char_text, plan_printer_spec::specs::Pieces::scalar_text), using(std::proofs::Common::append_assoc))]
pub(crate) fn put_char(code: u32, out: &mut Bytes) -> Result<(), NoMemory>
    ensures { OnOk result (out.new ≡ out.old ++ scalar_text code) }
{
    let Some(c) = char::from_u32(code) else {
        return put(out, b"");
    };
    let mut buffer = [0u8; 4];
    let bytes = c.encode_utf8(&mut buffer).as_bytes();
    put(out, b"'")?;
    put_bytes(b'\'', bytes, out)?;
    put(out, b"'")
}

/// Pairs of hex digits.
fn put_hex(bytes: &[u8], out: &mut Bytes) -> Result<(), NoMemory>
    ensures { OnOk result (out.new ≡ out.old ++ flat_map hex_pair bytes.now) }
{
    for byte in bytes {
        put_hex_pair(*byte, out)?;
    }
    Ok(())
}

/// A blob of these bytes.
#[tactic(auto, unfolding(plan_printer_spec::specs::Literals::blob_text), using(std::proofs::Common::append_assoc))]
pub(crate) fn put_blob(bytes: &[u8], out: &mut Bytes) -> Result<(), NoMemory>
    ensures { OnOk result (out.new ≡ out.old ++ blob_text bytes.now) }
{
    put(out, b"#\"")?;
    put_hex(bytes, out)?;
    put(out, b"\"")
}

/// A truth value.
pub(crate) fn put_bool(value: bool, out: &mut Bytes) -> Result<(), NoMemory>
    ensures { OnOk result (out.new ≡ out.old ++ bool_text value) }
{
    if value {
        put(out, b"true")
    } else {
        put(out, b"false")
    }
}
