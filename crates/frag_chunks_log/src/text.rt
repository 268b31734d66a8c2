//! Writes what was gathered.
ghost use Rattle.std.specs.Prelude.{◌≡◌, ◌++◌, IfOk, OnOk};
ghost use Rattle.hex.specs.Hex.{encode_lower};
ghost use Rattle.plan_printer_spec.specs.Literals.{int_text};
ghost use Rattle.frag_chunks_log.specs.Texts as spec;

use crate::counting::Counting;
use frag_chunks::{Gather, Held};
use hex::encode;
use node_log::put_number;
use plan_base::{Bytes, NoMemory};
use std::alloc::Global;

/// A number with its sign, `~` before a negative one, as an int of a program is printed.
#[tactic(auto, unfolding(plan_printer_spec::specs::Literals::int_text), using(std::proofs::Common::append_assoc))]
fn put_int(number: i64, out: &mut Bytes) -> Result<(), NoMemory>
    ensures { OnOk result (out.new ≡ out.old ++ int_text number) }
{
    if number >= 0 {
        return put_number(out, number as u64);
    }
    out.add_all(b"~")?;
    put_number(out, number.unsigned_abs())
}

/// A word and a key.
fn put_key(word: &[u8], key: i64, out: &mut Bytes) -> Result<(), NoMemory>
    ensures { OnOk result (out.new ≡ out.old ++ spec.key_text word.now key) }
{
    out.add_all(word)?;
    put_int(key, out)
}

/// A word and a count.
fn put_count(word: &[u8], n: u64, out: &mut Bytes) -> Result<(), NoMemory>
    ensures { OnOk result (out.new ≡ out.old ++ spec.count_text word.now n) }
{
    out.add_all(word)?;
    put_number(out, n)?;
    Ok(())
}

/// The line of a whole message.
#[tactic(auto, unfolding(crate::specs::Texts::whole_line))]
fn put_whole(alloc: Global, key: i64, bytes: &Bytes, out: &mut Bytes) -> Result<(), NoMemory>
    ensures { OnOk result (out.new ≡ out.old ++ spec.whole_line key bytes.now) }
{
    put_key(b"message ", key, out)?;
    put_count(b" bytes ", bytes.len() as u64, out)?;
    out.add_all(b" ")?;
    out.add_all(encode(alloc, bytes.as_slice())?.as_bytes())?;
    out.add_all(b"\n")?;
    Ok(())
}

/// The line of a message of which parts are missing.
#[tactic(auto, unfolding(crate::specs::Texts::open_line))]
fn put_open(key: i64, there: u32, count: u32, out: &mut Bytes) -> Result<(), NoMemory>
    ensures { OnOk result (out.new ≡ out.old ++ spec.open_line key there count) }
{
    put_key(b"open ", key, out)?;
    put_count(b" has ", u64::from(there), out)?;
    put_count(b" of ", u64::from(count), out)?;
    out.add_all(b"\n")?;
    Ok(())
}

/// The line of a key.
fn put_held(alloc: Global, held: &Held, out: &mut Bytes) -> Result<(), NoMemory>
    ensures { OnOk result (out.new ≡ out.old ++ spec.held_line held.now) }
{
    match held {
        Held::Whole(key, bytes) => put_whole(alloc, *key, bytes, out),
        Held::Missing(key, there, count) => put_open(*key, *there, *count, out),
        Held::Spoiled(key) => {
            put_key(b"spoiled ", *key, out)?;
            out.add_all(b"\n")?;
            Ok(())
        }
    }
}

/// The lines of all keys.
#[tactic(auto, using(crate::proofs::KeyTexts::key_put, crate::proofs::KeyTexts::keys_put))]
fn put_keys(alloc: Global, gather: &Gather, out: &mut Bytes) -> Result<(), NoMemory>
    ensures { OnOk result (out.new ≡ out.old ++ spec.keys_text gather.now.entries) }
{
    for i in 0..gather.len() {
        let held = gather.held(alloc, i)?;
        let put = put_held(alloc, &held, out);
        drop(held);
        put?;
    }
    Ok(())
}

/// What is written of what was gathered.
#[tactic(auto, unfolding(crate::specs::Texts::gathered_text))]
pub fn counting_text(alloc: Global, counting: &Counting) -> Result<Bytes, NoMemory>
    ensures { IfOk result (λ text. text ≡ spec.gathered_text counting.now) }
{
    let mut out = Bytes::new(alloc);
    put_keys(alloc, &counting.gather, &mut out)?;
    put_count(b"skipped ", counting.skipped, &mut out)?;
    out.add_all(b"\nend\n")?;
    Ok(out)
}
