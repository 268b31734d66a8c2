//! Writes the rows of a ledger.
ghost use Rattle.std.specs.Prelude.{◌≡◌, ◌+◌, ◌≤◌, ◌++◌, length, OnOk};
ghost use Rattle.std.specs.Fmt.{decimal};
ghost use Rattle.trace_text.specs.Printed.{printed_row};

use crate::short::ShortText;
use bound_ledger::Row;
use plan_base::{Bytes, Family, NoMemory};

/// Appends a word and a count of a row to a text. Condition: there is room for the word and 20 bytes more.
// The length of the word is part of its type, so that it is moved at once.
#[inline(always)]
fn write_count<const N: usize>(text: &mut ShortText, word: &[u8; N], n: u64)
    requires { length text.old + length word.now + 20 ≤ 192 }
    ensures text { text.new ≡ text.old ++ (word.now ++ decimal n) }
    ensures room { length text.new ≤ length text.old + length word.now + 20 }
{
    text.word(word);
    text.number(n);
}

/// Appends a row of a ledger.
pub fn put_row(out: &mut Bytes, f: Family, row: Row) -> Result<(), NoMemory>
    ensures { OnOk result (out.new ≡ out.old ++ printed_row (f, row)) }
{
    let mut text = ShortText::new();
    text.family(f);
    write_count(&mut text, b" granted ", row.granted);
    write_count(&mut text, b" hops ", row.hops);
    write_count(&mut text, b" evals ", row.evals);
    write_count(&mut text, b" live ", row.live);
    write_count(&mut text, b" left ", row.left);
    text.byte(b'\n');
    text.put(out)?;
    Ok(())
}
