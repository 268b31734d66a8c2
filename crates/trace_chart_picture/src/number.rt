//! Reads and writes numbers.
ghost use Rattle.std.specs.Prelude.{◌≡◌, ◌++◌, OnOk};
ghost use Rattle.std.specs.Fmt.{decimal};
ghost use Rattle.trace_chart_picture.specs.Cuts as spec;

use plan_base::{Bytes, NoMemory};
use std::alloc::Global;

/// Appends a number in decimal.
pub fn put_number(alloc: Global, out: &mut Bytes, n: u64) -> Result<(), NoMemory>
    ensures { OnOk result (out.new ≡ out.old ++ decimal n) }
{
    let digits = format!(in alloc; "{n}")?;
    out.add_all(digits.as_bytes())?;
    Ok(())
}

/// The number that a word may be, digit by digit. The caller prints it again and compares, so a word with zeros in front, or
/// one that is no number, does no harm.
pub(crate) fn long(word: &[u8]) -> u64
    ensures { result ≡ spec.long word.now }
{
    let mut n: u64 = 0;
    for d in word {
        n = n
            .saturating_mul(10)
            .saturating_add(u64::from(d.saturating_sub(b'0')));
    }
    n
}

/// The same below 2^32, and 0 from there on.
pub(crate) fn short(word: &[u8]) -> u32
    ensures { result ≡ spec.short word.now }
{
    let n = long(word);
    if n > 4_294_967_295 {
        return 0;
    }
    n as u32
}
