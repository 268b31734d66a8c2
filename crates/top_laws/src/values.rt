//! A law shown by running: printed arguments are read again as themselves.
ghost use Rattle.std.specs.Prelude.{◌≡◌, ℕ, IsTrue, slice_get, Some};
ghost use Rattle.std.specs.List.{list_all};
ghost use Rattle.plan_base.specs.declared.tree.Value.{Value as Tree};
ghost use Rattle.plan_parser.specs.Values.{value_of};
ghost use Rattle.plan_parser.specs.ReadTexts.{Reads};
ghost use Rattle.plan_printer_spec.specs.Printed.{value_text};
ghost use Rattle.top_laws.specs.Exact.{value_exact};
ghost use Rattle.top_laws.specs.ReadBack.{IsReadBack};

use crate::expressions::read_blob;
use checked_chunks::CheckedChunk;
use chunk_codec::{range_dev, range_host, range_int};
use plan_base::Value;

/// Reads the numbers and bytes of a value outside of its chunks.
#[cycle(values)]
#[tactic(auto, using(crate::proofs::ExactLaws::values))]
fn read_value(v: &Value)
    ensures { IsTrue (value_exact v.now) }
{
    match v {
        Value::Unit | Value::Bool(_) | Value::Char(_) | Value::Str(_) | Value::Chunk(_) => {}
        Value::Blob(blob) => read_blob(blob),
        Value::Int(int) => range_int(int),
        Value::Host(host) => range_host(host),
        Value::Dev(dev) => range_dev(dev),
        Value::List(_, items) => read_values(items.as_slice()),
        Value::Tuple(parts) => read_values(parts.as_slice()),
    }
}

/// Reads those of values one after another.
#[cycle(values)]
fn read_values(values: &[Value])
    ensures { IsTrue (list_all value_exact values.now) }
{
    for v in values {
        read_value(v);
    }
}

/// Shows that each argument of a checked chunk that is within the limits of written values is read again from its printed
/// text as the same value, and changes nothing. Takes no memory.
#[tactic(auto, using(crate::proofs::ValuesAgain::arguments_again))]
pub fn arguments_read_again(chunk: &CheckedChunk)
    ensures { (i : ℕ) (v : Tree) → slice_get chunk.now.args i ≡ Some v → IsReadBack v → Reads
        value_of (value_text v) v }
{
    read_values(chunk.chunk().args.as_slice());
}
