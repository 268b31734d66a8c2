//! Shows that the numbers and names of programs, values and chunks are within their ranges.
ghost use Rattle.std.specs.Prelude.{IsTrue};
ghost use Rattle.std.specs.List.{list_all};
ghost use Rattle.plan_types_spec.specs.Typing.{IsTypedChunk};
ghost use Rattle.plan_base.specs.WellFormed.{IsWellFormedChunk};
ghost use Rattle.plan_base.specs.Words.{is_name};
ghost use Rattle.chunk_codec_spec.specs.Spelling.{a_whole_chunk};
ghost use Rattle.chunk_codec.specs.Ranges.{param_ranged, service_ranged, function_ranged, program_ranged, value_ranged, chunk_ranged};

use crate::range_exprs::{range_dev, range_expr, range_host, range_int, range_name};
use plan_base::{Chunk, Fun, Name, Param, Program, Svc, Value};

/// Reads the names of parameters, and changes nothing. Takes no memory.
pub fn range_params(params: &[Param])
    ensures { IsTrue (list_all param_ranged params.now) }
{
    for p in params {
        range_name(&p.name);
    }
}

/// Reads the names of services, and changes nothing. Takes no memory.
pub fn range_services(services: &[Svc])
    ensures { IsTrue (list_all service_ranged services.now) }
{
    for s in services {
        range_name(&s.name);
    }
}

/// Reads names one after another, and changes nothing. Takes no memory.
pub fn range_names(names: &[Name])
    ensures { IsTrue (list_all is_name names.now) }
{
    for n in names {
        range_name(n);
    }
}

/// Reads the names and numbers of a function.
fn range_function(f: &Fun)
    ensures { IsTrue (function_ranged f.now) }
{
    range_name(&f.name);
    range_params(f.params.as_slice());
    range_expr(&f.body);
}

/// Reads those of functions one after another.
fn range_functions(functions: &[Fun])
    ensures { IsTrue (list_all function_ranged functions.now) }
{
    for f in functions {
        range_function(f);
    }
}

/// Reads those of a program.
#[tactic(auto, unfolding(crate::specs::Ranges::program_ranged))]
fn range_program(p: &Program)
    ensures { IsTrue (program_ranged p.now) }
{
    range_services(p.svcs.as_slice());
    range_names(p.exns.as_slice());
    range_functions(p.funs.as_slice());
}

/// Reads those of a value.
#[cycle(range_values)]
#[tactic(auto, using(crate::proofs::RangeLaws::values))]
fn range_value(v: &Value)
    ensures { IsTrue (value_ranged v.now) }
{
    match v {
        Value::Unit | Value::Bool(_) | Value::Char(_) | Value::Str(_) | Value::Blob(_) => {}
        Value::Int(int) => range_int(int),
        Value::Host(host) => range_host(host),
        Value::Dev(dev) => range_dev(dev),
        Value::Chunk(chunk) => range_chunk(chunk.get()),
        Value::List(_, items) => range_values(items.as_slice()),
        Value::Tuple(parts) => range_values(parts.as_slice()),
    }
}

/// Reads those of values one after another.
#[cycle(range_values)]
fn range_values(values: &[Value])
    ensures { IsTrue (list_all value_ranged values.now) }
{
    for v in values {
        range_value(v);
    }
}

/// Reads those of a chunk.
#[cycle(range_values)]
fn range_chunk(c: &Chunk)
    ensures { IsTrue (chunk_ranged c.now) }
{
    range_program(c.code.get());
    range_name(&c.entry);
    range_values(c.args.as_slice());
}

/// Shows that a chunk keeps the limits of its spelling, and changes nothing. It reads the names and numbers of the
/// chunk, since a contract sees a tree without their ranges. Conditions: the chunk is typed and well formed. Takes no
/// memory.
#[tactic(auto, using(crate::proofs::Spelled::chunk_fits))]
pub fn may_be_spelled(c: &Chunk)
    requires typed { IsTypedChunk c.now }
    requires formed { IsWellFormedChunk c.now }
    ensures { a_whole_chunk.Fits c.now }
{
    range_chunk(c);
}
