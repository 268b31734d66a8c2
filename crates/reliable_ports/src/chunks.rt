//! The program of a port, and the chunks of messages and acks.
ghost use Rattle.std.specs.Prelude.{◌≡◌, ◌≤◌, ◌^◌, length, pos, IsTrue, IfOk, Ok};
ghost use Rattle.std.specs.List.{list_all};
ghost use Rattle.plan_base.specs.WellFormed.{well_formed_value, value_has_types};
ghost use Rattle.plan_types_spec.specs.Typing.{IsTypedChunk};
ghost use Rattle.checked_chunks.specs.Kept.{IsCheckedChunk};
ghost use Rattle.program_text.specs.Texts.{program_of};
ghost use Rattle.reliable_ports.specs.Programs as spec;
ghost use Rattle.reliable_ports.specs.Texts.{port_text};

use checked_chunks::{Checked, CheckedChunk};
use containers::Items;
use plan_base::{Bytes, Host, Name, NoMemory, Value, Values};
use plan_types_chunks::{ChunkFault, chunk_of};
use program_text::{TextFault, read_program};
use std::alloc::Global;

/// The text of a port's program.
#[tactic(auto, unfolding(crate::specs::Texts::port_text))]
fn port_text() -> &'static [u8]
    ensures text { result.now ≡ port_text }
    ensures short { length result.now ≤ 65536 }
{
    b"svc thisHostIs : (host) -> bool\nsvc getRB : () -> int\nsvc deliver : (int, (int * blob)) -> unit\nfun data(dest : host, seq : int, body : blob) : unit =\n  if thisHostIs(dest) then deliver(1, (seq, body))\n  else OnRemote(|data|(dest, seq, body), dest, getRB(), defaultRoute)\nfun ack(dest : host, next : int) : unit =\n  if thisHostIs(dest) then deliver(2, (next, #\"\"))\n  else OnRemote(|ack|(dest, next), dest, getRB(), defaultRoute)\n"
}

/// The program of a port, read from its text, which is that program's.
#[tactic(auto, using(crate::proofs::PortText::port_says))]
pub fn port_code(alloc: Global) -> Result<Checked, NoMemory>
    ensures text { IfOk result (λ code. program_of port_text ≡ Ok code) }
    ensures tree { IfOk result (λ code. code ≡ spec.port_program) }
{
    match read_program(alloc, port_text()) {
        Ok(code) => Ok(code),
        Err(TextFault::NoMemory) => Err(NoMemory),
        Err(TextFault::Lex(_)) | Err(TextFault::Parse(_)) => unreachable!(),
        Err(TextFault::Ty(_, _)) => unreachable!(),
    }
}

/// A chunk that is typed. Condition: it is.
fn typed_chunk(
    alloc: Global,
    code: &Checked,
    entry: &Name,
    args: Values,
) -> Result<CheckedChunk, NoMemory>
    requires formed { IsTrue (list_all well_formed_value args) }
    requires full { IsTrue (list_all value_has_types args) }
    requires typed { IsTypedChunk (record { code = code.now; entry = entry.now; args = args }) }
    ensures chunk { IfOk result (λ chunk. chunk ≡ record {
      code = code.now;
      entry = entry.now;
      args = args;
    }) }
    ensures checked { IfOk result IsCheckedChunk }
{
    match chunk_of(alloc, code, entry, args) {
        Ok(chunk) => Ok(chunk),
        Err(ChunkFault::NoMemory) => Err(NoMemory),
        Err(ChunkFault::Ill(_)) => unreachable!(),
        Err(ChunkFault::TooLarge) => unreachable!(),
    }
}

/// The arguments of a message's chunk.
fn data_args(alloc: Global, dest: Host, seq: u64, body: &Bytes) -> Result<Values, NoMemory>
    requires { seq ≤ 2 ^ 62 }
    ensures { IfOk result (λ vs. vs ≡ spec.data_args dest (pos seq) body.now) }
{
    let body = body.copy(alloc)?;
    let mut args = Items::new(alloc);
    args.add(Value::Host(dest))?;
    args.add(Value::Int(seq as i64))?;
    args.add(Value::Blob(body))?;
    Ok(args)
}

/// The chunk that carries a message to a host. Conditions: the code is a port's, and the body has at most 4,096 bytes.
#[tactic(auto, using(crate::proofs::Arguments::data_formed, crate::proofs::Arguments::data_full, crate::proofs::PortTyping::data_typed), unfolding(plan_base::specs::Words::is_name, plan_base::specs::Words::is_word, plan_base::specs::Words::is_reserved))]
pub fn data_chunk(
    alloc: Global,
    code: &Checked,
    dest: Host,
    seq: u64,
    body: &Bytes,
) -> Result<CheckedChunk, NoMemory>
    requires code { code.now ≡ spec.port_program }
    requires number { seq ≤ 2 ^ 62 }
    requires short { length body.now ≤ 4096 }
    ensures { IfOk result (λ chunk. chunk ≡ spec.data_chunk dest (pos seq) body.now) }
{
    let entry = Name::of(alloc, b"data")?;
    let args = data_args(alloc, dest, seq, body)?;
    typed_chunk(alloc, code, &entry, args)
}

/// The arguments of an ack's chunk.
fn ack_args(alloc: Global, dest: Host, next: u64) -> Result<Values, NoMemory>
    requires { next ≤ 2 ^ 62 }
    ensures { IfOk result (λ vs. vs ≡ spec.ack_args dest (pos next)) }
{
    let mut args = Items::new(alloc);
    args.add(Value::Host(dest))?;
    args.add(Value::Int(next as i64))?;
    Ok(args)
}

/// The chunk that says to a host which message is awaited. Condition: the code is a port's.
#[tactic(auto, using(crate::proofs::Arguments::ack_formed, crate::proofs::Arguments::ack_full, crate::proofs::PortTyping::ack_typed), unfolding(plan_base::specs::Words::is_name, plan_base::specs::Words::is_word, plan_base::specs::Words::is_reserved))]
pub fn ack_chunk(
    alloc: Global,
    code: &Checked,
    dest: Host,
    next: u64,
) -> Result<CheckedChunk, NoMemory>
    requires code { code.now ≡ spec.port_program }
    requires number { next ≤ 2 ^ 62 }
    ensures { IfOk result (λ chunk. chunk ≡ spec.ack_chunk dest (pos next)) }
{
    let entry = Name::of(alloc, b"ack")?;
    let args = ack_args(alloc, dest, next)?;
    typed_chunk(alloc, code, &entry, args)
}
