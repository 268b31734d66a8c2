//! The program of a ping, and pings from host to host.
ghost use Rattle.std.specs.Prelude.{◌≡◌, ◌≤◌, ◌∷◌, [], length, IsTrue, IfOk, Ok};
ghost use Rattle.std.specs.List.{list_all};
ghost use Rattle.plan_base.specs.declared.tree.Value.TheVariants as value;
ghost use Rattle.plan_base.specs.WellFormed.{well_formed_value, value_has_types};
ghost use Rattle.plan_types_spec.specs.Typing.{IsTypedChunk};
ghost use Rattle.checked_chunks.specs.Kept.{IsCheckedChunk};
ghost use Rattle.program_text.specs.Texts.{program_of};
ghost use Rattle.grow_run.specs.Pings as spec;
ghost use Rattle.grow_run.specs.Programs.{ping_program};

use checked_chunks::{Checked, CheckedChunk};
use containers::Items;
use plan_base::{Host, Name, NoMemory, Value, Values};
use plan_types_chunks::{ChunkFault, chunk_of};
use program_text::{TextFault, read_program};
use std::alloc::Global;

/// The text of a ping's program.
#[tactic(auto, unfolding(crate::specs::Pings::ping_text))]
fn ping_text() -> &'static [u8]
    ensures text { result.now ≡ spec.ping_text }
    ensures short { length result.now ≤ 65536 }
{
    b"svc thisHostIs : (host) -> bool\nsvc getRB : () -> int\nsvc print : (string) -> unit\nfun ack() : unit = print(\"Success\")\nfun ping(src : host, dest : host) : unit =\n  if not thisHostIs(dest) then\n    OnRemote(|ping|(src, dest), dest, getRB(), defaultRoute)\n  else OnRemote(|ack|(), src, getRB(), defaultRoute)\n"
}

/// The program of a ping.
#[tactic(auto, using(crate::proofs::PingText::ping_says))]
pub fn ping_program(alloc: Global) -> Result<Checked, NoMemory>
    ensures text { IfOk result (λ code. program_of spec.ping_text ≡ Ok code) }
    ensures tree { IfOk result (λ code. code ≡ ping_program) }
{
    match read_program(alloc, ping_text()) {
        Ok(code) => Ok(code),
        Err(TextFault::NoMemory) => Err(NoMemory),
        Err(TextFault::Lex(_)) | Err(TextFault::Parse(_)) => unreachable!(),
        Err(TextFault::Ty(_, _)) => unreachable!(),
    }
}

/// Two hosts as arguments.
#[tactic(auto, using(crate::proofs::Arguments::hosts_formed, crate::proofs::Arguments::hosts_full))]
fn host_args(alloc: Global, from: Host, to: Host) -> Result<Values, NoMemory>
    ensures args { IfOk result (λ vs. vs ≡ value.Host from ∷ value.Host to ∷ []) }
    ensures formed { IfOk result (λ vs. IsTrue (list_all well_formed_value vs)) }
    ensures full { IfOk result (λ vs. IsTrue (list_all value_has_types vs)) }
{
    let mut args = Items::new(alloc);
    args.add(Value::Host(from))?;
    args.add(Value::Host(to))?;
    Ok(args)
}

/// A chunk that is typed. Condition: it is.
fn typed_chunk(
    alloc: Global,
    code: &Checked,
    entry: &Name,
    args: Values,
) -> Result<CheckedChunk, NoMemory>
    requires formed { IsTrue (list_all well_formed_value args) }
    requires full { IsTrue (list_all value_has_types args) }
    requires typed { IsTypedChunk (record { code = code.now; entry = entry.now; args = args }) }
    ensures chunk { IfOk result (λ chunk. chunk ≡ record {
      code = code.now;
      entry = entry.now;
      args = args;
    }) }
    ensures checked { IfOk result IsCheckedChunk }
{
    match chunk_of(alloc, code, entry, args) {
        Ok(chunk) => Ok(chunk),
        Err(ChunkFault::NoMemory) => Err(NoMemory),
        Err(ChunkFault::Ill(_)) => unreachable!(),
        Err(ChunkFault::TooLarge) => unreachable!(),
    }
}

/// A ping from one host to another. Condition: the code is a ping's.
#[tactic(auto, using(crate::proofs::PingTyping::ping_typed), unfolding(plan_base::specs::Words::is_name, plan_base::specs::Words::is_word, plan_base::specs::Words::is_reserved))]
pub fn ping(alloc: Global, code: &Checked, from: Host, to: Host) -> Result<CheckedChunk, NoMemory>
    requires { code.now ≡ ping_program }
    ensures chunk { IfOk result (λ chunk. chunk ≡ spec.ping code.now from to) }
    ensures checked { IfOk result IsCheckedChunk }
{
    let entry = Name::of(alloc, b"ping")?;
    let args = host_args(alloc, from, to)?;
    typed_chunk(alloc, code, &entry, args)
}
