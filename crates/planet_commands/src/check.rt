//! The command `check`.
ghost use Rattle.std.specs.Prelude.{◌≡◌, ◌≤◌, length, IfOk, MatchResult};
ghost use Rattle.std.specs.String.{string_bytes};
ghost use Rattle.plan_types_spec.specs.Typing.{Typed};
ghost use Rattle.planet_commands.specs.Said.{says};
ghost use Rattle.planet_commands.specs.Takes.{Refuses};
ghost use Rattle.planet_commands.specs.Checks.{program_limit, program_said, sizes_text};

use crate::command::{FileCommand, print};
use crate::status::Cause;
use node_io::Sink;
use plan_base::Program;
use plan_base_size::{CountsNodes, code_size};
use program_text::read_program;
use std::alloc::{AllocError, Global};

/// The most bytes of a program's text.
const MOST_PROGRAM_BYTES: usize = 65_536;

/// `check FILE`: the sizes of a program that is typed.
pub struct Check;

// The line of a program.
#[tactic(auto, using(program_text::proofs::Sizes::small_nodes, program_text::proofs::Sizes::small_code))]
fn sizes_line(alloc: Global, code: &Program) -> Result<String, AllocError>
    requires { Typed code.now }
    ensures { IfOk result (λ line. string_bytes line ≡ sizes_text code.now) }
{
    let functions = code.funs.len();
    let nodes = code.nodes();
    let size = code_size(code);
    format!(in alloc; "ok functions {functions} nodes {nodes} code {size}\n")
}

// The line of the program that a text is. Condition: at most 65,536 bytes.
#[tactic(auto, unfolding(crate::specs::Checks::program_said))]
fn line_of(alloc: Global, text: &[u8]) -> Result<String, Cause>
    requires { length text.now ≤ 65536 }
    ensures { MatchResult result (λ line. program_said text.now ≡ says (string_bytes line))
        (λ why. Refuses (program_said text.now) why) }
{
    match read_program(alloc, text) {
        Err(fault) => Err(Cause::from(fault)),
        Ok(checked) => {
            let line = sizes_line(alloc, checked.program());
            drop(checked);
            match line {
                Ok(line) => Ok(line),
                Err(AllocError) => Err(Cause::NoMemory),
            }
        }
    }
}

impl FileCommand for Check {
    ghost limit = { program_limit };

    ghost said = { λ command. program_said };

    fn limit() -> usize {
        MOST_PROGRAM_BYTES
    }

    #[tactic(auto, using(crate::proofs::Rendering::renders_none, crate::proofs::Rendering::renders_text))]
    fn write<K: Sink>(&self, alloc: Global, bytes: &[u8], out: &mut K) -> Cause {
        match line_of(alloc, bytes) {
            Ok(line) => print(line.as_bytes(), out),
            Err(cause) => cause,
        }
    }
}
