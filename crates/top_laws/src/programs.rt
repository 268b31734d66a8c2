//! A law shown by running: a printed program is read again as itself.
ghost use Rattle.std.specs.Prelude.{◌≡◌, IsTrue, Ok};
ghost use Rattle.std.specs.List.{list_all};
ghost use Rattle.plan_printer_spec.specs.Printed.{program_text};
ghost use Rattle.program_text_laws.specs.Proper.{IsProperProgram};
ghost use Rattle.program_text.specs.Texts.{Says, program_of};
ghost use Rattle.top_laws.specs.Exact.{function_exact, program_exact};

use crate::expressions::read_expr;
use checked_chunks::Checked;
use chunk_codec::{range_name, range_names, range_params, range_services};
use plan_base::{Fun, Program};

/// Reads the names, numbers and bytes of a function.
fn read_function(f: &Fun)
    ensures { IsTrue (function_exact f.now) }
{
    range_name(&f.name);
    range_params(f.params.as_slice());
    read_expr(&f.body);
}

/// Reads those of functions one after another.
fn read_functions(functions: &[Fun])
    ensures { IsTrue (list_all function_exact functions.now) }
{
    for f in functions {
        read_function(f);
    }
}

/// Reads those of a program.
#[tactic(auto, unfolding(crate::specs::Exact::program_exact))]
fn read_program(p: &Program)
    ensures { IsTrue (program_exact p.now) }
{
    range_services(p.svcs.as_slice());
    range_names(p.exns.as_slice());
    read_functions(p.funs.as_slice());
}

/// Shows that the printed text of a checked program says that same program, and changes nothing. So a text of at most
/// 65,536 bytes, which is what reading takes, is read as that program. Takes no memory.
#[tactic(auto, using(crate::proofs::ProgramsAgain::program_proper, crate::proofs::ProgramsAgain::program_says, crate::proofs::ProgramsAgain::program_found))]
pub fn program_reads_again(program: &Checked)
    ensures proper { IsProperProgram program.now }
    ensures says { Says (program_text program.now) program.now }
    ensures found { program_of (program_text program.now) ≡ Ok program.now }
{
    read_program(program.program());
}
