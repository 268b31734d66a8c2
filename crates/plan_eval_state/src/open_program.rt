//! A program that is open.
ghost use Rattle.std.specs.Prelude.{◌≡◌, min, IfOk};
ghost use Rattle.plan_base.specs.Sizes.{code_size};

use containers::{Items, Shared};
use plan_base::{NoMemory, Program};
use plan_base_size::code_size;
use std::marker::Model;

/// A program with its size, which is so never counted again. Contracts see the program.
#[derive(Drop)]
pub struct OpenProgram {
    code: Shared<Program>,
    size: u64,
}

impl Model for OpenProgram {
    ghost use Rattle.std.specs.Prelude.{◌≡◌, min};
    ghost use Rattle.plan_base.specs.declared.tree.Program.{Program};
    ghost use Rattle.plan_base.specs.contracts.tree.Program as program_type;
    ghost use Rattle.plan_base.specs.Sizes.{code_size};

    ghost Value = { Program };

    ghost coded = { program_type.the_row.coded };

    ghost view = { λ p. p.code };

    ghost invariant = { λ p. p.size ≡ min (code_size p.code) 18446744073709551615 };
}

/// The programs that are open: that of the packet, and those of the chunks that were evaluated.
pub type OpenPrograms = Items<OpenProgram>;

impl OpenProgram {
    /// One more owner of a program, which is measured.
    pub fn of(code: &Shared<Program>) -> Result<OpenProgram, NoMemory>
        ensures { IfOk result (λ p. p ≡ code.now) }
    {
        OpenProgram::of_size(code, code_size(code.get()))
    }

    /// One more owner of a program whose size is known.
    pub fn of_size(code: &Shared<Program>, size: u64) -> Result<OpenProgram, NoMemory>
        requires size { size ≡ min (code_size code.now) 18446744073709551615 }
        ensures { IfOk result (λ p. p ≡ code.now) }
    {
        let code = code.share()?;
        Ok(OpenProgram { code, size })
    }

    /// The program.
    pub fn code(&self) -> &Shared<Program>
        ensures { result.now ≡ self.now }
    {
        &self.code
    }

    /// The bytes of its marshalled form, or 2^64 - 1 where there are more.
    pub fn size(&self) -> u64
        ensures { result ≡ min (code_size self.now) 18446744073709551615 }
    {
        self.size
    }
}
