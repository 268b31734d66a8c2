//! Programs that are typed.

ghost use Rattle.std.specs.Prelude.{◌≡◌, min, IfOk};
ghost use Rattle.plan_base.specs.Sizes.{code_size};
ghost use Rattle.checked_chunks.specs.Kept.{IsChecked};

use containers::Shared;
use plan_base::{NoMemory, Program};
use plan_base_size::code_size;
use std::marker::Model;

/// A program that is typed, which contracts see as that program. Its size is cached with it, so that it is measured once.
#[derive(Drop)]
pub struct Checked {
    program: Shared<Program>,
    size: u64,
}

impl Model for Checked {
    ghost use Rattle.plan_base.specs.declared.tree.Program.{Program};
    ghost use Rattle.plan_base.specs.contracts.tree.Program as whole;
    ghost use Rattle.checked_chunks.specs.Kept.{IsChecked};
    ghost use Rattle.std.specs.Prelude.{◌≡◌, min};
    ghost use Rattle.plan_base.specs.Sizes.{code_size};

    ghost Value = { Program };

    ghost coded = { whole.the_row.coded };

    ghost view = { λ k. k.program };

    ghost invariant = { λ k. IsChecked k.program × (k.size ≡ min (code_size k.program)
        18446744073709551615) };
}

impl Checked {
    /// A program that is known to be typed, so that nothing is tested again. Condition: it is typed and well formed, and
    /// no type is missing in it. Takes no memory.
    pub fn of(program: Shared<Program>) -> Checked
        requires { IsChecked program }
        ensures { result ≡ program }
    {
        let size = code_size(program.get());
        Checked { program, size }
    }

    /// The same, where its size is known. Takes no memory.
    pub fn of_size(program: Shared<Program>, size: u64) -> Checked
        requires checked { IsChecked program }
        requires size { size ≡ min (code_size program) 18446744073709551615 }
        ensures { result ≡ program }
    {
        Checked { program, size }
    }

    /// The program. Takes no memory.
    pub fn program(&self) -> &Program
        ensures value { result.now ≡ self.now }
        ensures kept { IsChecked self.now }
    {
        self.program.get()
    }

    /// The bytes of its marshalled form, or 2^64 - 1 where there are more. Takes no memory.
    pub fn size(&self) -> u64
        ensures { result ≡ min (code_size self.now) 18446744073709551615 }
    {
        self.size
    }

    /// The program, for one more owner. Takes no memory, and fails only where the count of owners is full.
    pub fn share_program(&self) -> Result<Shared<Program>, NoMemory>
        ensures value { IfOk result (λ p. p ≡ self.now) }
        ensures kept { IsChecked self.now }
    {
        Ok(self.program.share()?)
    }

    /// The same program, which is shared and not copied.
    pub fn copy(&self) -> Result<Checked, NoMemory>
        ensures { IfOk result (λ k. k ≡ self.now) }
    {
        let program = self.program.share()?;
        Ok(Checked {
            program,
            size: self.size,
        })
    }
}
