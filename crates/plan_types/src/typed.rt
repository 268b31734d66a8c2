//! The checking of whole programs.

ghost use Rattle.std.specs.Prelude.{◌≡◌, ◌≢◌, Ok, Err, IsTrue, is_ok, IfOk, IfErr, MatchOption, MatchResult};
ghost use Rattle.plan_base.specs.declared.tree.Program.{Program as Code};
ghost use Rattle.plan_base.specs.WellFormed.{IsWellFormedProgram, ProgramHasTypes};
ghost use Rattle.plan_types_spec.specs.Typing.{Typed};
ghost use Rattle.plan_types_spec.specs.TypingFills.{Fills};
ghost use Rattle.plan_types_spec.specs.TypingOrder.{annotated_program as answer};
ghost use Rattle.checked_chunks.specs.Kept.{IsChecked};

use crate::program::annotate_program;
use checked_chunks::Checked;
use containers::Shared;
use plan_base::{Draft, NoMemory, Program};
use plan_types_spec::TypeFault;
use std::alloc::Global;

/// Checks a well-formed draft: the types of `[]` and `raise` that are missing are taken from the wanted
/// types. Else the first refusal in the order of checking.
#[tactic(auto, using(crate::proofs::Answered::checked_by))]
pub fn annotate(alloc: Global, draft: Draft) -> Result<Checked, TypeFault>
    requires { IsWellFormedProgram draft.program }
    ensures found { IfOk result (λ k. Fills draft.program k × IsChecked k) }
    ensures answered { IfOk result (λ k. answer draft.program ≡ Ok k) }
    ensures only { (p : Code) → Fills draft.program p → Typed p
        → MatchResult result (λ k. k ≡ p) (λ f. f ≡ TypeFault.NoMemory) }
    ensures fault { IfErr result (λ f. f ≢ TypeFault.NoMemory → answer draft.program ≡ Err f) }
{
    let program = annotate_program(alloc, &draft.program)?;
    let shared = Shared::new(alloc, program)?;
    Ok(Checked::of(shared))
}

/// Checks a well-formed program in which no type of `[]` or `raise` is missing. Else the first refusal in
/// the order of checking.
#[tactic(auto, using(crate::proofs::Answered::full_by, crate::proofs::Answered::typed_by))]
pub fn check(alloc: Global, program: Program) -> Result<Checked, TypeFault>
    requires formed { IsWellFormedProgram program }
    requires full { ProgramHasTypes program }
    ensures found { IfOk result (λ k. (k ≡ program) × IsChecked k) }
    ensures only { Typed program → MatchResult result (λ k. k ≡ program) (λ f. f ≡
        TypeFault.NoMemory) }
    ensures fault { IfErr result (λ f. f ≢ TypeFault.NoMemory → answer program ≡ Err f) }
{
    let _filled = annotate_program(alloc, &program)?;
    let shared = Shared::new(alloc, program)?;
    Ok(Checked::of(shared))
}

/// The first refusal of a program in the order of checking, where there is one.
pub fn first_refusal(alloc: Global, program: &Program) -> Result<Option<TypeFault>, NoMemory>
    ensures { IfOk result (λ o. MatchOption o (IsTrue (is_ok (answer program.now))) (λ f. answer
        program.now ≡ Err f)) }
{
    match annotate_program(alloc, program) {
        Ok(_filled) => Ok(None),
        Err(TypeFault::NoMemory) => Err(NoMemory),
        Err(fault) => Ok(Some(fault)),
    }
}
