//! Reads the handler of an injection.
ghost use Rattle.std.specs.Prelude.{◌≡◌};
ghost use Rattle.line_reader.specs.Handlers as spec;
ghost use Rattle.line_reader.specs.Handlers.{handler_at};
ghost use Rattle.line_reader.specs.Reads.{GivesWith};

use crate::fault::{LineError, LineReason};
use crate::programs::name_of;
use crate::words::{Words, allow};
use checked_chunks::is_handler;
use plan_base::{Name, Program, Version};
use std::alloc::Global;

/// Whether a handler comes next: under version 2, where the next word says so.
fn has_handler(version: Version, words: &Words<'_>) -> bool
    ensures { result ≡ spec.has_handler version words.now }
{
    match version {
        Version::One => false,
        Version::Two => words.comes(b"handler"),
    }
}

/// `handler NAME`, where a function of that name may handle. Reasons: `BadWord`, `BadArgument`.
#[tactic(auto, unfolding(crate::specs::Handlers::named_handler))]
fn named_handler(
    alloc: Global,
    program: &Program,
    words: &mut Words<'_>,
) -> Result<Option<Name>, LineError>
    ensures { GivesWith (λ n. n) result words.new (spec.named_handler program.now words.old) }
{
    words.next()?;
    let word = words.next()?;
    let name = name_of(alloc, word, LineReason::BadArgument)?;
    allow(is_handler(program, &name), LineReason::BadArgument)?;
    Ok(Some(name))
}

/// The handler that `handler NAME` gives to what is injected, where a line under version 2 goes on so, else none. It is
/// a function of the program that may handle. Reasons: `BadWord`, `BadArgument`.
#[tactic(auto, unfolding(crate::specs::Handlers::handler_at))]
pub fn handler(
    alloc: Global,
    version: Version,
    program: &Program,
    words: &mut Words<'_>,
) -> Result<Option<Name>, LineError>
    ensures { GivesWith (λ n. n) result words.new (handler_at version program.now words.old) }
{
    if !has_handler(version, words) {
        return Ok(None);
    }
    named_handler(alloc, program, words)
}
