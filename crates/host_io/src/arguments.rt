//! The arguments of the process, as bytes.
ghost use Rattle.std.specs.Prelude.{◌≡◌, ◌≤◌, length, IfOk, IfSome, All};
ghost use Rattle.host_io.specs.Words.{IsShort};

use containers::Items;
use plan_base::{Bytes, NoMemory};
use std::alloc::Global;
use std::env::FillError;
use std::rt::Env;

/// The longest argument of a program on Linux, in bytes.
const MOST_ARGUMENT_BYTES: usize = 131_072;

/// An argument, as the system gives it.
#[derive(Drop)]
pub enum Argument {
    /// Its bytes, 131,072 at most.
    Whole(Bytes),
    /// It has more bytes.
    TooLong,
}

/// The arguments of a program, from its own name on.
pub type Arguments = Items<Argument>;

/// What the system gives at place `i`, or `None` where nothing is there. Condition: the buffer has at most 131,072 bytes.
fn argument_in<R: Env>(
    alloc: Global,
    system: &R,
    i: usize,
    buf: &mut [u8],
) -> Result<Option<Argument>, NoMemory>
    requires { length buf.old ≤ 131072 }
    ensures found { IfOk result (λ found. IfSome found IsShort) }
    ensures length { length buf.new ≡ length buf.old }
{
    match system.arg(i, buf) {
        Ok(len) => {
            let bytes = Vec::from_slice(alloc, &buf[..len])?;
            Ok(Some(Argument::Whole(Bytes::of(bytes))))
        }
        Err(FillError::TooLong) => Ok(Some(Argument::TooLong)),
        Err(FillError::NotPresent) => Ok(None),
    }
}

/// The arguments that the system gives, in their order, up to the first that isn't there. The system's own contract says
/// how many bytes it gives, and nothing of which ones, so this one doesn't either.
#[tactic(auto, using(crate::proofs::Shorts::none_short, crate::proofs::Shorts::more_short))]
pub fn arguments_of<R: Env>(alloc: Global, system: &R) -> Result<Arguments, NoMemory>
    ensures { IfOk result (All IsShort) }
{
    let mut arguments = Items::new(alloc);
    let mut buf = vec![in alloc; 0u8; MOST_ARGUMENT_BYTES]?;
    for i in 0..usize::MAX {
        let Some(argument) = argument_in(alloc, system, i, &mut buf)? else {
            break;
        };
        arguments.add(argument)?;
    }
    Ok(arguments)
}
