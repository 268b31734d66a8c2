//! Takes the stack of the deepest call at the start.
use plan_base::NoMemory;
use std::alloc::Global;
use std::rt::Env;

/// How many bytes of the stack a call may take, and those of a piece of it.
const STACK: usize = 786_432;

const PIECE: usize = 4_096;

// Takes so many pieces of the stack, each below the one before. What is asked for is there in any process, and isn't
// looked at.
#[inline(never)]
fn fill_stack<R: Env>(system: &R, pieces: usize) {
    if pieces == 0 {
        return;
    }
    let mut piece = [0u8; PIECE];
    fill_stack(system, pieces - 1);
    let _ = system.arg(0, &mut piece);
}

/// Takes the stack of the deepest call, or answers that there is no memory for it. A stack that can't grow when it must
/// would end the process by a signal, so as much memory is asked for first.
pub fn take_stack<R: Env>(alloc: Global, system: &R) -> Result<(), NoMemory> {
    let mut room = vec![in alloc; 0u8; STACK]?;
    let _ = system.arg(0, &mut room);
    drop(room);
    fill_stack(system, STACK / PIECE);
    Ok(())
}
