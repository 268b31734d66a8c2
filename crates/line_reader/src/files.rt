//! Reads a file line by line into the value that it says.
ghost use Rattle.std.specs.Prelude.{◌≡◌, ◌≤◌, length};
ghost use Rattle.line_reader.specs.Files.{Format, file_of};
ghost use Rattle.line_reader.specs.Reads.{FileGives, FileLeaves};

use crate::fault::LineFault;
use crate::words::next_line;
use std::alloc::Global;

/// What the lines of a file have said so far: how one line more is read, and what the file says at its end.
pub trait LineFile: Drop + Sized {
    /// What a whole file says.
    type Said: Drop;

    // the format: what the line with a number adds, and what the file says where it ends in front of that line
    ghost format: { Format Self Self.Said };

    /// Reads the line with this number, from 1. The fault is the line's reason, or running out of memory.
    fn line(&mut self, alloc: Global, number: u32, line: &[u8]) -> Result<(), LineFault>
        ensures { FileLeaves result self.new (format.step number line.now self.old) };

    /// What the file says that ends in front of the line with this number. The fault is that the file may not end there,
    /// or running out of memory.
    fn end(self, alloc: Global, number: u32) -> Result<Self::Said, LineFault>
        ensures { FileGives (λ s. s) result (format.finish number self) };
}

#[tactic(auto, using(crate::proofs::FileLaws::file_more, crate::proofs::FileLaws::file_stop, crate::proofs::FileLaws::file_done))]
/// What a file says, or its first line outside the format with the reason, or running out of memory. Condition: at most
/// 4,194,304 bytes.
pub fn read_file<F: LineFile>(alloc: Global, begin: F, bytes: &[u8]) -> Result<F::Said, LineFault>
    requires { length bytes.now ≤ 4194304 }
    ensures { FileGives (λ s. s) result (file_of F.format begin bytes.now) }
{
    let mut file = begin;
    let mut number: u32 = 1;
    let mut rest = bytes;
    while let Some((line, more)) = next_line(rest) {
        file.line(alloc, number, line)?;
        number += 1;
        rest = more;
    }
    file.end(alloc, number)
}
