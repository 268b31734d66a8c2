//! The standard outputs of the machine.
ghost use Rattle.std.specs.Prelude.{◌≡◌, ◌≤◌, ◌<◌, [], false, length, IfSome};

use node_io::{Failed, Sink, raise};
use std::io::Write;

/// A sink over a real output. Each push writes and flushes, so that no fault comes later. It reports
/// nothing of what the output holds.
#[derive(Drop)]
pub struct HostSink<W: Write + Drop> {
    inner: W,
    faults: u64,
}

impl<W: Write + Drop> HostSink<W> {
    /// A sink over this output: no fault is counted.
    pub fn new(inner: W) -> HostSink<W>
        ensures { result.faults ≡ 0 }
    {
        HostSink { inner, faults: 0 }
    }
}

/// Writes a prefix of `piece`, at least one byte of a nonempty one, and flushes. Answers its length,
/// or `None` where the writing or the flushing failed.
pub(crate) fn write_some<W: Write>(to: &mut W, piece: &[u8]) -> Option<usize>
    ensures { IfSome result (λ n. (n ≤ length piece.now) × (0 < length piece.now → 0 < n)) }
{
    if piece.is_empty() {
        return Some(0);
    }
    match to.write(piece) {
        Ok(count) if count > 0 => match to.flush() {
            Ok(()) => Some(count),
            Err(_) => None,
        },
        _ => None,
    }
}

impl<W: Write + Drop> Sink for HostSink<W> {
    ghost state = { λ s. record { observable = false; taken = []; faults = s.faults } };

    fn push(&mut self, piece: &[u8]) -> Result<usize, Failed> {
        match write_some(&mut self.inner, piece) {
            Some(count) => Ok(count),
            None => {
                raise(&mut self.faults);
                Err(Failed)
            }
        }
    }
}
