//! Writes all of some bytes.
ghost use Rattle.std.specs.Prelude.{IsTrue};
ghost use Rattle.node_io.specs.Sinks.{Puts};
ghost use Rattle.node_io.specs.FileStates.{PutsFile};

use crate::outside::{Failed, Files, Sink};

/// Pushes all of `bytes`. Where a push fails, a prefix of them was taken.
#[tactic(auto, using(crate::proofs::SinkLaws::writes_none, crate::proofs::SinkLaws::fails_at))]
pub fn put_all<K: Sink>(sink: &mut K, bytes: &[u8]) -> Result<(), Failed>
    ensures { Puts bytes.now (K.state sink.old) (K.state sink.new) result }
{
    let mut at = 0;
    while at < bytes.len() {
        at += sink.push(&bytes[at..])?;
    }
    Ok(())
}

/// Pushes all of `bytes` to the file being written. Where a push fails, a prefix of them was added.
/// Condition: a writing is begun.
#[tactic(auto, using(crate::proofs::FileWrites::adds_none, crate::proofs::FileWrites::fails_adding_at))]
pub fn put_file<F: Files>(files: &mut F, bytes: &[u8]) -> Result<(), Failed>
    requires { IsTrue (F.state files.old).writing }
    ensures { PutsFile bytes.now (F.state files.old) (F.state files.new) result }
{
    let mut at = 0;
    while at < bytes.len() {
        at += files.push(&bytes[at..])?;
    }
    Ok(())
}
