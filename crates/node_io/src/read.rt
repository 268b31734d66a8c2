//! Reads a whole file, up to a limit.
ghost use Rattle.std.specs.Prelude.{◌≡◌, ◌≢◌, ◌++◌, ◌+◌, ◌^◌, ◌<◌, ◌≤◌, [], length, IsTrue, OnOk, IfOk};
ghost use Rattle.node_io.specs.FileStates.{Filled, Rest, ReadsFile};

use crate::outside::{Failed, Files};
use plan_base::{Bytes, NoMemory};
use std::alloc::{AllocError, Global};

/// Why a file wasn't read whole.
#[derive(Clone, Copy, PartialEq, Eq)]
pub enum ReadError {
    /// A call of the files failed; the count of faults of reading rose.
    Fault,
    /// The file has more bytes than the limit.
    TooLong,
    /// Memory was refused.
    NoMemory,
}

impl From<Failed> for ReadError {
    ghost use Rattle.node_io.specs.declared.read.ReadError.TheVariants.{Fault};

    ghost from_gives = { λ _ e. e ≡ Fault };

    fn from(_failed: Failed) -> ReadError {
        ReadError::Fault
    }
}

impl From<AllocError> for ReadError {
    ghost use Rattle.node_io.specs.declared.read.ReadError.TheVariants.{NoMemory};

    ghost from_gives = { λ _ e. e ≡ NoMemory };

    fn from(_refused: AllocError) -> ReadError {
        ReadError::NoMemory
    }
}

// Pulls the next bytes, at most `most`, adds them at the end of `bytes`, and answers their number,
// 0 only at the end of the file.
fn pull_some<F: Files>(files: &mut F, most: usize, bytes: &mut Bytes) -> Result<usize, ReadError>
    requires begun { IsTrue (F.state files.old).reading }
    requires room { 0 < most }
    ensures { Filled most bytes.old bytes.new (F.state files.old) (F.state files.new) result }
{
    let mut buf = [0u8; 4096];
    let room = most.min(4096);
    let count = files.pull(&mut buf[..room])?;
    bytes.add_all(&buf[..count])?;
    Ok(count)
}

// Reads to the end of the file, or stops after `limit` and one byte more.
fn read_rest<F: Files>(files: &mut F, limit: usize, bytes: &mut Bytes) -> Result<(), ReadError>
    requires begun { IsTrue (F.state files.old).reading }
    requires fits { limit < 2 ^ 62 }
    requires fresh { bytes.old ≡ [] }
    ensures { Rest limit bytes.new (F.state files.old) (F.state files.new) result }
{
    while bytes.len() <= limit {
        let most = limit + 1 - bytes.len();
        if pull_some(files, most, bytes)? == 0 {
            return Ok(());
        }
    }
    Err(ReadError::TooLong)
}

/// The bytes of the file `name`, which may be at most `limit`; the reading stops after `limit` and
/// one byte more.
pub fn read_whole<F: Files>(
    alloc: Global,
    files: &mut F,
    name: &str,
    limit: usize,
) -> Result<Bytes, ReadError>
    requires { limit < 2 ^ 62 }
    ensures { ReadsFile name.now limit (F.state files.old) (F.state files.new) result }
{
    let mut bytes = Bytes::new(alloc);
    files.read_from(name)?;
    read_rest(files, limit, &mut bytes)?;
    Ok(bytes)
}
