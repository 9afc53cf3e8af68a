// Where bytes come from, and reading to the end.
ghost use Rattle.std.specs.Prelude.{◌≡◌, ◌<◌, ◌≤◌, ◌+◌, ◌^◌, List, ℕ, length, Option, IfOk, Err, OnErr, IsErr};
ghost use Rattle.tp_io.specs.Causes.{TellsFault};
ghost use Rattle.tp_io.specs.Bytes.{Takes, TakesSome, AtEnd, before_known};
ghost use Rattle.tp_io.specs.declared.source.ReadError.TheVariants.{Failed as FailedRead, Memory};

use crate::Failed;
use std::alloc::{AllocError, AllocFailed, Global};
use thiserror::Error;

/// Where bytes come from.
pub trait Source {
    /// The bytes that are left, or `None` at a silent source.
    ghost left: { Self → Option (List ℕ) };

    /// How often it has failed.
    ghost faults: { Self → ℕ };

    /// Puts the next bytes at the front of the buffer, and says how many. 0 for
    /// a buffer that isn't empty is the end of the input.
    ///
    /// # Errors
    ///
    /// `Failed` where the source failed: its count of faults rose, and it took
    /// no bytes.
    fn read(&mut self, buf: &mut [u8]) -> Result<usize, Failed>
        ensures bytes { Takes (left self.old) (left self.new) result buf.new }
        ensures cause { TellsFault (IsErr result) (faults self.old) (faults self.new) };
}

/// Why reading to the end gave no bytes.
#[derive(Clone, Copy, Debug, PartialEq, Eq, Error)]
pub enum ReadError {
    /// The source failed.
    #[error("a read failed")]
    Failed,
    /// Memory ran out.
    #[error("memory ran out")]
    Memory,
}

impl From<Failed> for ReadError {
    ghost from_gives = { λ _ e. e ≡ FailedRead };

    fn from(_: Failed) -> Self {
        ReadError::Failed
    }
}

impl From<AllocError> for ReadError {
    ghost from_gives = { λ _ e. e ≡ Memory };

    fn from(_: AllocError) -> Self {
        ReadError::Memory
    }
}

impl<T: Drop> From<AllocFailed<T>> for ReadError {
    ghost from_gives = { λ _ e. e ≡ Memory };

    fn from(_: AllocFailed<T>) -> Self {
        ReadError::Memory
    }
}

/// Reads to the end, or until it has `most + 1` bytes, whichever comes first,
/// so that more than `most` bytes tell that the input is too long. What it read
/// before an error is lost.
///
/// # Errors
///
/// `ReadError::Failed` where the source failed, and `ReadError::Memory` where
/// memory ran out, which leaves the count of faults.
pub fn read_within<S: Source>(
    alloc: Global,
    source: &mut S,
    most: usize,
) -> Result<Vec<u8>, ReadError>
    requires few { most < 2 ^ 32 }
    ensures taken { IfOk result (λ v. S.left source.old ≡ before_known v.items (S.left source.new)) }
    ensures whole { IfOk result (λ v. length v.items ≤ most → AtEnd (S.left source.new)) }
    ensures most { IfOk result (λ v. length v.items ≤ most + 1) }

    ensures cause { TellsFault (result ≡ Err ReadError.Failed) (S.faults source.old) (S.faults source.new) }
    ensures lost { OnErr result (TakesSome (S.left source.old) (S.left source.new)) }
{
    let mut found = Vec::new(alloc);
    let mut buf = [0u8; 4096];
    while found.len() <= most {
        let room = (most + 1 - found.len()).min(buf.len());
        let count = source.read(&mut buf[..room])?;
        if count == 0 {
            break;
        }
        found.extend_from_slice(&buf[..count])?;
    }
    Ok(found)
}
