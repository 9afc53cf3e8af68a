// Why no image is read.
ghost use Rattle.std.specs.Prelude.{◌≡◌};
ghost use Rattle.image_record.specs.declared.refusal.ReadRefusal.TheVariants as refusal;

use std::alloc::{AllocError, AllocFailed};
use thiserror::Error;

/// A broken rule, and its three numbers; what they are differs from rule to rule.
#[derive(Clone, Copy, Debug, PartialEq, Eq)]
pub struct Refusal {
    /// 1 for K1, and so on.
    pub rule: u8,
    /// Where it is broken: K2 names the row of the key table.
    pub at: i64,
    /// What stands there: K2 names the domain or entry, from 0.
    pub found: i64,
    /// What is wanted there, else 0.
    pub wanted: i64,
}

/// Why no image was read.
#[derive(Clone, Copy, Debug, PartialEq, Eq, Error)]
pub enum ReadRefusal {
    /// The bytes are no text of TOML, or a row of the key table is broken.
    #[error("the image breaks a rule")]
    Broken(Refusal),
    /// Memory ran out before the image was read.
    #[error("memory ran out")]
    Memory,
}

impl From<AllocError> for ReadRefusal {
    ghost from_gives = { λ _ e. e ≡ refusal.Memory };

    fn from(_: AllocError) -> Self {
        ReadRefusal::Memory
    }
}

impl<T: Drop> From<AllocFailed<T>> for ReadRefusal {
    ghost from_gives = { λ _ e. e ≡ refusal.Memory };

    fn from(_: AllocFailed<T>) -> Self {
        ReadRefusal::Memory
    }
}

impl From<Refusal> for ReadRefusal {
    ghost from_gives = { λ r e. e ≡ refusal.Broken r };

    fn from(refusal: Refusal) -> Self {
        ReadRefusal::Broken(refusal)
    }
}
