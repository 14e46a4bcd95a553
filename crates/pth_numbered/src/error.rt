//! Why nothing was added.

ghost use Rattle.std.specs.Prelude.{◌≡◌};

use pth_base::memory::OutOfMemory;
use std::alloc::{AllocError, AllocFailed};
use thiserror::Error;

/// Why nothing was added.
#[derive(Clone, Copy, Debug, PartialEq, Eq, Error)]
pub enum AddErr {
    /// There are as many as there may be at once.
    #[error("TooMany")]
    TooMany = 1,
    #[error("OutOfMemory")]
    OutOfMemory = 2,
}

impl From<AllocError> for AddErr {
    ghost use Rattle.pth_numbered.specs.declared.error.AddErr.TheVariants as add;

    ghost from_gives = { λ _ e. e ≡ add.OutOfMemory };

    fn from(_e: AllocError) -> AddErr {
        AddErr::OutOfMemory
    }
}

impl<T: Drop> From<AllocFailed<T>> for AddErr {
    ghost use Rattle.pth_numbered.specs.declared.error.AddErr.TheVariants as add;

    ghost from_gives = { λ _ e. e ≡ add.OutOfMemory };

    fn from(_e: AllocFailed<T>) -> AddErr {
        AddErr::OutOfMemory
    }
}

impl From<OutOfMemory> for AddErr {
    ghost use Rattle.pth_numbered.specs.declared.error.AddErr.TheVariants as add;

    ghost from_gives = { λ _ e. e ≡ add.OutOfMemory };

    fn from(_e: OutOfMemory) -> AddErr {
        AddErr::OutOfMemory
    }
}
