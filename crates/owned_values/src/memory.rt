// The error of a call that fails only for want of memory.
ghost use Rattle.std.specs.Prelude.{◌≡◌};
ghost use Rattle.owned_values.specs.Refusals.{memory};

use std::alloc::{AllocError, AllocFailed};
use thiserror::Error;

/// Want of memory: an allocation was refused.
#[derive(Clone, Copy, Debug, PartialEq, Eq, Error)]
#[error("out of memory")]
pub struct Memory;

impl From<AllocError> for Memory {
    ghost from_gives = { λ _ e. e ≡ memory };

    fn from(_error: AllocError) -> Memory {
        Memory
    }
}

impl<T: Drop> From<AllocFailed<T>> for Memory {
    ghost from_gives = { λ _ e. e ≡ memory };

    fn from(_refused: AllocFailed<T>) -> Memory {
        Memory
    }
}
