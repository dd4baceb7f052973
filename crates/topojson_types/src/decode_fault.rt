use owned_values::Memory;
use std::alloc::AllocFailed;
use thiserror::Error;

/// Why the features of an object couldn't be had.
#[derive(Clone, Copy, Debug, Error, PartialEq, Eq)]
pub enum DecodeFault {
    /// No object of the topology has the name.
    #[error("NoObject")]
    NoObject,
    /// An allocation was refused.
    #[error("Memory")]
    Memory,
}

impl From<Memory> for DecodeFault {
    ghost use Rattle.std.specs.Prelude.{◌≡◌};
    ghost use Rattle.topojson_types.specs.declared.decode_fault.DecodeFault.TheVariants as fault;

    ghost from_gives = { λ _ e. e ≡ fault.Memory };

    fn from(_e: Memory) -> DecodeFault {
        DecodeFault::Memory
    }
}

impl<T: Drop> From<AllocFailed<T>> for DecodeFault {
    ghost use Rattle.std.specs.Prelude.{◌≡◌};
    ghost use Rattle.topojson_types.specs.declared.decode_fault.DecodeFault.TheVariants as fault;

    ghost from_gives = { λ _ e. e ≡ fault.Memory };

    fn from(_e: AllocFailed<T>) -> DecodeFault {
        DecodeFault::Memory
    }
}
