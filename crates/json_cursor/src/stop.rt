// Why a reader stops.
use json_reading::Fault as TextFault;
use std::alloc::{AllocError, AllocFailed};

/// Why a reader stops.
#[derive(Clone, Copy, Debug, PartialEq, Eq)]
pub enum Stop<E> {
    /// Whatever value stands there, this is its first fault.
    Fault(E),
    /// No value stands there.
    NoValue,
    /// An allocation was refused. Nothing is said.
    Memory,
}

impl<E> From<TextFault> for Stop<E> {
    ghost use Rattle.std.specs.Prelude.{◌≡◌};
    ghost use Rattle.json_cursor.specs.Answers.{stop_of};

    ghost from_gives = { λ fault e. e ≡ stop_of fault };

    fn from(fault: TextFault) -> Stop<E> {
        match fault {
            TextFault::Memory => Stop::Memory,
            TextFault::Malformed { .. } => Stop::NoValue,
        }
    }
}

impl<E> From<AllocError> for Stop<E> {
    ghost use Rattle.std.specs.Prelude.{◌≡◌};
    ghost use Rattle.json_cursor.specs.declared.stop.Stop.TheVariants.{Memory};

    ghost from_gives = { λ _ e. e ≡ Memory };

    fn from(_e: AllocError) -> Stop<E> {
        Stop::Memory
    }
}

impl<E, T: Drop> From<AllocFailed<T>> for Stop<E> {
    ghost use Rattle.std.specs.Prelude.{◌≡◌};
    ghost use Rattle.json_cursor.specs.declared.stop.Stop.TheVariants.{Memory};

    ghost from_gives = { λ _ e. e ≡ Memory };

    fn from(_e: AllocFailed<T>) -> Stop<E> {
        Stop::Memory
    }
}
