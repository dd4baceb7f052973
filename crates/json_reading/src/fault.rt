// Why a text is not read.
ghost use Rattle.std.specs.Prelude.{◌≡◌, length};
ghost use Rattle.json_reading.specs.declared.fault.Fault.TheVariants.{Memory};
ghost use Rattle.json_reading.specs.Gives.{StopsBefore};

use std::alloc::{AllocError, AllocFailed};
use thiserror::Error;

/// What is wrong with a malformed text.
#[derive(Debug, Drop, Error, Clone, Copy, PartialEq, Eq)]
pub enum Why {
    /// A byte that the grammar does not allow there.
    #[error("a byte that does not belong there")]
    Syntax,
    /// The bytes end before the value does.
    #[error("the text ends too early")]
    End,
    /// An array or object that opens past the allowed depth.
    #[error("arrays and objects nest too deep")]
    Deep,
    /// Half of a surrogate pair without the other half (RFC 8259, section 8.2).
    #[error("half of a surrogate pair stands alone")]
    Surrogate,
}

/// Why bytes are no JSON text.
#[derive(Debug, Drop, Error, Clone, Copy, PartialEq, Eq)]
pub enum JsonFault {
    /// The bytes are not UTF-8. `at` is the length of their longest prefix that is.
    #[error("not UTF-8 at byte {at}")]
    NotUtf8 { at: usize },
    /// The bytes are UTF-8 and spell no value. `at` is the byte at which reading stopped.
    #[error("malformed at byte {at}: {why}")]
    Malformed { at: usize, why: Why },
    #[error("out of memory")]
    Memory,
}

/// Why no value is read, inside the reader, where the place is the number of bytes that are left. The reason stands first, beside the
/// tag, so that a `Result` of a value lies in whole words and is moved by them.
#[derive(Debug, Drop)]
pub enum Fault {
    Malformed { why: Why, left: usize },
    Memory,
}

impl From<AllocError> for Fault {
    ghost from_gives = { λ _ e. e ≡ Memory };

    fn from(_e: AllocError) -> Fault {
        Fault::Memory
    }
}

impl From<byte_ends::Memory> for Fault {
    ghost from_gives = { λ _ e. e ≡ Memory };

    fn from(_e: byte_ends::Memory) -> Fault {
        Fault::Memory
    }
}

impl<T: Drop> From<AllocFailed<T>> for Fault {
    ghost from_gives = { λ _ e. e ≡ Memory };

    fn from(_e: AllocFailed<T>) -> Fault {
        Fault::Memory
    }
}

/// Reading stops before the rest: it ends too early, or its first byte does not belong there.
pub fn stopped(rest: &[u8]) -> Fault
    ensures { StopsBefore (length rest.now) result }
{
    let why = if rest.is_empty() {
        Why::End
    } else {
        Why::Syntax
    };
    Fault::Malformed {
        why,
        left: rest.len(),
    }
}
