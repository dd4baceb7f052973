use thiserror::Error;

/// Why a member isn't found by its name.
#[derive(Clone, Copy, Debug, Error, PartialEq, Eq)]
pub enum LookupFault {
    /// No member has the name.
    #[error("Missing")]
    Missing,
    /// Two members or more have the name (RFC 8259, section 4).
    #[error("Duplicate")]
    Duplicate,
    /// The value of the member isn't of the kind that it must be.
    #[error("WrongKind")]
    WrongKind,
}
