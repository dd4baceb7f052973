// Why a page cannot be tried.
use std::alloc::{AllocError, AllocFailed};

/// Why a page cannot be tried.
#[derive(Drop)]
pub(crate) enum PageFault<'a> {
    /// This line of it says nothing.
    Line(&'a str),
    /// An allocation was refused.
    Memory(AllocError),
}

impl From<AllocError> for PageFault<'_> {
    fn from(error: AllocError) -> Self {
        PageFault::Memory(error)
    }
}

impl<T: Drop> From<AllocFailed<T>> for PageFault<'_> {
    fn from(refused: AllocFailed<T>) -> Self {
        PageFault::Memory(AllocError::from(refused))
    }
}
