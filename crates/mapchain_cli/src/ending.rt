// How a run ends that isn't done.
use inputs::{BuildFault, FileFault};
use std::alloc::{AllocError, AllocFailed};

/// How a run ends that isn't done.
#[derive(Drop)]
pub enum Ending {
    /// The area isn't one that is taken.
    BadArea,
    /// The least area of a ring isn't one that is taken.
    BadRingArea,
    /// The share isn't one that is taken.
    BadShare,
    /// The file of a layer couldn't be opened, or the engine refused to build.
    Refused(BuildFault),
    /// The file of a topology couldn't be opened, or the engine refused it.
    FileRefused(FileFault),
    /// An allocation was refused before the engine was called.
    Memory,
}

impl From<BuildFault> for Ending {
    ghost use Rattle.std.specs.Prelude.{◌≡◌};
    ghost use Rattle.mapchain_cli.specs.declared.ending.Ending.TheVariants.{Refused};

    ghost from_gives = { λ fault e. e ≡ Refused fault };

    fn from(fault: BuildFault) -> Ending {
        Ending::Refused(fault)
    }
}

impl From<FileFault> for Ending {
    ghost use Rattle.std.specs.Prelude.{◌≡◌};
    ghost use Rattle.mapchain_cli.specs.declared.ending.Ending.TheVariants.{FileRefused};

    ghost from_gives = { λ fault e. e ≡ FileRefused fault };

    fn from(fault: FileFault) -> Ending {
        Ending::FileRefused(fault)
    }
}

impl From<AllocError> for Ending {
    ghost use Rattle.std.specs.Prelude.{◌≡◌};
    ghost use Rattle.mapchain_cli.specs.declared.ending.Ending.TheVariants.{Memory};

    ghost from_gives = { λ _ e. e ≡ Memory };

    fn from(_error: AllocError) -> Ending {
        Ending::Memory
    }
}

impl<T: Drop> From<AllocFailed<T>> for Ending {
    ghost use Rattle.std.specs.Prelude.{◌≡◌};
    ghost use Rattle.mapchain_cli.specs.declared.ending.Ending.TheVariants.{Memory};

    ghost from_gives = { λ _ e. e ≡ Memory };

    fn from(_refused: AllocFailed<T>) -> Ending {
        Ending::Memory
    }
}
