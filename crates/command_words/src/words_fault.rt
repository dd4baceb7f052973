// Why words ask for nothing that can be done.
use clap::Error;
use clap::error::ErrorKind;
use std::alloc::{AllocError, AllocFailed};
use std::fmt;

/// Why words ask for nothing that can be done. As a text it is what is to be printed, which is nothing for want of memory.
#[derive(Drop)]
pub enum WordsFault {
    /// The words ask for help.
    Help(Error),
    /// The words are refused.
    Refused(Error),
    /// The layer word of this number has no `=`. What to write in its place is said in lines, if that is asked.
    NoEquals { layer: usize, advice: String },
    /// The number of cells of the grid is out of range.
    GridRange,
    /// An allocation was refused.
    Memory,
}

impl WordsFault {
    ghost use Rattle.std.specs.Prelude.{◌≡◌, ◌⊎◌};
    ghost use Rattle.clap.specs.declared.error.Error.{Error as ClapError};
    ghost use Rattle.command_words.specs.declared.words_fault.WordsFault.TheVariants.{Memory, Refused};

    /// What `clap` says of words that are refused.
    pub(crate) fn refused(error: Error) -> WordsFault
        ensures { (result ≡ Memory) ⊎ ((e : ClapError) × (result ≡ Refused e)) }
    {
        if error.kind() == ErrorKind::OutOfMemory {
            return WordsFault::Memory;
        }
        WordsFault::Refused(error)
    }
}

impl fmt::Display for WordsFault {
    ghost use Rattle.command_words.specs.Faults.{words_fault_text};

    ghost output = { words_fault_text };

    fn fmt<W: fmt::Write>(&self, f: &mut fmt::Formatter<W>) -> fmt::Result {
        match self {
            WordsFault::Help(error) | WordsFault::Refused(error) => write!(f, "{error}"),
            WordsFault::NoEquals { layer, advice } => {
                write!(f, "error: layer {layer} has no =\n{advice}")
            }
            WordsFault::GridRange => writeln!(f, "error: a grid has from 2 to 1000000000 cells"),
            WordsFault::Memory => Ok(()),
        }
    }
}

impl From<AllocError> for WordsFault {
    ghost use Rattle.std.specs.Prelude.{◌≡◌};
    ghost use Rattle.command_words.specs.declared.words_fault.WordsFault.TheVariants.{Memory};

    ghost from_gives = { λ _ e. e ≡ Memory };

    fn from(_error: AllocError) -> WordsFault {
        WordsFault::Memory
    }
}

impl<T: Drop> From<AllocFailed<T>> for WordsFault {
    ghost use Rattle.std.specs.Prelude.{◌≡◌};
    ghost use Rattle.command_words.specs.declared.words_fault.WordsFault.TheVariants.{Memory};

    ghost from_gives = { λ _ e. e ≡ Memory };

    fn from(_refused: AllocFailed<T>) -> WordsFault {
        WordsFault::Memory
    }
}
