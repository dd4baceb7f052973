// Why a file's topology couldn't be used.
use byte_ends::{Memory, ReadFault, WriteFault};
use json_reading::JsonFault;
use thiserror::Error;
use topojson_meaning::TopoFault;

/// Why a file's topology couldn't be used. On every fault but `Write` nothing was written.
#[derive(Clone, Copy, Debug, Error, PartialEq, Eq)]
pub enum FileFault {
    /// The file couldn't be read to its end, or has more than `MAX_INPUT` bytes.
    #[error("{0}")]
    Read(ReadFault),
    /// The file is no JSON text.
    #[error("{0}")]
    Json(JsonFault),
    /// The file is no topology that is taken.
    #[error("{0}")]
    Topo(TopoFault),
    /// No object of the topology has the name.
    #[error("no object has the name")]
    NoObject,
    /// The features of the object have so many positions, more than may be written.
    #[error("the features have {count} positions")]
    ManyPositions { count: u64 },
    /// The sink's device failed once it had taken this many bytes of the text.
    #[error("the device failed after {sent} bytes")]
    Write { sent: u64 },
    /// An allocation was refused.
    #[error("out of memory")]
    Memory,
}

impl From<Memory> for FileFault {
    ghost use Rattle.std.specs.Prelude.{◌≡◌};
    ghost use Rattle.inputs.specs.declared.file_fault.FileFault.TheVariants.{Memory};

    ghost from_gives = { λ _ e. e ≡ Memory };

    fn from(_e: Memory) -> FileFault {
        FileFault::Memory
    }
}

impl From<WriteFault> for FileFault {
    ghost use Rattle.std.specs.Prelude.{◌≡◌};
    ghost use Rattle.inputs.specs.Sent.{file_fault_of};

    ghost from_gives = { λ w e. e ≡ file_fault_of w };

    fn from(fault: WriteFault) -> FileFault {
        match fault {
            WriteFault::Write { sent } => FileFault::Write { sent },
        }
    }
}
