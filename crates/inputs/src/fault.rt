// Why a topology couldn't be built.
use byte_ends::{Memory, ReadFault, WriteFault};
use geojson_meaning::GeoFault;
use json_reading::JsonFault;
use std::alloc::AllocFailed;
use thiserror::Error;

/// Why a topology couldn't be built. Layers count from zero. On every fault but `Write` nothing was written.
#[derive(Clone, Copy, Debug, Error, PartialEq, Eq)]
pub enum BuildFault {
    /// A layer's name is the empty text.
    #[error("layer {layer} has an empty name")]
    EmptyName { layer: usize },
    /// A layer has the name of an earlier one.
    #[error("layer {layer} has the name of an earlier layer")]
    DuplicateName { layer: usize },
    /// A layer couldn't be read to its end, or has more than `MAX_INPUT` bytes.
    #[error("layer {layer}: {fault}")]
    Read { layer: usize, fault: ReadFault },
    /// A layer is no JSON text.
    #[error("layer {layer}: {fault}")]
    Json { layer: usize, fault: JsonFault },
    /// A layer is no GeoJSON that is taken.
    #[error("layer {layer}: {fault}")]
    Geo { layer: usize, fault: GeoFault },
    /// The sink's device failed once it had taken this many bytes of the topology.
    #[error("the device failed after {sent} bytes")]
    Write { sent: u64 },
    /// An allocation was refused.
    #[error("out of memory")]
    Memory,
}

impl From<Memory> for BuildFault {
    ghost use Rattle.std.specs.Prelude.{◌≡◌};
    ghost use Rattle.inputs.specs.declared.fault.BuildFault.TheVariants.{Memory};

    ghost from_gives = { λ _ e. e ≡ Memory };

    fn from(_e: Memory) -> BuildFault {
        BuildFault::Memory
    }
}

impl<T: Drop> From<AllocFailed<T>> for BuildFault {
    ghost use Rattle.std.specs.Prelude.{◌≡◌};
    ghost use Rattle.inputs.specs.declared.fault.BuildFault.TheVariants.{Memory};

    ghost from_gives = { λ _ e. e ≡ Memory };

    fn from(_e: AllocFailed<T>) -> BuildFault {
        BuildFault::Memory
    }
}

impl From<WriteFault> for BuildFault {
    ghost use Rattle.std.specs.Prelude.{◌≡◌};
    ghost use Rattle.inputs.specs.Sent.{build_fault_of};

    ghost from_gives = { λ w e. e ≡ build_fault_of w };

    fn from(fault: WriteFault) -> BuildFault {
        match fault {
            WriteFault::Write { sent } => BuildFault::Write { sent },
        }
    }
}
