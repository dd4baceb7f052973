ghost use Rattle.std.specs.Prelude.{◌≡◌};
ghost use Rattle.topojson_meaning.specs.Faults as spec;

use byte_ends::Memory;
use json_value::LookupFault;
use std::alloc::AllocFailed;
use thiserror::Error;

/// Why a value is no topology. Section numbers are those of TopoJSON 1.0.
#[derive(Clone, Copy, Debug, Error, PartialEq, Eq)]
pub enum TopoFault {
    /// The value isn't an object whose `type` is "Topology" (section 2.1).
    #[error("NotTopology")]
    NotTopology,
    /// A member that must be there is absent (sections 2.1 and 2.2).
    #[error("Missing")]
    Missing,
    /// Two members or more have the name that is looked up, or that of an object (RFC 8259, section 4).
    #[error("Duplicate")]
    Duplicate,
    /// A value isn't of the kind of JSON value that it must be, or an arc index isn't whole.
    #[error("WrongKind")]
    WrongKind,
    /// The `type` of a geometry isn't one of the seven (section 2.2).
    #[error("UnknownType")]
    UnknownType,
    /// An arc has fewer than two positions (section 2.1.3).
    #[error("ShortArc")]
    ShortArc,
    /// An arc index names no arc (section 2.1.4).
    #[error("IndexRange")]
    IndexRange,
    /// An arc of a line doesn't begin where the one before ends (section 2.1.4).
    #[error("Unjoined")]
    Unjoined,
    /// The last arc of a ring doesn't end where the first begins (sections 2.1.4 and 2.2.5).
    #[error("OpenRing")]
    OpenRing,
    /// A number of a position of a topology with a transform isn't whole, or too far from zero (sections 2.1.2 and 2.1.3).
    #[error("GridNumber")]
    GridNumber,
    /// A rounded coordinate is above `POSITION_LIMIT` in magnitude, or a number of a transform above `TRANSFORM_LIMIT`.
    #[error("Range")]
    Range,
    /// An allocation was refused.
    #[error("Memory")]
    Memory,
}

impl TopoFault {
    /// The short code that a program prints.
    #[tactic(auto, unfolding(crate::specs::Faults::code))]
    pub fn code(&self) -> &'static str
        ensures { result.now ≡ spec.code self.now }
    {
        match self {
            TopoFault::NotTopology => "P1",
            TopoFault::Missing => "P2",
            TopoFault::Duplicate => "P3",
            TopoFault::WrongKind => "P4",
            TopoFault::UnknownType => "P5",
            TopoFault::ShortArc => "P6",
            TopoFault::IndexRange => "P7",
            TopoFault::Unjoined => "P8",
            TopoFault::OpenRing => "P9",
            TopoFault::GridNumber => "P10",
            TopoFault::Range => "P11",
            TopoFault::Memory => "P12",
        }
    }

    /// The name that a program prints after the code.
    #[tactic(auto, unfolding(crate::specs::Faults::name))]
    pub fn name(&self) -> &'static str
        ensures { result.now ≡ spec.name self.now }
    {
        match self {
            TopoFault::NotTopology => "NotTopology",
            TopoFault::Missing => "Missing",
            TopoFault::Duplicate => "Duplicate",
            TopoFault::WrongKind => "WrongKind",
            TopoFault::UnknownType => "UnknownType",
            TopoFault::ShortArc => "ShortArc",
            TopoFault::IndexRange => "IndexRange",
            TopoFault::Unjoined => "Unjoined",
            TopoFault::OpenRing => "OpenRing",
            TopoFault::GridNumber => "GridNumber",
            TopoFault::Range => "Range",
            TopoFault::Memory => "Memory",
        }
    }
}

impl<T: Drop> From<AllocFailed<T>> for TopoFault {
    ghost use Rattle.std.specs.Prelude.{◌≡◌};
    ghost use Rattle.topojson_meaning.specs.declared.fault.TopoFault.TheVariants.{Memory};

    ghost from_gives = { λ _ e. e ≡ Memory };

    fn from(_refused: AllocFailed<T>) -> TopoFault {
        TopoFault::Memory
    }
}

impl From<Memory> for TopoFault {
    ghost use Rattle.std.specs.Prelude.{◌≡◌};
    ghost use Rattle.topojson_meaning.specs.declared.fault.TopoFault.TheVariants.{Memory};

    ghost from_gives = { λ _ e. e ≡ Memory };

    fn from(_memory: Memory) -> TopoFault {
        TopoFault::Memory
    }
}

impl From<LookupFault> for TopoFault {
    ghost use Rattle.std.specs.Prelude.{◌≡◌};
    ghost use Rattle.topojson_meaning.specs.Members.{lookup_fault};

    ghost from_gives = { λ fault e. e ≡ lookup_fault fault };

    fn from(fault: LookupFault) -> TopoFault {
        match fault {
            LookupFault::Missing => TopoFault::Missing,
            LookupFault::Duplicate => TopoFault::Duplicate,
            LookupFault::WrongKind => TopoFault::WrongKind,
        }
    }
}
