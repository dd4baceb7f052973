ghost use Rattle.std.specs.Prelude.{◌≡◌, codes};
ghost use Rattle.geojson_meaning.specs.Faults as spec;

use json_value::LookupFault;
use std::alloc::{AllocError, AllocFailed};
use thiserror::Error;

/// Why a value is no layer. Section numbers are those of RFC 7946.
#[derive(Clone, Copy, Debug, Error, PartialEq, Eq)]
pub enum GeoFaultKind {
    /// The layer, or a feature of it, isn't an object (section 3).
    #[error("NotObject")]
    NotObject,
    /// A `type` isn't one that the value can have there (sections 1.4 and 7).
    #[error("UnknownType")]
    UnknownType,
    /// A member that must be there is absent (sections 3.1 to 3.3).
    #[error("Missing")]
    Missing,
    /// Two members or more have the name that is looked up (RFC 8259, section 4).
    #[error("Duplicate")]
    Duplicate,
    /// A value isn't of the kind of JSON value that it must be.
    #[error("WrongKind")]
    WrongKind,
    /// A position has fewer than two elements (section 3.1.1).
    #[error("ShortPosition")]
    ShortPosition,
    /// A line has fewer than two positions (section 3.1.4).
    #[error("ShortLine")]
    ShortLine,
    /// A ring has fewer than four positions (section 3.1.6).
    #[error("ShortRing")]
    ShortRing,
    /// The first and the last position of a ring differ (section 3.1.6).
    #[error("OpenRing")]
    OpenRing,
    /// The magnitude of a rounded coordinate is above `INPUT_LIMIT`.
    #[error("Range")]
    Range,
    /// A coordinate isn't whole in units of `10^-PLACES`, where that is asked for.
    #[error("Inexact")]
    Inexact,
    /// An allocation was refused.
    #[error("Memory")]
    Memory,
}

impl GeoFaultKind {
    /// The short code that a program prints.
    #[tactic(auto, unfolding(crate::specs::Faults::code))]
    pub fn code(&self) -> &'static str
        ensures { result.now ≡ spec.code self.now }
    {
        match self {
            GeoFaultKind::NotObject => "G1",
            GeoFaultKind::UnknownType => "G2",
            GeoFaultKind::Missing => "G3",
            GeoFaultKind::Duplicate => "G4",
            GeoFaultKind::WrongKind => "G5",
            GeoFaultKind::ShortPosition => "G6",
            GeoFaultKind::ShortLine => "G7",
            GeoFaultKind::ShortRing => "G8",
            GeoFaultKind::OpenRing => "G9",
            GeoFaultKind::Range => "G10",
            GeoFaultKind::Inexact => "G11",
            GeoFaultKind::Memory => "G12",
        }
    }

    /// The name that a program prints after the code.
    #[tactic(auto, unfolding(crate::specs::Faults::name))]
    pub fn name(&self) -> &'static str
        ensures { result.now ≡ spec.name self.now }
    {
        match self {
            GeoFaultKind::NotObject => "NotObject",
            GeoFaultKind::UnknownType => "UnknownType",
            GeoFaultKind::Missing => "Missing",
            GeoFaultKind::Duplicate => "Duplicate",
            GeoFaultKind::WrongKind => "WrongKind",
            GeoFaultKind::ShortPosition => "ShortPosition",
            GeoFaultKind::ShortLine => "ShortLine",
            GeoFaultKind::ShortRing => "ShortRing",
            GeoFaultKind::OpenRing => "OpenRing",
            GeoFaultKind::Range => "Range",
            GeoFaultKind::Inexact => "Inexact",
            GeoFaultKind::Memory => "Memory",
        }
    }
}

/// Why a value is no layer, and the number of the feature, from zero, that the fault is in. A fault before any
/// feature begins has no number. Of a refused allocation the number says nothing: it may be that of the feature
/// that was being read, or absent.
#[derive(Clone, Copy, Debug, Error, PartialEq, Eq)]
#[error("{kind}")]
pub struct GeoFault {
    pub feature: Option<usize>,
    pub kind: GeoFaultKind,
}

impl<T: Drop> From<AllocFailed<T>> for GeoFaultKind {
    ghost use Rattle.std.specs.Prelude.{◌≡◌};
    ghost use Rattle.geojson_meaning.specs.declared.fault.GeoFaultKind.TheVariants.{Memory};

    ghost from_gives = { λ _ e. e ≡ Memory };

    fn from(_e: AllocFailed<T>) -> GeoFaultKind {
        GeoFaultKind::Memory
    }
}

impl From<AllocError> for GeoFaultKind {
    ghost use Rattle.std.specs.Prelude.{◌≡◌};
    ghost use Rattle.geojson_meaning.specs.declared.fault.GeoFaultKind.TheVariants.{Memory};

    ghost from_gives = { λ _ e. e ≡ Memory };

    fn from(_e: AllocError) -> GeoFaultKind {
        GeoFaultKind::Memory
    }
}

impl From<LookupFault> for GeoFaultKind {
    ghost use Rattle.std.specs.Prelude.{◌≡◌};
    ghost use Rattle.geojson_meaning.specs.Members.{lookup_fault};

    ghost from_gives = { λ fault e. e ≡ lookup_fault fault };

    fn from(fault: LookupFault) -> GeoFaultKind {
        match fault {
            LookupFault::Missing => GeoFaultKind::Missing,
            LookupFault::Duplicate => GeoFaultKind::Duplicate,
            LookupFault::WrongKind => GeoFaultKind::WrongKind,
        }
    }
}
