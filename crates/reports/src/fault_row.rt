// The row of each fault: its status, its code, its name, and the numbers that it has.
ghost use Rattle.std.specs.Prelude.{◌≡◌, Some, option_map};
ghost use Rattle.reports.specs.FaultRows as spec;

use crate::run_report::RunFault;
use crate::statuses::{FAILED, INPUT_REFUSED, WORDS_REFUSED};
use byte_ends::ReadFault;
use geojson_meaning::GeoFault;
use inputs::{BuildFault, FileFault};
use json_reading::JsonFault;

/// What a fault has.
#[derive(Clone, Copy)]
pub(crate) struct FaultRow<'a> {
    /// The exit status of a run that ends so.
    pub(crate) status: u8,
    /// The code, but for a fault that has none.
    pub(crate) code: Option<&'a str>,
    /// The name, or the words of a fault that has no code.
    pub(crate) name: &'a str,
    /// The number of the layer, if the fault is in one.
    pub(crate) layer: Option<u64>,
    /// The number of the feature, if the fault is in one.
    pub(crate) feature: Option<u64>,
    /// How many bytes in front of an input are UTF-8, where not all are.
    pub(crate) at: Option<u64>,
    /// How many bytes of the output were taken, where writing failed.
    pub(crate) sent: Option<u64>,
}

/// A status, a name, and a code if there is one.
fn without_numbers<'a>(status: u8, code: Option<&'a str>, name: &'a str) -> FaultRow<'a>
    ensures { spec.row_of result ≡ spec.without_numbers status (option_map (λ c. c.now) code.entry) name.now }
{
    FaultRow {
        status,
        code,
        name,
        layer: None,
        feature: None,
        at: None,
        sent: None,
    }
}

/// A code and a name, where something failed.
fn plain(code: &'static str, name: &'static str) -> FaultRow<'static>
    ensures { spec.row_of result ≡ spec.plain code.now name.now }
{
    without_numbers(FAILED, Some(code), name)
}

/// The same where an input is refused.
fn refused(row: FaultRow<'static>) -> FaultRow<'static>
    ensures { spec.row_of result ≡ spec.refused (spec.row_of row.entry) }
{
    FaultRow {
        status: INPUT_REFUSED,
        ..row
    }
}

/// In the layer of this number.
fn in_layer(layer: usize, row: FaultRow<'static>) -> FaultRow<'static>
    ensures { spec.row_of result ≡ spec.in_layer layer (spec.row_of row.entry) }
{
    FaultRow {
        layer: Some(layer as u64),
        ..row
    }
}

/// Of a file that couldn't be read to its end.
fn of_read(fault: ReadFault) -> FaultRow<'static>
    ensures { spec.row_of result ≡ spec.of_read fault }
{
    match fault {
        ReadFault::Read => plain("F1", "Read"),
        ReadFault::TooLong => refused(plain("F2", "TooLong")),
        ReadFault::Memory => plain("F3", "Memory"),
    }
}

/// Of a file that is no JSON text.
fn of_json(fault: &JsonFault) -> FaultRow<'static>
    ensures { spec.row_of result ≡ spec.of_json fault.now }
{
    refused(match fault {
        JsonFault::NotUtf8 { at } => FaultRow {
            at: Some(*at as u64),
            ..plain("J1", "NotUtf8")
        },
        JsonFault::Malformed { .. } => plain("J2", "Malformed"),
        JsonFault::Memory => plain("J3", "Memory"),
    })
}

/// Of a layer that is no GeoJSON that is taken.
fn of_geo(fault: &GeoFault) -> FaultRow<'static>
    ensures { spec.row_of result ≡ spec.of_geo fault.now }
{
    FaultRow {
        feature: fault.feature.map(|feature| feature as u64),
        ..refused(plain(fault.kind.code(), fault.kind.name()))
    }
}

/// Of a layer whose name is refused.
fn of_name(layer: usize, code: &'static str, name: &'static str) -> FaultRow<'static>
    ensures { spec.row_of result ≡ spec.of_name layer code.now name.now }
{
    FaultRow {
        status: WORDS_REFUSED,
        ..in_layer(layer, plain(code, name))
    }
}

/// Of an output that couldn't be written to its end.
fn of_write(code: &'static str, sent: u64) -> FaultRow<'static>
    ensures { spec.row_of result ≡ spec.of_write code.now sent }
{
    FaultRow {
        sent: Some(sent),
        ..plain(code, "Write")
    }
}

/// Of a build.
pub(crate) fn of_build(fault: &BuildFault) -> FaultRow<'static>
    ensures { spec.row_of result ≡ spec.of_build fault.now }
{
    match fault {
        BuildFault::EmptyName { layer } => of_name(*layer, "B1", "EmptyName"),
        BuildFault::DuplicateName { layer } => of_name(*layer, "B2", "DuplicateName"),
        BuildFault::Read { layer, fault } => in_layer(*layer, of_read(*fault)),
        BuildFault::Json { layer, fault } => in_layer(*layer, of_json(fault)),
        BuildFault::Geo { layer, fault } => in_layer(*layer, of_geo(fault)),
        BuildFault::Write { sent } => of_write("B6", *sent),
        BuildFault::Memory => plain("B7", "Memory"),
    }
}

/// Of the file of a topology.
pub(crate) fn of_file(fault: &FileFault) -> FaultRow<'static>
    ensures { spec.row_of result ≡ spec.of_file fault.now }
{
    match fault {
        FileFault::Read(fault) => of_read(*fault),
        FileFault::Json(fault) => of_json(fault),
        FileFault::Topo(fault) => refused(plain(fault.code(), fault.name())),
        FileFault::NoObject => refused(plain("E4", "NoObject")),
        FileFault::ManyPositions { .. } => refused(plain("E7", "ManyPositions")),
        FileFault::Write { sent } => of_write("E5", *sent),
        FileFault::Memory => plain("E6", "Memory"),
    }
}

/// Of a run.
pub(crate) fn of_run<'a>(fault: &RunFault<'a>) -> FaultRow<'a>
    ensures { spec.row_of result ≡ spec.of_run fault.now }
{
    match fault {
        RunFault::Words(words) => without_numbers(WORDS_REFUSED, None, words),
        RunFault::Build(fault) => of_build(fault),
        RunFault::File(fault) => of_file(fault),
        RunFault::Memory => without_numbers(FAILED, None, "Memory"),
    }
}
