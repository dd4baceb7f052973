// The devices of a run.
ghost use Rattle.std.specs.Prelude.{◌<◌};

use byte_ends::devices::Fault;

/// The most bytes of a call on devices that give and take many.
const BLOCK: usize = 65_536;

/// What is wrong with one file, beside the devices.
#[derive(Clone, Copy)]
pub(crate) enum Damage<'a> {
    None,
    /// The file of this name ends after so many bytes.
    Cut(&'a str, usize),
    /// Reads of the file of this name fail after so many bytes.
    Broken(&'a str, usize),
    /// The file of this name is a folder: it can be opened, and no read of it gives anything.
    Folder(&'a str),
}

/// The devices of a run.
#[derive(Clone, Copy)]
pub(crate) struct Devices {
    /// Whether a read gives one byte and a write takes one.
    pub(crate) by_one: bool,
    /// Where the reads of each file fail.
    pub(crate) input: Fault,
    /// Where standard output fails, and an output that takes the place of a file.
    pub(crate) output: Fault,
    /// Whether outputs that take the place of a file can be begun.
    pub(crate) begins: bool,
    /// Whether they can take its place.
    pub(crate) keeps: bool,
    /// How many bytes standard error takes before it fails, if it does.
    pub(crate) error_room: Option<usize>,
}

impl Devices {
    /// Devices that do not fail.
    pub(crate) const WHOLE: Devices = Devices {
        by_one: false,
        input: Fault::Never,
        output: Fault::Never,
        begins: true,
        keeps: true,
        error_room: None,
    };

    /// Whether these are devices that do not fail, and give and take many bytes a call.
    pub(crate) fn are_plain(&self) -> bool {
        !self.by_one
            && self.input == Fault::Never
            && self.output == Fault::Never
            && self.begins
            && self.keeps
            && self.error_room.is_none()
    }

    /// The most bytes of a call.
    pub(crate) fn step(&self) -> usize
        ensures { 0 < result }
    {
        if self.by_one { 1 } else { BLOCK }
    }

    /// Where standard error fails.
    pub(crate) fn error_fault(&self) -> Fault {
        match self.error_room {
            Some(room) => Fault::AtByte(room),
            None => Fault::Never,
        }
    }
}
