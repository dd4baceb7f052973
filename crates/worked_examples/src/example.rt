// A command of a page, and what must come of it.
use crate::devices::{Damage, Devices};
use std::alloc::{AllocError, Global};

/// How often a command is run, and over what.
#[derive(Clone, Copy)]
pub(crate) enum Runs<'a> {
    /// Once, and once more with one byte a call where the devices are plain.
    Once,
    /// Once for each proper prefix of the file of this name, in its place.
    EachPrefix(&'a str),
    /// Once for each byte of the file of this name, its end too, at which its reads fail.
    EachByteRead(&'a str),
    /// Once for each byte of the file of this name, at which the output fails.
    EachByteWritten(&'a str),
    /// Once for each byte of the file of this name, at which the output takes nothing, once, and one byte each other time.
    EachByteNotTaken(&'a str),
}

/// What must be written to standard output, or to the file that takes its place.
#[derive(Drop)]
pub(crate) enum Output<'a> {
    Nothing,
    /// The lines of a block.
    Block(Vec<u8>),
    /// The bytes of the file of this name.
    File(&'a str),
    /// It is kept as a file, and not looked at here.
    Kept,
}

/// A command of a page, and what must come of it.
#[derive(Drop)]
pub(crate) struct Example<'a> {
    /// The words after the program's name, and a space before each.
    pub(crate) words: &'a str,
    /// The name that standard output is kept under.
    pub(crate) kept: Option<&'a str>,
    /// The name of the file that takes what standard output would.
    pub(crate) file: Option<&'a str>,
    /// The name of the file that is a folder, if one is.
    pub(crate) folder: Option<&'a str>,
    pub(crate) runs: Runs<'a>,
    pub(crate) devices: Devices,
    pub(crate) status: u8,
    pub(crate) output: Output<'a>,
    pub(crate) error: String,
}

impl<'a> Example<'a> {
    /// The command of these words, and perhaps of ` > ` and the name that standard output is kept under.
    pub(crate) fn of(alloc: Global, command: &'a str) -> Example<'a> {
        let (words, kept) = match command.split_once(" > ") {
            Some((words, kept)) => (words, Some(kept)),
            None => (command, None),
        };
        Example {
            words,
            kept,
            file: None,
            folder: None,
            runs: Runs::Once,
            devices: Devices::WHOLE,
            status: 0,
            output: Output::Nothing,
            error: String::new(alloc),
        }
    }

    /// Takes how often the command is run, and answers whether that was open.
    pub(crate) fn takes_runs(&mut self, runs: Runs<'a>) -> bool {
        let is_open = matches!(self.runs, Runs::Once) && matches!(self.output, Output::Nothing);
        self.runs = runs;
        is_open
    }

    /// Takes the name of the file that takes what standard output would, and answers whether that was open.
    pub(crate) fn takes_file(&mut self, name: &'a str) -> bool {
        let is_open = self.kept.is_none() && self.file.is_none();
        self.file = Some(name);
        is_open
    }

    /// Takes the name of the file that is a folder, and answers whether that was open.
    pub(crate) fn takes_folder(&mut self, name: &'a str) -> bool {
        let is_open = self.folder.is_none();
        self.folder = Some(name);
        is_open
    }

    /// What is wrong with a file where the command is run once.
    pub(crate) fn damage(&self) -> Damage<'a> {
        match self.folder {
            Some(name) => Damage::Folder(name),
            None => Damage::None,
        }
    }

    /// Takes what must be written to standard output, and answers whether that was open.
    pub(crate) fn takes_output(&mut self, output: Output<'a>) -> bool {
        let is_open = matches!(self.output, Output::Nothing)
            && !matches!(
                self.runs,
                Runs::EachByteWritten(_) | Runs::EachByteNotTaken(_)
            );
        self.output = output;
        is_open
    }

    /// How many outputs that take the place of a file it begins.
    pub(crate) fn begun(&self) -> u64 {
        if self.file.is_some() && self.devices.begins {
            1
        } else {
            0
        }
    }

    /// Takes a line of standard error.
    pub(crate) fn take_line(&mut self, line: &str) -> Result<(), AllocError> {
        self.error.push_str(line)?;
        self.error.push_str("\n")
    }
}
