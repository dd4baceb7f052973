// What the lines of a console that begin with `# ` say of a command.
use crate::example::{Example, Output, Runs};
use byte_ends::devices::Fault;

impl<'a> Example<'a> {
    /// Takes what a line says of the command, and answers whether it says something.
    pub(crate) fn takes_note(&mut self, note: &'a str) -> bool {
        if let Some(runs) = runs_of(note) {
            return self.takes_runs(runs);
        }
        if let Some(name) = note.strip_prefix("output of ") {
            return self.takes_output(Output::File(name));
        }
        if let Some(name) = note.strip_prefix("to the file ") {
            return self.takes_file(name);
        }
        if let Some(name) = note.strip_prefix("for a folder ") {
            return self.takes_folder(name);
        }
        if note == "output only kept" {
            let is_kept = self.kept.is_some() || self.file.is_some();
            return is_kept && self.takes_output(Output::Kept);
        }
        if let Some(number) = note.strip_prefix("status ") {
            return match number.parse::<u8>() {
                Ok(status) => {
                    self.status = status;
                    true
                }
                Err(_) => false,
            };
        }
        self.takes_devices(note)
    }

    /// Takes what a line says of the devices, and answers whether it says something.
    fn takes_devices(&mut self, note: &str) -> bool {
        if note == "for one byte a call" {
            self.devices.by_one = true;
        } else if note == "for an output that can't be begun" {
            self.devices.begins = false;
        } else if note == "for an output that can't be kept" {
            self.devices.keeps = false;
        } else if let Some(fault) = input_fault(note) {
            self.devices.input = fault;
        } else if let Some(fault) = output_fault(note) {
            self.devices.output = fault;
        } else if let Some(room) = error_room(note) {
            self.devices.error_room = Some(room);
        } else {
            return false;
        }
        true
    }
}

/// The runs that a line names.
fn runs_of(note: &str) -> Option<Runs<'_>> {
    if let Some(name) = note.strip_prefix("for each proper prefix of ") {
        return Some(Runs::EachPrefix(name));
    }
    if let Some(name) = note.strip_prefix("for a reader that fails at each byte of ") {
        return Some(Runs::EachByteRead(name));
    }
    if let Some(name) = note.strip_prefix("for an output that takes nothing at each byte of ") {
        return Some(Runs::EachByteNotTaken(name));
    }
    let name = note.strip_prefix("for an output that fails at each byte of ")?;
    Some(Runs::EachByteWritten(name))
}

/// Where a line says that reads fail.
fn input_fault(note: &str) -> Option<Fault> {
    if let Some(number) = note.strip_prefix("for a failing read, number ") {
        return Some(Fault::AtCall(number.parse::<u64>().ok()?));
    }
    let number = note.strip_prefix("for an interrupted read, number ")?;
    Some(Fault::InterruptedAtCall(number.parse::<u64>().ok()?))
}

/// Where a line says that the output fails.
fn output_fault(note: &str) -> Option<Fault> {
    match note {
        "for a failing flush" => return Some(Fault::AtFlush),
        "for an interrupted flush" => return Some(Fault::InterruptedAtFlush),
        _ => {}
    }
    if let Some(number) = note.strip_prefix("for a failing write, number ") {
        return Some(Fault::AtCall(number.parse::<u64>().ok()?));
    }
    if let Some(number) = note.strip_prefix("for an interrupted write, number ") {
        return Some(Fault::InterruptedAtCall(number.parse::<u64>().ok()?));
    }
    let number = note.strip_prefix("for a write that takes nothing, number ")?;
    Some(Fault::NothingAtCall(number.parse::<u64>().ok()?))
}

/// How many bytes a line says that standard error takes before it fails.
fn error_room(note: &str) -> Option<usize> {
    let number = note.strip_prefix("for a standard error that fails at byte ")?;
    number.parse::<usize>().ok()
}
