// Running a command over files and streams in memory.
use crate::devices::{Damage, Devices};
use crate::example::{Example, Output, Runs};
use crate::lent_files::LentFiles;
use crate::memory_files::{Entry, MemoryFiles};
use crate::program::{Program, Ran, Streams};
use crate::tally::Tally;
use byte_ends::devices::Fault;
use std::alloc::{AllocError, Global};

/// The words after the program's name.
fn words_of(alloc: Global, words: &str) -> Result<Vec<String>, AllocError> {
    let mut all = Vec::new(alloc);
    for word in words.split(' ').skip(1) {
        all.push(String::from_str(alloc, word)?)?;
    }
    Ok(all)
}

/// Runs a command.
fn run<P: Program>(
    alloc: Global,
    program: &P,
    files: &MemoryFiles,
    words: &str,
    devices: Devices,
    damage: Damage<'_>,
) -> Result<Ran, AllocError> {
    let words = words_of(alloc, words)?;
    let mut room = Vec::new(alloc);
    let files = LentFiles::on(alloc, files, devices, damage, &mut room);
    let mut streams = Streams::on(alloc, devices);
    let ended = program.run(alloc, words, files, &mut streams);
    streams.into_ran(alloc, ended)
}

/// Runs a command as its page says, judges each run, and gives the file that later commands see of it.
pub(crate) fn try_example<P: Program>(
    alloc: Global,
    program: &P,
    files: &MemoryFiles,
    example: &Example<'_>,
    tally: &mut Tally,
) -> Result<Option<Entry>, AllocError> {
    let name = match example.runs {
        Runs::Once => return once(alloc, program, files, example, tally),
        Runs::EachPrefix(name)
        | Runs::EachByteRead(name)
        | Runs::EachByteWritten(name)
        | Runs::EachByteNotTaken(name) => name,
    };
    let Some(whole) = files.bytes(name) else {
        tally.print(format!(in alloc; "no file {name}")?)?;
        return Ok(None);
    };
    match example.runs {
        Runs::EachByteWritten(_) | Runs::EachByteNotTaken(_) => each_byte_written(
            alloc, program, files, example, whole, tally,
        )?,
        Runs::EachByteRead(_) => each_byte_damaged(
            alloc,
            program,
            files,
            example,
            name,
            whole.len() + 1,
            tally,
        )?,
        _ => each_byte_damaged(alloc, program, files, example, name, whole.len(), tally)?,
    }
    Ok(None)
}

/// Judges a run by what its page says.
fn judge(
    alloc: Global,
    files: &MemoryFiles,
    example: &Example<'_>,
    ran: &Ran,
    tally: &mut Tally,
) -> Result<(), AllocError> {
    if example.file.is_some() && example.status != 0 && !matches!(example.output, Output::Nothing) {
        return tally.print(format!(in alloc; "an output where no file is written")?);
    }
    let output = match &example.output {
        Output::Nothing => &[],
        Output::Block(bytes) => bytes.as_slice(),
        Output::Kept => ran.main_output(),
        Output::File(name) => match files.bytes(name) {
            Some(bytes) => bytes,
            None => return tally.print(format!(in alloc; "no file {name}")?),
        },
    };
    let whole = example.error.as_bytes();
    let error = match example.devices.error_room {
        Some(room) => whole.get(..room).unwrap_or(whole),
        None => whole,
    };
    tally.judge(alloc, example, ran, output, error)
}

/// Runs a command once, and once more with one byte a call where its devices are plain. Gives the file that later commands see of it.
fn once<P: Program>(
    alloc: Global,
    program: &P,
    files: &MemoryFiles,
    example: &Example<'_>,
    tally: &mut Tally,
) -> Result<Option<Entry>, AllocError> {
    let ran = run(
        alloc,
        program,
        files,
        example.words,
        example.devices,
        example.damage(),
    )?;
    judge(alloc, files, example, &ran, tally)?;
    if example.devices.are_plain() {
        let mut devices = example.devices;
        devices.by_one = true;
        let again = run(
            alloc,
            program,
            files,
            example.words,
            devices,
            example.damage(),
        )?;
        judge(alloc, files, example, &again, tally)?;
    }
    match example.kept {
        Some(name) => Ok(Some(Entry::of(alloc, name, ran.output)?)),
        None => Ok(ran.written.file),
    }
}

/// What is wrong with a file of an example from this byte on: its reads fail there, or it ends.
fn damage_at<'a>(example: &Example<'_>, name: &'a str, byte: usize) -> Damage<'a> {
    match example.runs {
        Runs::EachByteRead(_) => Damage::Broken(name, byte),
        _ => Damage::Cut(name, byte),
    }
}

/// Runs a command for each of so many bytes of a file, from which on the file is damaged.
fn each_byte_damaged<P: Program>(
    alloc: Global,
    program: &P,
    files: &MemoryFiles,
    example: &Example<'_>,
    name: &str,
    count: usize,
    tally: &mut Tally,
) -> Result<(), AllocError> {
    for byte in 0..count {
        let damage = damage_at(example, name, byte);
        let ran = run(
            alloc,
            program,
            files,
            example.words,
            example.devices,
            damage,
        )?;
        judge(alloc, files, example, &ran, tally)?;
    }
    Ok(())
}

/// The devices of an example whose output fails at this byte, or takes nothing there.
fn failing_at(example: &Example<'_>, byte: usize) -> Devices {
    let mut devices = example.devices;
    match example.runs {
        Runs::EachByteNotTaken(_) => {
            devices.by_one = true;
            devices.output = Fault::NothingAtCall(byte as u64);
        }
        _ => devices.output = Fault::AtByte(byte),
    }
    devices
}

/// Runs a command for an output that fails at each byte of a text, or takes nothing there: it takes those before, and `{sent}`
/// counts them.
fn each_byte_written<P: Program>(
    alloc: Global,
    program: &P,
    files: &MemoryFiles,
    example: &Example<'_>,
    whole: &[u8],
    tally: &mut Tally,
) -> Result<(), AllocError> {
    for end in 0..whole.len() {
        let devices = failing_at(example, end);
        let ran = run(alloc, program, files, example.words, devices, Damage::None)?;
        let sent = end.to_string(alloc)?;
        let error = example.error.replace(alloc, "{sent}", sent.as_str())?;
        tally.judge(alloc, example, &ran, &whole[..end], error.as_bytes())?;
    }
    Ok(())
}
