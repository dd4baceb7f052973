// The file system as `mapchain_cli` asks for it.
ghost use Rattle.std.specs.Prelude.{◌≡◌, IfOk, IsOk, None, is_some, true};
ghost use Rattle.std.specs.Option.{option_map};
ghost use Rattle.std.specs.String.{string_bytes};

use crate::OUT_BUFFER;
use crate::file_identity::FileIdentity;
use crate::file_limit::FileLimit;
use crate::input_file::InputFile;
use crate::part_file::{Destination, PartFile, Target, file_of_output};
use crate::system_errors::{failure_of, is_full, kind_by};
use byte_ends::{FromRead, Sink, Source, ToWrite};
use mapchain_cli::{Counts, FileKind, Files, Notes, OwnText, WriteFailure};
use std::alloc::AllocError;
use std::cell::Cell;
use std::fs::{File, Metadata};
use std::hash::{BuildHasher, RandomState};
use std::io::BufWriter;
use std::time::{SystemTime, UNIX_EPOCH};
use std::{fs, io, process};

/// The files that a run has read and written, by whichever paths they are named.
#[derive(Drop)]
struct OwnFiles {
    /// The inputs: nothing once there was no room for one.
    inputs: Option<Vec<FileIdentity>>,
    /// The file that has the output: that of standard output, or the new one that has taken the place of another.
    output: Option<FileIdentity>,
}

/// The file system.
#[derive(Drop)]
pub(crate) struct System<'a> {
    rt: HostRuntime,
    counts: Counts,
    /// The file for which an output was begun last, unless that was kept or taken away.
    pending: Option<Target>,
    own: OwnFiles,
    limit: FileLimit,
    /// Whether the last file couldn't be opened, as too many are open.
    is_full: bool,
    /// Why standard output couldn't be written last, if the system said why.
    stream_failure: &'a Cell<Option<WriteFailure>>,
    /// Why the last output couldn't be begun, written or kept, if the system said why.
    file_failure: &'a Cell<Option<WriteFailure>>,
    notes: Notes<FromRead<InputFile>, ToWrite<BufWriter<PartFile<'a>>>>,
}

impl OwnFiles {
    /// Notes an input.
    fn note_input(&mut self, identity: Option<FileIdentity>) {
        let (Some(inputs), Some(identity)) = (&mut self.inputs, identity) else {
            return;
        };
        if inputs.push(identity).is_err() {
            self.inputs = None;
        }
    }

    /// Why this target may not be written: a file that has taken the output of the run, or was read. The output itself is begun before any input is
    /// opened, and may take the place of one.
    fn refusal_of(&self, target: &Target) -> Option<WriteFailure> {
        let identity = target.identity()?;
        if self.output == Some(identity) {
            return Some(WriteFailure::HoldsOutput);
        }
        match &self.inputs {
            Some(inputs) if !inputs.contains(&identity) => None,
            _ => Some(WriteFailure::HoldsInput),
        }
    }
}

impl<'a> System<'a> {
    /// The file system, of which no file was opened or replaced yet, with room for so many inputs, and in which files may have this length. Why an output couldn't be written is told there:
    /// standard output, and one to a file.
    pub(crate) fn new(
        rt: HostRuntime,
        most_inputs: usize,
        limit: FileLimit,
        stream_failure: &'a Cell<Option<WriteFailure>>,
        file_failure: &'a Cell<Option<WriteFailure>>,
    ) -> Result<System<'a>, AllocError> {
        let inputs = Vec::with_capacity(rt.alloc(), most_inputs)?;
        Ok(System {
            rt,
            counts: Counts::none(),
            pending: None,
            own: OwnFiles {
                inputs: Some(inputs),
                output: None,
            },
            limit,
            is_full: false,
            stream_failure,
            file_failure,
            notes: Notes::none(),
        })
    }
}

// What is to be written for a target, with a buffer before it.
fn begin_target<'a>(
    rt: &HostRuntime,
    target: &Target,
    limit: FileLimit,
    failure: &'a Cell<Option<WriteFailure>>,
) -> io::Result<BufWriter<PartFile<'a>>> {
    let part = PartFile::to(rt, Destination::of(rt, target)?, limit, failure)?;
    BufWriter::with_capacity(rt.alloc(), OUT_BUFFER, part)
}

// The target of this path, and what is to be written for it; or why it can't be begun.
fn begin<'a>(
    rt: &HostRuntime,
    own: &OwnFiles,
    path: &str,
    limit: FileLimit,
    failure: &'a Cell<Option<WriteFailure>>,
) -> Result<(Target, BufWriter<PartFile<'a>>), WriteFailure>
    ensures { IfOk result (λ r. string_bytes r.0.named ≡ path.now) }
{
    let target = match Target::of(rt, path) {
        Ok(target) => target,
        Err(error) => return Err(failure_of(&error)),
    };
    if let Some(refusal) = own.refusal_of(&target) {
        return Err(refusal);
    }
    match begin_target(rt, &target, limit, failure) {
        Ok(output) => Ok((target, output)),
        Err(error) => Err(failure_of(&error)),
    }
}

// Writes what is still held back, has the new file take the place of the target, and tells which file it is.
fn replace(target: &Target, output: BufWriter<PartFile<'_>>) -> io::Result<Option<FileIdentity>> {
    output.into_inner()?.replace(target)
}

// Has the new file take the place of the target, if there is one, and tells which file it is; or why it didn't.
fn keep(
    target: Option<Target>,
    output: BufWriter<PartFile<'_>>,
) -> Result<Option<FileIdentity>, Option<WriteFailure>>
    ensures { IsOk result → is_some target ≡ true }
{
    let Some(target) = target else {
        let (_part, _held_back) = output.into_parts();
        return Err(None);
    };
    match replace(&target, output) {
        Ok(identity) => Ok(identity),
        Err(error) => Err(Some(failure_of(&error))),
    }
}

// What a path names. A regular file is opened, to see whether that is allowed.
fn kind_of(rt: &HostRuntime, path: &str) -> FileKind {
    let metadata = match fs::metadata(rt, path) {
        Ok(metadata) => metadata,
        Err(error) => return kind_by(&error),
    };
    if metadata.is_dir() {
        return FileKind::Folder;
    }
    if !metadata.is_file() {
        return FileKind::Other;
    }
    match File::open(rt, path) {
        Ok(_) => FileKind::Regular,
        Err(error) => kind_by(&error),
    }
}

// How many bytes can be read of a file with this metadata at least, as far as it says. A regular file has a length; of others it says nothing.
fn least_length(file: &Metadata) -> u64 {
    if file.is_file() { file.len() } else { 0 }
}

// The file of this path, and what the system says of it, if it is one of the file system.
fn open(rt: &HostRuntime, path: &str) -> io::Result<(InputFile, Option<Metadata>)> {
    let file = InputFile::open(rt, path)?;
    let metadata = file.metadata()?;
    Ok((file, metadata))
}

// A number that differs from run to run, where the system gives no random one: of the time and the process.
fn seed_of_time(rt: &HostRuntime) -> u64 {
    let time = match SystemTime::now(rt) {
        Ok(now) => now
            .duration_since(UNIX_EPOCH)
            .map_or(0, |time| time.as_nanos()),
        Err(_) => 0,
    };
    (time & u128::from(u64::MAX)) as u64 ^ u64::from(process::id(rt.process())).rotate_left(32)
}

impl<'a> Files for System<'a> {
    type R = FromRead<InputFile>;

    type W = ToWrite<BufWriter<PartFile<'a>>>;

    // Others write files too, so that the bytes of none are known.
    ghost state = { λ s. record { contents = λ _. None; counts = s.counts; pending = option_map (λ target. string_bytes target.named) s.pending; noted = s.notes } };

    fn seed(&self) -> u64 {
        match RandomState::new(&self.rt) {
            Ok(state) => state.hash_one(0u64),
            Err(_) => seed_of_time(&self.rt),
        }
    }

    fn open(&mut self, path: &str) -> Option<Source<FromRead<InputFile>>> {
        let opened = open(&self.rt, path);
        self.counts.count_open(opened.is_ok());
        self.is_full = opened.as_ref().is_err_and(is_full);
        let (file, metadata) = opened.ok()?;
        self.own.note_input(metadata.as_ref().map(FileIdentity::of));
        let least = metadata.as_ref().map_or(0, least_length);
        if self.counts.outputs.begun == 0 {
            self.own.output = file_of_output(&self.rt);
        }
        Some(Source::new(FromRead::with_least(file, least)))
    }

    fn done_with(&mut self, source: &Source<FromRead<InputFile>>) {
        self.notes.note_source(source);
    }

    fn done_with_all(&mut self, sources: &Vec<(OwnText, Source<FromRead<InputFile>>)>) {
        self.notes.note_sources(sources);
    }

    fn look(&self, path: &str) -> FileKind {
        if self.is_full {
            return FileKind::TooManyOpen;
        }
        kind_of(&self.rt, path)
    }

    fn begin(&mut self, path: &str) -> Option<Sink<ToWrite<BufWriter<PartFile<'a>>>>> {
        let begun = begin(&self.rt, &self.own, path, self.limit, self.file_failure);
        self.counts.count_begin(begun.is_ok());
        self.file_failure.set(begun.as_ref().err().copied());
        let (target, output) = begun.ok()?;
        self.pending = Some(target);
        let output = Sink::new(ToWrite::new(output));
        self.notes.note_begun(&output);
        Some(output)
    }

    fn keep(&mut self, output: ToWrite<BufWriter<PartFile<'a>>>) -> bool {
        self.notes.note_ended(&output);
        let target = self.pending.take();
        let kept = keep(target, output.into_inner());
        let is_kept = kept.is_ok();
        self.counts.count_keep(is_kept);
        match kept {
            Ok(identity) => self.own.output = identity,
            Err(failure) => self.file_failure.set(failure),
        }
        is_kept
    }

    fn discard(&mut self, output: ToWrite<BufWriter<PartFile<'a>>>) {
        self.notes.note_ended(&output);
        // (what is still held back isn't written)
        let (_part, _held_back) = output.into_inner().into_parts();
        self.pending = None;
        self.counts.count_discard();
    }

    fn write_failure(&self) -> Option<WriteFailure> {
        self.file_failure.get()
    }

    fn stream_failure(&self) -> Option<WriteFailure> {
        self.stream_failure.get()
    }
}
