// What an output is put into: a new file that takes the place of another, or a device or a standard stream that is written itself.
ghost use Rattle.std.specs.Io.{WritesAtMost};
ghost use Rattle.std.specs.Prelude.{◌≡◌, IfOk};
ghost use Rattle.std.specs.String.{string_bytes};

use crate::file_identity::FileIdentity;
use crate::file_limit::FileLimit;
use crate::new_file::NewFile;
use crate::system_errors::failure_of;
use mapchain_cli::WriteFailure;
use std::cell::Cell;
use std::fs::{File, FileType, Metadata};
use std::io::{ErrorKind, Stderr, Stdout, Write};
use std::os::unix::fs::FileTypeExt;
use std::{fs, io};

/// The path that stands for standard output in the words of a command.
const DASH: &str = "-";

/// The files that standard output and standard error go to, as the system names them.
const STANDARD_OUTPUT: &str = "/proc/self/fd/1";

const STANDARD_ERROR: &str = "/proc/self/fd/2";

/// What a target is.
#[derive(Clone, Copy)]
enum TargetKind {
    /// Nothing has its name yet.
    New,
    /// A regular file.
    File(FileIdentity),
    /// A device that takes bytes one after another, as `/dev/null` or a pipe.
    Device,
    /// Standard output, or the file that it goes to.
    Output,
    /// The file that standard error goes to.
    Error,
}

/// The file that is to be replaced, the name that a first one is to have, or a device or a standard stream that is to be written.
#[derive(Drop)]
pub(crate) struct Target {
    /// The path by which it was named.
    pub(crate) named: String,
    /// Where that leads, past symbolic links; of a device and of a stream, the path itself.
    path: String,
    kind: TargetKind,
}

/// Where bytes are put.
#[derive(Drop)]
pub(crate) enum Destination {
    New(NewFile),
    Device(File),
    Output(Stdout),
    Error(Stderr),
}

/// What is written for a target, or a standard stream: why it couldn't be written last, if it couldn't, is told in a cell.
#[derive(Drop)]
pub(crate) struct PartFile<'a> {
    rt: HostRuntime,
    destination: Destination,
    limit: FileLimit,
    failure: &'a Cell<Option<WriteFailure>>,
}

/// Whether bytes are written to it as they come. A disk and a socket are none.
fn takes_bytes(file_type: FileType) -> bool {
    file_type.is_char_device() || file_type.is_fifo()
}

/// Whether a standard stream, which the system names so, goes to the file that has this metadata.
fn is_stream(rt: &HostRuntime, stream: &str, file: &Metadata) -> bool {
    fs::metadata(rt, stream).is_ok_and(|own| FileIdentity::of(&own) == FileIdentity::of(file))
}

/// Which standard stream goes to the file that has this metadata, if one does.
fn stream_to(rt: &HostRuntime, file: &Metadata) -> Option<TargetKind> {
    if is_stream(rt, STANDARD_OUTPUT, file) {
        return Some(TargetKind::Output);
    }
    if is_stream(rt, STANDARD_ERROR, file) {
        return Some(TargetKind::Error);
    }
    None
}

/// The regular file that standard output goes to, if it goes to one.
pub(crate) fn file_of_output(rt: &HostRuntime) -> Option<FileIdentity> {
    match fs::metadata(rt, STANDARD_OUTPUT) {
        Ok(file) if file.is_file() => Some(FileIdentity::of(&file)),
        _ => None,
    }
}

/// What a regular file is that a path leads to by a symbolic link, as `/dev/stdout` does, and its own path. What a standard stream goes to has
/// the link's: to replace it would lose what the stream has taken and will take.
fn linked_file(
    rt: &HostRuntime,
    link: String,
    file: &Metadata,
) -> io::Result<(String, TargetKind)> {
    if let Some(stream) = stream_to(rt, file) {
        return Ok((link, stream));
    }
    let path = fs::canonicalize(rt, link.as_str())?.into_string();
    Ok((path, TargetKind::File(FileIdentity::of(file))))
}

/// Where a path leads: to a regular file or to a device, by itself or by a symbolic link, or to nothing yet. Anything else is an error.
fn led_to(rt: &HostRuntime, path: &str) -> io::Result<(String, TargetKind)> {
    if path.is_empty() {
        return Err(io::Error::from(ErrorKind::InvalidInput));
    }
    let own_path = String::from_str(rt.alloc(), path)?;
    if path == DASH {
        return Ok((own_path, TargetKind::Output));
    }
    let is_link = match fs::symlink_metadata(rt, path) {
        Ok(metadata) => metadata.is_symlink(),
        Err(error) if error.kind() == ErrorKind::NotFound => {
            return Ok((own_path, TargetKind::New));
        }
        Err(error) => return Err(error),
    };
    let metadata = fs::metadata(rt, path)?;
    if takes_bytes(metadata.file_type()) {
        return Ok((own_path, TargetKind::Device));
    }
    if metadata.is_dir() {
        return Err(io::Error::from(ErrorKind::IsADirectory));
    }
    if !metadata.is_file() {
        return Err(io::Error::from(ErrorKind::InvalidInput));
    }
    if is_link {
        return linked_file(rt, own_path, &metadata);
    }
    Ok((own_path, TargetKind::File(FileIdentity::of(&metadata))))
}

impl Target {
    /// The file, the device or the stream of this path, or the name of a file that isn't there yet.
    pub(crate) fn of(rt: &HostRuntime, path: &str) -> io::Result<Target>
        ensures { IfOk result (λ target. string_bytes target.named ≡ path.now) }
    {
        let named = String::from_str(rt.alloc(), path)?;
        let (path, kind) = led_to(rt, path)?;
        Ok(Target { named, path, kind })
    }

    /// Which regular file it is that a new one is to replace, if it is one.
    pub(crate) fn identity(&self) -> Option<FileIdentity> {
        match self.kind {
            TargetKind::File(identity) => Some(identity),
            _ => None,
        }
    }
}

impl Destination {
    /// What is to be written for a target. A regular file is replaced by a new one; where it was named by a symbolic link, the link stays. A device
    /// is opened as it is, and a standard stream is open.
    pub(crate) fn of(rt: &HostRuntime, target: &Target) -> io::Result<Destination> {
        let path = target.path.as_str();
        match target.kind {
            TargetKind::New => Ok(Destination::New(NewFile::beside(rt, path, false)?)),
            TargetKind::File(_) => Ok(Destination::New(NewFile::beside(rt, path, true)?)),
            TargetKind::Device => {
                let device = File::options().write(true).open(rt, path)?;
                Ok(Destination::Device(device))
            }
            TargetKind::Output => Ok(Destination::Output(rt.stdout())),
            TargetKind::Error => Ok(Destination::Error(rt.stderr())),
        }
    }

    /// The path of the file that grows as this is written. A device doesn't.
    fn path(&self) -> Option<&str> {
        match self {
            Destination::New(new) => Some(new.path()),
            Destination::Device(_) => None,
            Destination::Output(_) => Some(STANDARD_OUTPUT),
            Destination::Error(_) => Some(STANDARD_ERROR),
        }
    }

    fn write(&mut self, buf: &[u8]) -> io::Result<usize>
        ensures { WritesAtMost result buf.now }
    {
        match self {
            Destination::New(new) => new.file().write(buf),
            Destination::Device(device) => device.write(buf),
            Destination::Output(stream) => stream.write(buf),
            Destination::Error(stream) => stream.write(buf),
        }
    }

    fn flush(&mut self) -> io::Result<()> {
        match self {
            Destination::New(new) => new.file().flush(),
            Destination::Device(device) => device.flush(),
            Destination::Output(stream) => stream.flush(),
            Destination::Error(stream) => stream.flush(),
        }
    }
}

impl<'a> PartFile<'a> {
    /// What is put there, where files may have this length.
    pub(crate) fn to(
        rt: &HostRuntime,
        destination: Destination,
        limit: FileLimit,
        failure: &'a Cell<Option<WriteFailure>>,
    ) -> io::Result<PartFile<'a>> {
        Ok(PartFile {
            rt: rt.clone()?,
            destination,
            limit,
            failure,
        })
    }

    /// Takes the place of the target, once all of it is on the disk, and tells which file it is, if it is a regular one. On an error the target is as it was. A device or a
    /// standard stream has taken all of it already.
    pub(crate) fn replace(self, target: &Target) -> io::Result<Option<FileIdentity>> {
        let PartFile {
            rt,
            destination,
            limit: _,
            failure: _,
        } = self;
        match destination {
            Destination::New(new) => Ok(Some(new.replace(target.path.as_str())?)),
            Destination::Output(_) => Ok(file_of_output(&rt)),
            Destination::Device(_) | Destination::Error(_) => Ok(None),
        }
    }

    /// Writes what may be written, no more than that many bytes.
    fn write_within(&mut self, buf: &[u8]) -> io::Result<usize>
        ensures { WritesAtMost result buf.now }
    {
        if let Some(path) = self.destination.path() {
            self.limit.check(&self.rt, path)?;
        }
        self.destination.write(buf)
    }
}

impl Write for PartFile<'_> {
    fn write(&mut self, buf: &[u8]) -> io::Result<usize> {
        let taken = self.write_within(buf);
        if let Err(error) = &taken {
            self.failure.set(Some(failure_of(error)));
        }
        taken
    }

    fn flush(&mut self) -> io::Result<()> {
        let flushed = self.destination.flush();
        if let Err(error) = &flushed {
            self.failure.set(Some(failure_of(error)));
        }
        flushed
    }
}
