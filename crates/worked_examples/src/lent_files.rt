// The files of a page as a run sees them, and the file that it writes.
ghost use Rattle.std.specs.Prelude.{◌≡◌, ◌≢◌, ℕ, List, [], IfNone, IfOk, IfSome, None, Some, false, true};
ghost use Rattle.std.specs.Option.{option_map};
ghost use Rattle.std.specs.String.{string_bytes};

use crate::devices::{Damage, Devices};
use crate::memory_files::{Entry, MemoryFiles};
use crate::program::stream;
use byte_ends::devices::{CutReader, CutWriter, Fault};
use byte_ends::{FromRead, Sink, Source, ToWrite};
use std::alloc::{AllocError, Global};

/// A file that a run has written.
#[derive(Drop)]
struct Kept<'a> {
    name: String,
    bytes: &'a [u8],
}

impl<'a> Kept<'a> {
    /// The file of this name with these bytes, which are held in this room.
    fn new(
        alloc: Global,
        room: &'a mut Vec<u8>,
        name: &str,
        bytes: &[u8],
    ) -> Result<Kept<'a>, AllocError>
        ensures name { IfOk result (λ kept. string_bytes kept.name ≡ name.now) }
        ensures bytes { IfOk result (λ kept. kept.bytes.now ≡ bytes.now) }
    {
        let name = String::from_str(alloc, name)?;
        *room = Vec::from_slice(alloc, bytes)?;
        Ok(Kept {
            name,
            bytes: room.as_slice(),
        })
    }
}

/// The files of a page as the devices of a run give them. One output can take the place of a file.
#[derive(Drop)]
pub struct LentFiles<'a> {
    alloc: Global,
    files: &'a MemoryFiles,
    devices: Devices,
    damage: Damage<'a>,
    /// Where the bytes of a file that is written are held, until one is.
    room: Option<&'a mut Vec<u8>>,
    kept: Option<Kept<'a>>,
    begun: u64,
    discarded: u64,
}

/// What a run did beside its streams.
#[derive(Drop)]
pub(crate) struct Written {
    /// The file that it has written.
    pub(crate) file: Option<Entry>,
    /// How many outputs it began.
    pub(crate) begun: u64,
    /// How many of them were taken away.
    pub(crate) discarded: u64,
}

impl Written {
    /// Whether a file of this name and these bytes was written, or none where there is no name, and every other output was taken away.
    pub(crate) fn leaves(&self, name: Option<&str>, bytes: &[u8]) -> bool {
        match (name, &self.file) {
            (Some(name), Some(file)) => {
                file.name.as_str() == name
                    && file.bytes.as_slice() == bytes
                    && self.begun == self.discarded.saturating_add(1)
            }
            (None, None) => self.begun == self.discarded,
            _ => false,
        }
    }
}

impl<'a> LentFiles<'a> {
    ghost use Rattle.worked_examples.specs.Held.{lent};

    /// The files as these devices give them, with an empty room for one that is written.
    pub(crate) fn on(
        alloc: Global,
        files: &'a MemoryFiles,
        devices: Devices,
        damage: Damage<'a>,
        room: &'a mut Vec<u8>,
    ) -> LentFiles<'a> {
        LentFiles {
            alloc,
            files,
            devices,
            damage,
            room: Some(room),
            kept: None,
            begun: 0,
            discarded: 0,
        }
    }

    /// The bytes of the file of this name, if the page has it or the run has written it.
    fn bytes(&self, path: &str) -> Option<&'a [u8]>
        ensures { option_map (λ b. b.now) result ≡ lent self.now path.now }
    {
        if let Some(kept) = &self.kept {
            if kept.name.as_str() == path {
                return Some(kept.bytes);
            }
        }
        let whole = self.files.bytes(path)?;
        match self.damage {
            Damage::Cut(name, end) if name == path => Some(whole.get(..end).unwrap_or(whole)),
            _ => Some(whole),
        }
    }

    /// What the hashes of a run begin with: devices that give one byte a call have another seed, so that what a page writes is seen under two.
    pub fn seed(&self) -> u64 {
        u64::from(self.devices.by_one)
    }

    /// The file of this name from its first byte on, if the page has it or the run has written it.
    pub fn open(&self, path: &str) -> Option<Source<FromRead<CutReader<'a>>>>
        ensures bytes { IfSome result (λ source. source.left ≡ lent self.now path.now) }
        ensures sound { IfSome result (λ source. source.failures ≡ 0) }
        ensures unread { IfSome result (λ source. (source.giving_reads ≡ 0) × (source.empty_reads ≡ 0)) }
        ensures absent { IfNone result (lent self.now path.now ≡ None) }
    {
        let bytes = self.bytes(path)?;
        let fault = match self.damage {
            Damage::Broken(name, end) if name == path => Fault::AtByte(end),
            Damage::Folder(name) if name == path => Fault::AtByte(0),
            _ => self.devices.input,
        };
        let reader = CutReader::new(bytes, self.devices.step(), fault);
        Some(Source::new(FromRead::new(reader)))
    }

    /// Whether the page has a file of this name, which is no folder.
    pub fn has_file(&self, path: &str) -> bool {
        !self.is_folder(path) && self.files.bytes(path).is_some()
    }

    /// Whether the file of this name is a folder.
    pub fn is_folder(&self, path: &str) -> bool {
        matches!(self.damage, Damage::Folder(name) if name == path)
    }

    /// An output that is to take the place of a file, or nothing where it can't be begun.
    pub fn begin(&mut self) -> Option<Sink<ToWrite<CutWriter>>>
        ensures empty { IfSome result (λ output. output.taken ≡ Some []) }
        ensures unsent { IfSome result (λ output. output.sent ≡ 0) }
        ensures sound { IfSome result (λ output. output.failures ≡ 0) }
        ensures same { lent self.new ≡ lent self.old }
    {
        if !self.devices.begins {
            return None;
        }
        self.begun = self.begun.saturating_add(1);
        Some(stream(self.alloc, self.devices.step(), self.devices.output))
    }

    /// Puts an output in the place of the file of this name, and answers whether that was done. It is once at most.
    pub fn keep(&mut self, path: &str, output: ToWrite<CutWriter>) -> bool
        ensures kept { result ≡ true → lent self.new path.now ≡ output.taken }
        ensures others { (other : List ℕ) → other ≢ path.now → lent self.new other ≡ lent self.old other }
        ensures lost { result ≡ false → lent self.new ≡ lent self.old }
    {
        let writer = output.into_inner();
        if self.devices.keeps && self.kept.is_none() {
            if let Some(room) = self.room.take() {
                if let Ok(kept) = Kept::new(self.alloc, room, path, writer.held()) {
                    self.kept = Some(kept);
                    return true;
                }
            }
        }
        self.discarded = self.discarded.saturating_add(1);
        false
    }

    /// Takes an output away that isn't to be kept.
    pub fn discard(&mut self, _output: ToWrite<CutWriter>)
        ensures { lent self.new ≡ lent self.old }
    {
        self.discarded = self.discarded.saturating_add(1);
    }

    /// What was written.
    pub(crate) fn into_written(self) -> Result<Written, AllocError> {
        let file = match &self.kept {
            Some(kept) => {
                let bytes = Vec::from_slice(self.alloc, kept.bytes)?;
                Some(Entry::of(self.alloc, kept.name.as_str(), bytes)?)
            }
            None => None,
        };
        Ok(Written {
            file,
            begun: self.begun,
            discarded: self.discarded,
        })
    }
}
