// The files of a run: layers and topologies that are read, and outputs that take the place of a file.
ghost use Rattle.std.specs.Prelude.{◌≡◌, ℕ, List, None, IfNone, IfSome, false, is_some, true};
ghost use Rattle.mapchain_cli.specs.Files.{FileState, IsFresh, IsOpened, Keeps, begun, discarded, done_with, done_with_all, not_kept, one_more};

use byte_ends::{Drain, Feed, Sink, Source};
use fault_explanations::{FileKind, WriteFailure};
use json_value::OwnText;

/// Files that are read and replaced by their names, as a file system.
pub trait Files {
    /// The device that gives a file's bytes.
    type R: Feed + Drop;

    /// The device that takes the bytes of an output which is to take the place of a file.
    type W: Drain + Drop;

    // The bytes of the files, where they are known, how often files were opened, what became of outputs, for which file the last one was
    // begun, and what the last outputs and sources were.
    ghost state: { Self → FileState };

    /// A number that nobody who made the files can know, with which the hashes of a run begin; zero where there is none, and then a layer
    /// can be made that takes long.
    fn seed(&self) -> u64 {
        0
    }

    /// The file of this name from its first byte on, or nothing where it can't be opened.
    fn open(&mut self, path: &str) -> Option<Source<Self::R>>
        // What is given has the bytes of that file left, and has not been read.
        ensures opened { IfSome result (λ source. IsOpened (state self.old).contents path.now source) }
        ensures refused { IfNone result ((state self.old).contents path.now ≡ None) }
        // The call is counted, and nothing else changes.
        ensures counted { state self.new ≡ one_more (is_some result) (state self.old) };

    /// Tells that this source of a topology isn't read any more.
    fn done_with(&mut self, source: &Source<Self::R>)
        // What it is now is noted, and nothing else changes.
        ensures noted { state self.new ≡ done_with source.now (state self.old) };

    /// Tells that these sources of layers aren't read any more.
    fn done_with_all(&mut self, sources: &Vec<(OwnText, Source<Self::R>)>)
        // What they are now is noted, and nothing else changes.
        ensures noted { state self.new ≡ done_with_all sources.now.items (state self.old) };

    /// What a path names, as far as that is known.
    fn look(&self, path: &str) -> FileKind;

    /// Begins an output that is to take the place of the file of this path, or of none yet, or nothing where that can't be. The file
    /// stays as it is.
    fn begin(&mut self, path: &str) -> Option<Sink<Self::W>>
        // Nothing was written to it, and no call of it has failed.
        ensures fresh { IfSome result IsFresh }
        // The call is counted, the path is the pending one, what the output is now is noted, and nothing else changes.
        ensures counted { state self.new ≡ begun result path.now (state self.old) };

    /// Puts an output that is whole in the place of the file for which one was begun last, once it is on the disk, and answers whether
    /// that was done. Where it wasn't, the file stays as it is, and the output is taken away. A device, which has no bytes of its own, took
    /// the output as it was written.
    fn keep(&mut self, output: Self::W) -> bool
        // That file holds what the output took, no other file changes, the call is counted, and what the device is now is noted.
        ensures kept { result ≡ true → (path : List ℕ) × Keeps path (record { taken = Self.W.taken output; failures = Self.W.failures output; flushed = Self.W.flushed output }) (state self.old) (state self.new) }
        ensures lost { result ≡ false → state self.new ≡ not_kept (record { taken = Self.W.taken output; failures = Self.W.failures output; flushed = Self.W.flushed output }) (state self.old) };

    /// Takes an output away that isn't to be kept. All files stay as they are.
    fn discard(&mut self, output: Self::W)
        // The call is counted, and what the device is now is noted.
        ensures counted { state self.new ≡ discarded (record { taken = Self.W.taken output; failures = Self.W.failures output; flushed = Self.W.flushed output }) (state self.old) };

    /// Why the last output couldn't be begun, written or kept, as far as that is known.
    fn write_failure(&self) -> Option<WriteFailure> {
        None
    }

    /// Why standard output couldn't be written, as far as that is known.
    fn stream_failure(&self) -> Option<WriteFailure> {
        None
    }
}
