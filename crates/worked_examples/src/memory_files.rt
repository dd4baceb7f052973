// Files in memory.
ghost use Rattle.std.specs.Prelude.{◌≡◌};
ghost use Rattle.std.specs.Option.{option_map};

use std::alloc::{AllocError, Global};

/// A file of a page.
#[derive(Drop)]
pub(crate) struct Entry {
    pub(crate) name: String,
    pub(crate) bytes: Vec<u8>,
}

/// The files of a page, by their names.
#[derive(Drop)]
pub(crate) struct MemoryFiles {
    entries: Vec<Entry>,
}

impl Entry {
    /// The file of this name, with these bytes.
    pub(crate) fn of(alloc: Global, name: &str, bytes: Vec<u8>) -> Result<Entry, AllocError> {
        let name = String::from_str(alloc, name)?;
        Ok(Entry { name, bytes })
    }
}

impl MemoryFiles {
    ghost use Rattle.worked_examples.specs.Held.{held};

    pub(crate) fn new(alloc: Global) -> MemoryFiles {
        MemoryFiles {
            entries: Vec::new(alloc),
        }
    }

    /// Adds a file, in the place of one of the same name.
    pub(crate) fn put(&mut self, file: Entry) -> Result<(), AllocError> {
        self.entries.push(file)?;
        Ok(())
    }

    /// The bytes of the file of this name: of the last one.
    pub(crate) fn bytes(&self, name: &str) -> Option<&[u8]>
        ensures { option_map (λ b. b.now) result ≡ held self.now.entries.items name.now }
    {
        let mut found = None;
        'entries: for entry in &self.entries {
            if entry.name.as_str() == name {
                found = Some(entry.bytes.as_slice());
            }
        }
        found
    }
}
