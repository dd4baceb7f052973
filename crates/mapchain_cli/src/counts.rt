// How often files were opened, and what became of outputs.
ghost use Rattle.std.specs.Prelude.{◌≡◌};

/// What became of outputs that were to take the place of a file, each tried once and ended once. A count that is at the greatest `u64`
/// stays there.
#[derive(Clone, Copy, Debug, PartialEq, Eq)]
pub struct OutputCounts {
    /// How many were begun.
    pub begun: u64,
    /// How many couldn't be begun.
    pub unbegun: u64,
    /// How many took the place of a file.
    pub kept: u64,
    /// How many were to, and couldn't.
    pub unkept: u64,
    /// How many weren't to, and were taken away.
    pub discarded: u64,
}

/// How often files were opened, and what became of outputs. A count that is at the greatest `u64` stays there.
#[derive(Clone, Copy, Debug, PartialEq, Eq)]
pub struct Counts {
    /// How many files were opened.
    pub opened: u64,
    /// How often a file couldn't be opened.
    pub refused: u64,
    /// What became of outputs.
    pub outputs: OutputCounts,
}

impl Counts {
    ghost use Rattle.mapchain_cli.specs.Files as spec;

    /// Nothing was called yet.
    pub fn none() -> Counts
        ensures { result ≡ record { opened = 0; refused = 0; outputs = spec.no_outputs } }
    {
        Counts {
            opened: 0,
            refused: 0,
            outputs: OutputCounts {
                begun: 0,
                unbegun: 0,
                kept: 0,
                unkept: 0,
                discarded: 0,
            },
        }
    }

    /// Counts one more try to open a file, which opened it or didn't.
    pub fn count_open(&mut self, is_open: bool)
        ensures { self.new ≡ spec.with_open is_open self.old }
    {
        if is_open {
            self.opened = self.opened.saturating_add(1);
        } else {
            self.refused = self.refused.saturating_add(1);
        }
    }

    /// Counts one more try to begin an output, which began it or didn't.
    pub fn count_begin(&mut self, is_begun: bool)
        ensures { self.new ≡ spec.in_outputs (spec.with_begin is_begun) self.old }
    {
        if is_begun {
            self.outputs.begun = self.outputs.begun.saturating_add(1);
        } else {
            self.outputs.unbegun = self.outputs.unbegun.saturating_add(1);
        }
    }

    /// Counts one more output that was to take the place of a file, and did or couldn't.
    pub fn count_keep(&mut self, is_kept: bool)
        ensures { self.new ≡ spec.in_outputs (spec.with_keep is_kept) self.old }
    {
        if is_kept {
            self.outputs.kept = self.outputs.kept.saturating_add(1);
        } else {
            self.outputs.unkept = self.outputs.unkept.saturating_add(1);
        }
    }

    /// Counts one more output that was taken away, as it wasn't to be kept.
    pub fn count_discard(&mut self)
        ensures { self.new ≡ spec.in_outputs spec.with_discard self.old }
    {
        self.outputs.discarded = self.outputs.discarded.saturating_add(1);
    }
}
