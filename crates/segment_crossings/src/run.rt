// Segments one after another.
ghost use Rattle.std.specs.Prelude.{◌≡◌, ◌-◌, ◌≤◌, length};
ghost use Rattle.segment_crossings.specs.Lines.{Each};
ghost use Rattle.segment_crossings.specs.Marks.{IsIn};

use crate::line::{Line, extent_of, read_line};
use planar_predicates::{Extent, empty_extent, joined};

/// Segments from a rank on, before another.
#[derive(Clone, Copy, Debug, PartialEq, Eq)]
pub struct Run {
    pub first: usize,
    pub end: usize,
}

impl Run {
    /// How many they are.
    pub fn len(&self) -> usize
        requires { self.now.first ≤ self.now.end }
        ensures { result ≡ self.now.end - self.now.first }
    {
        self.end - self.first
    }
}

/// The box round the segments of a run.
pub fn extent_round(lines: &[Line], run: Run) -> Extent
    requires { run.end ≤ length lines.now }
    ensures { Each (IsIn result) lines.now run.first run.end }
{
    let mut extent = empty_extent();
    for rank in run.first..run.end {
        extent = joined(extent, extent_of(read_line(lines, rank)));
    }
    extent
}
