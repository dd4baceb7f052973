// The exit statuses.
ghost use Rattle.std.specs.Prelude.{◌≡◌};
ghost use Rattle.reports.specs.Statuses.{file_status_of, status_of};

use crate::fault_row::{of_build, of_file};
use inputs::{BuildFault, FileFault};

/// What was asked for is done.
pub const DONE: u8 = 0;

/// An input is refused.
pub const INPUT_REFUSED: u8 = 1;

/// The words of the command line are refused.
pub const WORDS_REFUSED: u8 = 2;

/// Reading, writing or memory failed.
pub const FAILED: u8 = 3;

/// The exit status after a build that ended so: 1 for an input that is refused, 2 for a layer's name, and 3 where
/// reading, writing or memory failed.
pub fn status(fault: &BuildFault) -> u8
    ensures { result ≡ status_of fault.now }
{
    of_build(fault).status
}

/// The exit status after the file of a topology was used and it ended so: 1 for a file that is refused, has no object of the name or
/// stands for too many positions, and 3 where reading, writing or memory failed.
pub fn file_status(fault: &FileFault) -> u8
    ensures { result ≡ file_status_of fault.now }
{
    of_file(fault).status
}
