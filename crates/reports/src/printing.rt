// Telling a fault in a line.
ghost use Rattle.std.specs.Prelude.{◌≡◌};
ghost use Rattle.reports.specs.FaultLines.{fault_text, file_fault_text, row_line};
ghost use Rattle.reports.specs.FaultRows.{row_of};
ghost use Rattle.reports.specs.Statuses.{file_status_of, status_of};
ghost use Rattle.reports.specs.Printing.{Prints};

use crate::fault_line::write_row;
use crate::fault_row::{FaultRow, of_build, of_file};
use byte_ends::{Drain, Sink, flush_after};
use inputs::{BuildFault, FileFault};

/// Prints a text, and passes it on. It is cut short where the device fails.
pub fn print_text<W: Drain>(text: &[u8], err: &mut Sink<W>)
    ensures { Prints err.old err.new text.now }
{
    let written = err.put(0, text);
    let _ = flush_after(written, err);
}

/// Prints the row of a fault in a line of its own, and gives its status.
fn print_row<W: Drain>(row: &FaultRow<'_>, err: &mut Sink<W>) -> u8
    ensures status { result ≡ row.now.status }
    ensures reported { Prints err.old err.new (row_line (row_of row.now)) }
{
    let written = write_row(row, err);
    let _ = flush_after(written, err);
    row.status
}

/// Prints a fault in a line of its own, and gives its status. The line needs no memory, and is cut short where the device fails.
pub fn print_fault<W: Drain>(fault: &BuildFault, err: &mut Sink<W>) -> u8
    ensures status { result ≡ status_of fault.now }
    ensures reported { Prints err.old err.new (fault_text fault.now) }
{
    print_row(&of_build(fault), err)
}

/// Prints a fault of the file of a topology in a line of its own, and gives its status, as `print_fault` does.
pub fn print_file_fault<W: Drain>(fault: &FileFault, err: &mut Sink<W>) -> u8
    ensures status { result ≡ file_status_of fault.now }
    ensures reported { Prints err.old err.new (file_fault_text fault.now) }
{
    print_row(&of_file(fault), err)
}
