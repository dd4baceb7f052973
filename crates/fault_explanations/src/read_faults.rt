// Why a file couldn't be read to its end.
use byte_ends::ReadFault;

/// The line for a file that couldn't be read to its end, if there is one.
pub(crate) fn read_words(fault: ReadFault) -> &'static str {
    match fault {
        ReadFault::TooLong => "  the file has more than 1000000000 bytes\n",
        ReadFault::Read => "",
        ReadFault::Memory => "",
    }
}
