// How often a device is read: the call that gives the first byte past the limit is the last one.
use byte_ends::devices::{CutReader, Fault};
use byte_ends::{FromRead, ReadFault, Source, read_all};
use std::alloc::Global;

/// Why these bytes are not read, one a call, with this limit and where the call of this number fails.
fn fault_of(alloc: Global, bytes: &[u8], limit: usize, failing: u64) -> Option<ReadFault> {
    let reader = CutReader::new(bytes, 1, Fault::AtCall(failing));
    let mut source = Source::new(FromRead::new(reader));
    read_all(alloc, &mut source, limit).err()
}

/// Whether these bytes are left at the limit: the call of this number is the last one.
fn is_left_at(alloc: Global, bytes: &[u8], limit: usize, last: u64) -> bool {
    fault_of(alloc, bytes, limit, last) == Some(ReadFault::Read)
        && fault_of(alloc, bytes, limit, last.saturating_add(1)) == Some(ReadFault::TooLong)
}

// Calls are counted from zero, so four were made, and 1001.
#[test]
fn one_call_goes_past_the_limit(rt: HostRuntime) {
    assert!(rt; is_left_at(rt.alloc(), b"12345", 3, 3));
    assert!(rt; is_left_at(rt.alloc(), &[b'1'; 2000], 1000, 1000));
}
