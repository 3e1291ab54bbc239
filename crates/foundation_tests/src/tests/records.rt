//! Records, which take no memory, and whose calls return.

use foundation::Record;
use std::mem::size_of;

#[test]
fn a_record_has_no_bytes(rt: HostRuntime) {
    let mut record = Record::new();
    record.push(&7u64);
    record.extend_from_slice(&[8, 9]);
    let bytes = size_of::<Record<u64>>() + size_of::<Record<Vec<u8>>>();
    assert_eq!(rt; bytes, 0);
}
