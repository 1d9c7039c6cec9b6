use fd_wire::{Field, WireFault, WireValue, fields, varint, varints};
use std::alloc::Global;

const BIG: &[u8] = &[255, 255, 255, 255, 255, 255, 255, 255, 255, 1];

const LONG: &[u8] = &[255, 255, 255, 255, 255, 255, 255, 255, 255, 2];

/// Whether the bytes are the one field.
fn is_field(alloc: Global, bytes: &[u8], number: u32, value: WireValue) -> bool {
    match fields(alloc, bytes, 0, bytes.len()) {
        Ok(list) => list.as_slice() == [Field { number, value }].as_slice(),
        Err(_) => false,
    }
}

/// Whether the bytes are these numbers.
fn are_numbers(alloc: Global, bytes: &[u8], numbers: &[u64]) -> bool {
    match varints(alloc, bytes, 0, bytes.len()) {
        Ok(list) => list.as_slice() == numbers,
        Err(_) => false,
    }
}

/// The examples of the Protocol Buffers page on the encoding.
#[test]
fn published_examples_are_read(rt: HostRuntime) {
    let testing = [0x12, 7, 0x74, 0x65, 0x73, 0x74, 0x69, 0x6e, 0x67];
    let span = WireValue::Span { start: 2, end: 9 };
    assert!(rt; is_field(rt.alloc(), &[8, 0x96, 1], 1, WireValue::Varint(150)));
    assert!(rt; is_field(rt.alloc(), &testing, 2, span));
    assert!(rt; are_numbers(rt.alloc(), &[3, 0x8e, 2, 0x9e, 0xa7, 5], &[3, 270, 86942]));
}

/// Whether the varint at the start of the bytes is this number, and ends there.
fn is_varint(bytes: &[u8], number: u64, end: usize) -> bool {
    varint(bytes, 0, bytes.len()) == Ok((number, end))
}

#[test]
fn varints_are_read(rt: HostRuntime) {
    assert!(rt; is_varint(&[0xac, 0x02], 300, 2));
    assert!(rt; is_varint(&[0xac, 0x82, 0x00], 300, 3));
    assert!(rt; is_varint(BIG, 18_446_744_073_709_551_615, 10));
}

/// The fault of the fields, none where they are read.
fn fault(alloc: Global, bytes: &[u8]) -> Option<WireFault> {
    fields(alloc, bytes, 0, bytes.len()).err()
}

#[test]
fn faults_have_their_places(rt: HostRuntime) {
    assert!(rt; varint(LONG, 0, 10) == Err(WireFault::LongVarint { at: 0 }));
    assert!(rt; varint(&[0x80], 0, 1) == Err(WireFault::Cut { at: 0 }));
    assert!(rt; fault(rt.alloc(), &[0x03]) == Some(WireFault::BadKey { at: 0 }));
    assert!(rt; fault(rt.alloc(), &[0x12, 0x05, 0x00]) == Some(WireFault::Cut { at: 1 }));
}
