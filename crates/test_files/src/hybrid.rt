ghost use Rattle.std.specs.Prelude.{◌≤◌, IsTrue};
ghost use Rattle.fd_hybrid.specs.Format.{Fit};

use fd_hybrid::{HybridFault, pack, unpack};
use std::alloc::Global;

/// Whether each value fits the width.
#[tactic(auto, using(crate::proofs::Widths::one_raised))]
fn fit(values: &[u32], width: u8) -> bool
    requires { width ≤ 32 }
    ensures { IsTrue result → Fit width values.now }
{
    for value in values {
        if u64::from(*value) >= 1u64 << width {
            return false;
        }
    }
    true
}

fn packs(alloc: Global, width: u8, values: &[u32], bytes: &[u8]) -> bool {
    if width == 0 || width > 32 || !fit(values, width) {
        return false;
    }
    match pack(alloc, values, width) {
        Ok(packed) => packed.as_slice() == bytes,
        Err(_) => false,
    }
}

fn unpacks(alloc: Global, width: u8, values: &[u32], bytes: &[u8]) -> bool {
    if width == 0 || width > 32 {
        return false;
    }
    match unpack(alloc, bytes, width, values.len()) {
        Ok(unpacked) => unpacked.into_vec().as_slice() == values,
        Err(_) => false,
    }
}

fn refuses(alloc: Global, width: u8, count: usize, bytes: &[u8], fault: HybridFault) -> bool {
    if width == 0 || width > 32 {
        return false;
    }
    match unpack(alloc, bytes, width, count) {
        Ok(_) => false,
        Err(found) => found == fault,
    }
}

/// Both ways between values and the bytes that spell them.
fn spells(alloc: Global, width: u8, values: &[u32], bytes: &[u8]) -> bool {
    packs(alloc, width, values, bytes) && unpacks(alloc, width, values, bytes)
}

/// Widths, values, and the bytes that spell them.
const SPELLED: [(u8, &[u32], &[u8]); 6] = [
    (1, &[1, 1, 1, 1, 1, 1, 1, 1], &[0x10, 0x01]),
    (1, &[0, 1, 0, 1], &[0x03, 0x0a]),
    (3, &[0, 1, 2, 3, 4, 5, 6, 7], &[0x03, 0x88, 0xc6, 0xfa]),
    (32, &[], &[]),
    (
        9,
        &[300, 300, 300, 300, 300, 300, 300, 300, 300],
        &[0x12, 0x2c, 0x01],
    ),
    (
        8,
        &[1, 2, 3, 4, 5, 6, 7, 9, 9, 9, 9, 9, 9, 9, 9, 9],
        &[0x03, 1, 2, 3, 4, 5, 6, 7, 9, 0x10, 9],
    ),
];

#[test]
fn vectors_are_packed_and_unpacked(rt: HostRuntime) {
    for (width, values, bytes) in SPELLED {
        assert!(rt; spells(rt.alloc(), width, values, bytes));
    }
}

/// How many bits are asked for, and bytes that do not spell them.
const REFUSED: [(usize, &[u8], HybridFault); 13] = [
    (8, &[0x10, 0x02], HybridFault::OverWidth),
    (8, &[0x12, 0x02], HybridFault::OverWidth),
    (8, &[0x03, 0xff], HybridFault::BadRun),
    (8, &[0x10], HybridFault::Cut),
    (8, &[], HybridFault::Cut),
    (64, &[0x80], HybridFault::Cut),
    (63, &[0x80], HybridFault::BadRun),
    (8, &[0x90, 0x00, 0x01], HybridFault::BadRun),
    (8, &[0x00, 0x01], HybridFault::BadRun),
    (4, &[0x03, 0xfa], HybridFault::BadRun),
    (16, &[0x10, 0x01, 0x10, 0x01], HybridFault::BadRun),
    (16, &[0x03, 0x0a, 0x03, 0x0a], HybridFault::BadRun),
    (8, &[0x10, 0x01, 0x00], HybridFault::BadRun),
];

#[test]
fn other_bytes_are_refused(rt: HostRuntime) {
    for (count, bytes, fault) in REFUSED {
        assert!(rt; refuses(rt.alloc(), 1, count, bytes, fault));
    }
}
