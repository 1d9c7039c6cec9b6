use fd_codes::{read_code_page, read_dictionary, read_picks, write_code_page, write_picks};
use fd_lists::Bytes;
use fd_pages::{Cell, CellKind, PageFault};
use std::alloc::Global;

/// The page of the required texts `a`, `b`, `a` with indexes of `a` and `b`.
const REQUIRED: [u8; 20] = [
    0x15, 0x00, 0x15, 0x06, 0x15, 0x06, 0x2c, 0x15, 0x06, 0x15, 0x10, 0x15, 0x06, 0x15, 0x06, 0x00,
    0x00, 0x01, 0x03, 0x02,
];

/// The page of the optional cells absent, `a`, `b` with indexes of `a` and `b`, between other
/// bytes.
const OPTIONAL: [u8; 28] = [
    0x77, 0x15, 0x00, 0x15, 0x12, 0x15, 0x12, 0x2c, 0x15, 0x06, 0x15, 0x10, 0x15, 0x06, 0x15, 0x06,
    0x00, 0x00, 0x02, 0x00, 0x00, 0x00, 0x03, 0x06, 0x01, 0x03, 0x02, 0x77,
];

/// The page of the required indexes 0, 2, 0 of three texts, which have two bits.
const WIDER: [u8; 21] = [
    0x15, 0x00, 0x15, 0x08, 0x15, 0x08, 0x2c, 0x15, 0x06, 0x15, 0x10, 0x15, 0x06, 0x15, 0x06, 0x00,
    0x00, 0x02, 0x03, 0x08, 0x00,
];

fn are_required(cells: &[Cell]) -> bool {
    match cells {
        [Cell::Bytes(a), Cell::Bytes(b), Cell::Bytes(c)] => {
            a.as_slice() == b"a".as_slice()
                && b.as_slice() == b"b".as_slice()
                && c.as_slice() == b"a".as_slice()
        }
        _ => false,
    }
}

fn are_optional(cells: &[Cell]) -> bool {
    match cells {
        [Cell::Absent, Cell::Bytes(a), Cell::Bytes(b)] => {
            a.as_slice() == b"a".as_slice() && b.as_slice() == b"b".as_slice()
        }
        _ => false,
    }
}

/// Whether the page of required texts is read.
fn required_is_read(alloc: Global) -> bool {
    let texts = [b"a".as_slice(), b"b".as_slice()];
    match read_code_page(alloc, &REQUIRED, 0, &texts, true, 3) {
        Ok((cells, end)) => {
            end == 20
                && cells.kind == CellKind::Bytes
                && cells.required
                && are_required(cells.cells.as_slice())
        }
        Err(_) => false,
    }
}

/// Whether the page of optional texts is read.
fn optional_is_read(alloc: Global) -> bool {
    let texts = [b"a".as_slice(), b"b".as_slice()];
    match read_code_page(alloc, &OPTIONAL, 1, &texts, false, 3) {
        Ok((cells, end)) => end == 27 && !cells.required && are_optional(cells.cells.as_slice()),
        Err(_) => false,
    }
}

#[test]
fn a_required_page_is_read(rt: HostRuntime) {
    assert!(rt; required_is_read(rt.alloc()));
}

#[test]
fn an_optional_page_is_read(rt: HostRuntime) {
    assert!(rt; optional_is_read(rt.alloc()));
}

/// Whether the page of three wider indexes is read as these picks.
fn wider_is_read(alloc: Global) -> bool {
    match read_picks(alloc, &WIDER, 0, 3, true, 3) {
        Ok((picks, end)) => end == 21 && picks.as_slice() == [1u32, 3, 1].as_slice(),
        Err(_) => false,
    }
}

#[test]
fn wider_indexes_are_read(rt: HostRuntime) {
    assert!(rt; wider_is_read(rt.alloc()));
}

/// Whether the page of these picks is read with a number of texts.
fn is_bad(alloc: Global, page: &[u8], size: usize, required: bool, count: usize) -> bool {
    if size > 1000 {
        return false;
    }
    read_picks(alloc, page, 0, size, required, count).err() == Some(PageFault::BadPage)
}

#[test]
fn other_pages_are_bad(rt: HostRuntime) {
    // cut, another count, an optional column whose levels are left out
    assert!(rt; is_bad(rt.alloc(), &REQUIRED[..19], 2, true, 3));
    assert!(rt; is_bad(rt.alloc(), &REQUIRED, 2, true, 2));
    assert!(rt; is_bad(rt.alloc(), &REQUIRED, 2, false, 3));
    assert!(rt; is_bad(rt.alloc(), &REQUIRED, 2, true, 0));
}

#[test]
fn other_widths_are_bad(rt: HostRuntime) {
    // one bit where three texts need two, two where two texts need one
    assert!(rt; is_bad(rt.alloc(), &REQUIRED, 3, true, 3));
    assert!(rt; is_bad(rt.alloc(), &WIDER, 2, true, 3));
}

/// Whether the page of wider indexes is refused with another byte for the indexes.
fn is_outside(alloc: Global, byte: u8) -> bool {
    let mut page = WIDER;
    page[19] = byte;
    is_bad(alloc, &page, 3, true, 3)
}

#[test]
fn an_index_outside_is_bad(rt: HostRuntime) {
    assert!(rt; is_outside(rt.alloc(), 0x0c));
    assert!(rt; !is_outside(rt.alloc(), 0x04));
}

/// Whether the page of the required texts is written.
fn required_is_written(alloc: Global) -> bool {
    let mut out = Bytes::new(alloc);
    match write_picks(&[1, 2, 1], true, 2, &mut out) {
        Ok(()) => out.as_slice() == REQUIRED.as_slice(),
        Err(_) => false,
    }
}

/// Whether the page of the optional texts is written.
fn optional_is_written(alloc: Global) -> bool {
    let mut out = Bytes::new(alloc);
    match write_picks(&[0, 1, 2], false, 2, &mut out) {
        Ok(()) => out.as_slice() == &OPTIONAL[1..27],
        Err(_) => false,
    }
}

#[test]
fn pages_are_written(rt: HostRuntime) {
    assert!(rt; required_is_written(rt.alloc()));
    assert!(rt; optional_is_written(rt.alloc()));
}

/// The page of a dictionary of the texts `a` and `b`.
const DICTIONARY: [u8; 23] = [
    0x15, 0x04, 0x15, 0x14, 0x15, 0x14, 0x4c, 0x15, 0x04, 0x15, 0x00, 0x00, 0x00, 0x01, 0x00, 0x00,
    0x00, 0x61, 0x01, 0x00, 0x00, 0x00, 0x62,
];

/// Whether the cells of a page are written as that page, with the texts of the dictionary.
fn is_written_again(alloc: Global, page: &[u8], required: bool) -> bool {
    let Ok((texts, _)) = read_dictionary(alloc, &DICTIONARY, 0) else {
        return false;
    };
    let Ok((cells, _)) = read_code_page(alloc, page, 0, texts.as_slice(), required, 3) else {
        return false;
    };
    let mut out = Bytes::new(alloc);
    match write_code_page(&cells, texts.as_slice(), 0, 3, &mut out) {
        Ok(()) => out.as_slice() == page,
        Err(_) => false,
    }
}

#[test]
fn cells_are_written(rt: HostRuntime) {
    assert!(rt; is_written_again(rt.alloc(), &REQUIRED, true));
    assert!(rt; is_written_again(rt.alloc(), &OPTIONAL[1..27], false));
}
