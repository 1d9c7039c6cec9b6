use fd_pages::{Cell, CellKind, PageFault, read_page};
use std::alloc::Global;

/// The page of an optional BYTE_ARRAY column with the cells absent, `a`, `b`.
const OPTIONAL_PAGE: [u8; 33] = [
    0x15, 0x00, 0x15, 0x20, 0x15, 0x20, 0x2c, 0x15, 0x06, 0x15, 0x00, 0x15, 0x06, 0x15, 0x06, 0x00,
    0x00, 0x02, 0x00, 0x00, 0x00, 0x03, 0x06, 0x01, 0x00, 0x00, 0x00, 0x61, 0x01, 0x00, 0x00, 0x00,
    0x62,
];

/// The page of a required INT64 column with the cells 1 and -2, between other bytes.
const REQUIRED_PAGE: [u8; 35] = [
    0x77, 0x15, 0x00, 0x15, 0x20, 0x15, 0x20, 0x2c, 0x15, 0x04, 0x15, 0x00, 0x15, 0x06, 0x15, 0x06,
    0x00, 0x00, 0x01, 0x00, 0x00, 0x00, 0x00, 0x00, 0x00, 0x00, 0xfe, 0xff, 0xff, 0xff, 0xff, 0xff,
    0xff, 0xff, 0x77,
];

/// Whether the page of `count` numbers at the place 1 ends at the place 34.
fn are_read(alloc: Global, required: bool, count: usize) -> bool {
    match read_page(alloc, &REQUIRED_PAGE, 1, CellKind::Whole, required, count) {
        Ok((cells, end)) => end == 34 && are_numbers(cells.cells.as_slice()),
        Err(_) => false,
    }
}

fn are_numbers(cells: &[Cell]) -> bool {
    matches!(cells, [Cell::Whole(1), Cell::Whole(-2)])
}

fn are_texts(cells: &[Cell]) -> bool {
    match cells {
        [Cell::Absent, Cell::Bytes(a), Cell::Bytes(b)] => {
            a.as_slice() == b"a".as_slice() && b.as_slice() == b"b".as_slice()
        }
        _ => false,
    }
}

/// Whether the page of the three texts is read to its end.
fn texts_are_read(alloc: Global) -> bool {
    match read_page(alloc, &OPTIONAL_PAGE, 0, CellKind::Bytes, false, 3) {
        Ok((cells, end)) => end == 33 && are_texts(cells.cells.as_slice()),
        Err(_) => false,
    }
}

#[test]
fn an_optional_page_is_read(rt: HostRuntime) {
    assert!(rt; texts_are_read(rt.alloc()));
}

#[test]
fn a_required_page_is_read(rt: HostRuntime) {
    assert!(rt; are_read(rt.alloc(), true, 2));
}

/// Whether the first bytes of the page are refused as that of so many cells.
fn is_bad(alloc: Global, end: usize, count: usize) -> bool {
    if end > OPTIONAL_PAGE.len() {
        return false;
    }
    let read = read_page(
        alloc,
        &OPTIONAL_PAGE[..end],
        0,
        CellKind::Bytes,
        false,
        count,
    );
    read.err() == Some(PageFault::BadPage)
}

#[test]
fn other_bytes_are_bad(rt: HostRuntime) {
    assert!(rt; is_bad(rt.alloc(), 32, 3));
    assert!(rt; is_bad(rt.alloc(), 33, 2));
    assert!(rt; !are_read(rt.alloc(), false, 2));
}
