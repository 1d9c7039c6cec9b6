use fd_codes::{TextSlices, read_dictionary, write_dictionary};
use fd_lists::Bytes;
use fd_pages::PageFault;
use std::alloc::Global;

/// The page of a dictionary of the texts `a` and `b`, between other bytes.
const PAGE: [u8; 25] = [
    0x77, 0x15, 0x04, 0x15, 0x14, 0x15, 0x14, 0x4c, 0x15, 0x04, 0x15, 0x00, 0x00, 0x00, 0x01, 0x00,
    0x00, 0x00, 0x61, 0x01, 0x00, 0x00, 0x00, 0x62, 0x77,
];

/// The page of a dictionary without a text.
const EMPTY: [u8; 13] = [
    0x15, 0x04, 0x15, 0x00, 0x15, 0x00, 0x4c, 0x15, 0x00, 0x15, 0x00, 0x00, 0x00,
];

/// The page of a dictionary of the empty text, `a` and `ab`.
const BEGINNINGS: [u8; 28] = [
    0x15, 0x04, 0x15, 0x1e, 0x15, 0x1e, 0x4c, 0x15, 0x06, 0x15, 0x00, 0x00, 0x00, 0x00, 0x00, 0x00,
    0x00, 0x01, 0x00, 0x00, 0x00, 0x61, 0x02, 0x00, 0x00, 0x00, 0x61, 0x62,
];

fn are_two(texts: &TextSlices) -> bool {
    match texts.as_slice() {
        [a, b] => *a == b"a".as_slice() && *b == b"b".as_slice(),
        _ => false,
    }
}

fn are_three(texts: &TextSlices) -> bool {
    match texts.as_slice() {
        [a, b, c] => a.is_empty() && *b == b"a".as_slice() && *c == b"ab".as_slice(),
        _ => false,
    }
}

/// Whether the dictionary of the two texts is read, up to the place 24.
fn two_are_read(alloc: Global) -> bool {
    match read_dictionary(alloc, &PAGE, 1) {
        Ok((texts, end)) => end == 24 && are_two(&texts),
        Err(_) => false,
    }
}

/// Whether the dictionary without a text is read.
fn none_is_read(alloc: Global) -> bool {
    match read_dictionary(alloc, &EMPTY, 0) {
        Ok((texts, end)) => end == 13 && texts.len() == 0,
        Err(_) => false,
    }
}

/// Whether the dictionary of texts that begin others is read.
fn three_are_read(alloc: Global) -> bool {
    match read_dictionary(alloc, &BEGINNINGS, 0) {
        Ok((texts, end)) => end == 28 && are_three(&texts),
        Err(_) => false,
    }
}

#[test]
fn a_dictionary_is_read(rt: HostRuntime) {
    assert!(rt; two_are_read(rt.alloc()));
}

#[test]
fn an_empty_dictionary_is_read(rt: HostRuntime) {
    assert!(rt; none_is_read(rt.alloc()));
}

#[test]
fn texts_that_begin_others_are_read(rt: HostRuntime) {
    assert!(rt; three_are_read(rt.alloc()));
}

/// Whether the texts of a page are written as that page.
fn is_written(alloc: Global, page: &[u8]) -> bool {
    let Ok((texts, _)) = read_dictionary(alloc, page, 0) else {
        return false;
    };
    let mut out = Bytes::new(alloc);
    match write_dictionary(texts.as_slice(), &mut out) {
        Ok(()) => out.as_slice() == page,
        Err(_) => false,
    }
}

#[test]
fn dictionaries_are_written(rt: HostRuntime) {
    assert!(rt; is_written(rt.alloc(), &PAGE[1..24]));
    assert!(rt; is_written(rt.alloc(), &BEGINNINGS));
}

/// Whether the page of two texts is refused with another byte at a place.
fn is_bad(alloc: Global, at: usize, byte: u8) -> bool {
    let mut page = PAGE;
    if at >= page.len() {
        return false;
    }
    page[at] = byte;
    read_dictionary(alloc, &page, 1).err() == Some(PageFault::BadPage)
}

#[test]
fn a_dictionary_that_does_not_rise_is_bad(rt: HostRuntime) {
    assert!(rt; is_bad(rt.alloc(), 18, 0x62));
    assert!(rt; is_bad(rt.alloc(), 18, 0x63));
    assert!(rt; is_bad(rt.alloc(), 23, 0x61));
}

#[test]
fn another_header_is_bad(rt: HostRuntime) {
    assert!(rt; is_bad(rt.alloc(), 2, 0x00));
    assert!(rt; is_bad(rt.alloc(), 9, 0x02));
    assert!(rt; is_bad(rt.alloc(), 11, 0x10));
}

#[test]
fn other_lengths_are_bad(rt: HostRuntime) {
    assert!(rt; is_bad(rt.alloc(), 14, 0x00));
    assert!(rt; is_bad(rt.alloc(), 19, 0x02));
}

/// Whether the first bytes of the page are refused.
fn is_cut(alloc: Global, end: usize) -> bool {
    if end > EMPTY.len() {
        return false;
    }
    read_dictionary(alloc, &EMPTY[..end], 0).err() == Some(PageFault::BadPage)
}

#[test]
fn a_cut_dictionary_is_bad(rt: HostRuntime) {
    assert!(rt; is_cut(rt.alloc(), 0));
    assert!(rt; is_cut(rt.alloc(), 12));
    assert!(rt; !is_cut(rt.alloc(), 13));
}
