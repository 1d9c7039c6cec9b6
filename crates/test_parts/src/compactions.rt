ghost use Rattle.std.specs.Prelude.{◌≡◌};

use fd_api::session;
use fd_compact::{Compaction, compact_full, compact_shelf};
use fd_device::{PlainSink, PlainSource};
use fd_kinds::{Bytes, Held, NoMemory};
use fd_parquet::FileFault;
use fd_part::Part;
use fd_shelf::{InBlock, Picked, Shelf};
use fd_store::Local;
use fixtures::{MERGE, WRITE, joined, many_samples, repeated, write_of};
use std::alloc::Global;
use std::test::Fail;

const LABELS: &[u8] = b"GET /profiles/labels HTTP/1.1\r\n\r\n";

// The merge and the label names after 15 writes, and after 16.
const AFTER_15: &[u8] =
    b"HTTP/1.1 200 OK\r\nContent-Type: application/json\r\nContent-Length: 118\r\n\r\n{\"stacks\":[{\"frames\":[\"main\"],\"value\":\"150\"},{\"frames\":[\"work\",\"main\"],\"value\":\"300\"}],\"total\":\"450\",\"watermark\":\"15\"}HTTP/1.1 200 OK\r\nContent-Type: application/json\r\nContent-Length: 39\r\n\r\n{\"labelNames\":[\"job\"],\"watermark\":\"15\"}";

const AFTER_16: &[u8] =
    b"HTTP/1.1 200 OK\r\nContent-Type: application/json\r\nContent-Length: 118\r\n\r\n{\"stacks\":[{\"frames\":[\"main\"],\"value\":\"160\"},{\"frames\":[\"work\",\"main\"],\"value\":\"320\"}],\"total\":\"480\",\"watermark\":\"16\"}HTTP/1.1 200 OK\r\nContent-Type: application/json\r\nContent-Length: 39\r\n\r\n{\"labelNames\":[\"job\"],\"watermark\":\"16\"}";

/// Runs a session over the store, and answers its replies.
fn replies(alloc: Global, store: &mut Local, input: Bytes) -> Result<PlainSink, NoMemory> {
    let mut input = PlainSource::new(input)?;
    let mut out = PlainSink::new(alloc)?;
    session(alloc, store, &mut input, &mut out);
    Ok(out)
}

/// A store after the requests.
fn written(alloc: Global, requests: Bytes) -> Result<Local, NoMemory> {
    let mut store = Local::new(Shelf::new(alloc));
    replies(alloc, &mut store, requests)?;
    Ok(store)
}

/// A store after so many writes of two rows each.
pub(crate) fn written_often(alloc: Global, times: u32) -> Result<Local, NoMemory> {
    written(alloc, repeated(alloc, WRITE, times)?)
}

/// Whether a store answers a merge and a label query by these bytes.
fn answers(alloc: Global, store: &mut Local, expected: &[u8]) -> Result<bool, NoMemory> {
    let asked = joined(alloc, &[MERGE, LABELS])?;
    Ok(replies(alloc, store, asked)?.taken() == expected)
}

/// All parts of a shelf, in order.
pub(crate) fn parts_of(shelf: &Shelf<Part>) -> Result<Picked<Part>, NoMemory> {
    shelf.is_in_order();
    shelf.parts_upto(shelf.mark())
}

/// Whether the only part is a sealed one of the numbers from 1 to `hi`, with a file.
fn are_one_file(parts: &[InBlock<Part>], hi: u64, rows: u64) -> bool {
    match parts {
        [one] => {
            one.part.sealed()
                && one.part.file().is_some()
                && (one.part.lo(), one.part.hi(), one.part.rows()) == (1, hi, rows)
        }
        _ => false,
    }
}

pub(crate) fn is_one_file(shelf: &Shelf<Part>, hi: u64, rows: u64) -> Result<bool, NoMemory> {
    Ok(are_one_file(parts_of(shelf)?.as_slice(), hi, rows))
}

#[test]
fn the_sixteenth_write_leaves_one_sealed_part(rt: HostRuntime) -> Result<(), Fail> {
    let shelf = written_often(rt.alloc(), 16)?.close();
    assert_eq!(rt; shelf.loose(), 0);
    assert!(rt; is_one_file(&shelf, 16, 32)?);
    Ok(())
}

#[test]
fn a_sealed_part_is_queried(rt: HostRuntime) -> Result<(), Fail> {
    let mut store = written_often(rt.alloc(), 16)?;
    assert!(rt; answers(rt.alloc(), &mut store, AFTER_16)?);
    Ok(())
}

/// Whether fifteen parts stay as they are, unless they are compacted up to a limit.
fn fifteen_wait(shelf: &mut Shelf<Part>) -> Result<bool, NoMemory>
    ensures { shelf.new.book.stragglers ≡ shelf.old.book.stragglers }
{
    let waits = compact_full(shelf)?.is_none() && shelf.loose() == 15;
    let one = compact_shelf(shelf, 1)? == Compaction::Nothing { parts: 1 };
    Ok(waits && one && shelf.loose() == 15)
}

/// Whether fifteen parts are compacted up to the limit 15.
fn fifteen_are_compacted(shelf: &mut Shelf<Part>) -> Result<bool, NoMemory>
    ensures { shelf.new.book.stragglers ≡ shelf.old.book.stragglers }
{
    let all = Compaction::Compacted {
        lo: 1,
        hi: 15,
        rows: 30,
    };
    Ok(compact_shelf(shelf, 15)? == all && is_one_file(shelf, 15, 30)?)
}

#[test]
fn fifteen_writes_are_compacted_by_a_call_alone(rt: HostRuntime) -> Result<(), Fail> {
    let mut shelf = written_often(rt.alloc(), 15)?.close();
    assert!(rt; fifteen_wait(&mut shelf)?);
    assert!(rt; fifteen_are_compacted(&mut shelf)?);
    assert!(rt; answers(rt.alloc(), &mut Local::new(shelf), AFTER_15)?);
    Ok(())
}

/// The parts of a store, where those that are loose have become one sealed part.
fn compacted(store: Local) -> Result<Picked<Part>, NoMemory> {
    let mut shelf = store.close();
    let limit = shelf.mark();
    compact_shelf(&mut shelf, limit)?;
    parts_of(&shelf)
}

/// Whether the bytes are opened as a sealed part of the numbers 1 and 2 with so many rows.
fn is_opened(alloc: Global, file: &[u8], rows: u64) -> Result<bool, NoMemory> {
    let bytes = Bytes::from_slice(alloc, file)?;
    Ok(match Part::opened(bytes) {
        Ok(part) => {
            part.sealed()
                && (part.lo(), part.hi(), part.rows()) == (1, 2, rows)
                && part.file() == Some(file)
        }
        Err(_) => false,
    })
}

/// Whether the file of the only part is opened with so many rows.
fn are_opened(alloc: Global, parts: &[InBlock<Part>], rows: u64) -> Result<bool, NoMemory> {
    match parts {
        [one] => match one.part.file() {
            Some(file) => is_opened(alloc, file, rows),
            None => Ok(false),
        },
        _ => Ok(false),
    }
}

/// Whether what two requests write is compacted to a file that is opened with so many rows.
fn comes_back(alloc: Global, requests: Bytes, rows: u64) -> Result<bool, NoMemory> {
    let parts = compacted(written(alloc, requests)?)?;
    are_opened(alloc, parts.as_slice(), rows)
}

#[test]
fn the_file_of_a_sealed_part_is_opened(rt: HostRuntime) -> Result<(), Fail> {
    let two = repeated(rt.alloc(), WRITE, 2)?;
    assert!(rt; comes_back(rt.alloc(), two, 4)?);
    Ok(())
}

/// A write without series.
const EMPTY: &[u8] = b"POST /profiles/writeraw HTTP/1.1\r\nContent-Length: 2\r\n\r\n{}";

#[test]
fn a_file_of_no_rows_is_opened(rt: HostRuntime) -> Result<(), Fail> {
    let two = repeated(rt.alloc(), EMPTY, 2)?;
    assert!(rt; comes_back(rt.alloc(), two, 0)?);
    Ok(())
}

/// Whether so many rows, each with a text that no other has, come back from their file. The write
/// without series comes first, since behind 65,536 rows a block takes no other batch.
fn many_come_back(alloc: Global, rows: u32) -> Result<bool, NoMemory> {
    let profile = many_samples(alloc, rows)?;
    let write = write_of(alloc, profile.as_slice())?;
    let requests = joined(alloc, &[EMPTY, write.as_slice()])?;
    comes_back(alloc, requests, u64::from(rows))
}

#[test]
fn a_file_with_runs_of_eight_levels_is_opened(rt: HostRuntime) -> Result<(), Fail> {
    assert!(rt; many_come_back(rt.alloc(), 8)?);
    assert!(rt; many_come_back(rt.alloc(), 9)?);
    Ok(())
}

#[test]
fn a_file_of_two_pages_is_opened(rt: HostRuntime) -> Result<(), Fail> {
    assert!(rt; many_come_back(rt.alloc(), 1_000)?);
    assert!(rt; many_come_back(rt.alloc(), 1_001)?);
    Ok(())
}

#[test]
fn a_file_of_65_537_distinct_texts_is_opened(rt: HostRuntime) -> Result<(), Fail> {
    assert!(rt; many_come_back(rt.alloc(), 65_537)?);
    Ok(())
}

/// The fault of the file of the only part with another byte so far from its start or its end.
fn refusal(
    alloc: Global,
    parts: &[InBlock<Part>],
    at: usize,
    from_end: bool,
    byte: u8,
) -> Result<Option<FileFault>, NoMemory> {
    let [one] = parts else {
        return Ok(None);
    };
    let Some(file) = one.part.file() else {
        return Ok(None);
    };
    let mut bytes = Bytes::from_slice(alloc, file)?.into_vec();
    let place = if from_end {
        bytes.len().saturating_sub(at)
    } else {
        at
    };
    if let Some(old) = bytes.get_mut(place) {
        *old = byte;
    }
    Ok(Part::opened(Bytes::from_vec(bytes)).err())
}

#[test]
fn a_file_with_another_byte_is_refused(rt: HostRuntime) -> Result<(), Fail> {
    // The first magic, the header of the first page, and the highest byte of the footer's length.
    let cases = [
        (0, false, b'Q', FileFault::Magic),
        (4, false, 0, FileFault::Page { column: 0 }),
        (5, true, 255, FileFault::Footer),
    ];
    let parts = compacted(written_often(rt.alloc(), 2)?)?;
    for (at, from_end, byte, fault) in cases {
        assert!(rt; refusal(rt.alloc(), parts.as_slice(), at, from_end, byte)? == Some(fault));
    }
    Ok(())
}
