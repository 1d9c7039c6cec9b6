//! Writes the file of a block: the requests of one session come in, and the Parquet file of the
//! rows that they wrote goes out. The replies are thrown away. However many parts the block has,
//! they are merged into one, and the file of that is written once it was opened as a part again.
//!
//! | Status | Comes |
//! |---|---|
//! | 0 | the file was written |
//! | 1 | the session did not come to its end, its rows are of no block or of more than one, or the file does not open to as many rows |
//! | 4 | the output failed |
//! | 7 | memory was wanting |
#![tactic(auto)]

ghost use Rattle.std.specs.Prelude.{◌<◌, length, map, IfOk, IfSome};
ghost use Rattle.fd_part.specs.Parts.{part_meaning};
ghost use Rattle.fd_shelf.specs.Runs.{AreSealable};

use fd_api::{EndKind, session};
use fd_compact::{SealedRun, sealed_run};
use fd_device::{PlainSink, Put, Sink, Source, StdSink, StdSource};
use fd_kinds::{Bytes, Held, NoMemory};
use fd_parquet::FileFault;
use fd_part::Part;
use fd_shelf::{Picked, Shelf};
use fd_store::Local;
use std::alloc::Global;
use std::process::ExitCode;

const NO_FILE: u8 = 1;

const WRITE_FAULT: u8 = 4;

const NO_MEMORY: u8 = 7;

/// Whether a session with this end handled all of its requests.
fn is_whole(end: EndKind) -> bool {
    matches!(end, EndKind::Ended | EndKind::Closed)
}

/// The shelf of a store in memory that a session wrote to, none where it did not come to its end.
fn shelf_of<S: Source>(alloc: Global, input: &mut S) -> Result<Option<Shelf<Part>>, NoMemory> {
    let mut store = Local::new(Shelf::new(alloc));
    let mut replies = PlainSink::new(alloc)?;
    let end = session(alloc, &mut store, input, &mut replies).end;
    if is_whole(end) {
        Ok(Some(store.close()))
    } else {
        Ok(None)
    }
}

/// The parts of the one block of a shelf, none where it has more blocks or no number.
fn block_parts(shelf: &Shelf<Part>) -> Result<Option<Picked<Part>>, NoMemory>
    ensures some { IfOk result (λ found. IfSome found (λ parts. 0 < length parts)) }
    ensures sealable { IfOk result (λ found. IfSome found (λ parts.
        AreSealable (map (λ i. part_meaning i.part) parts))) }
{
    if shelf.active() != 0 {
        return Ok(None);
    }
    shelf.is_in_order();
    shelf.active_laws();
    let parts = shelf.parts_upto(shelf.mark())?;
    if parts.len() == 0 {
        return Ok(None);
    }
    Ok(Some(parts))
}

/// One sealed part in place of those of the one block, none where there is no such block.
fn sealed_block(alloc: Global, shelf: &Shelf<Part>) -> Result<Option<SealedRun>, NoMemory> {
    let Some(parts) = block_parts(shelf)? else {
        return Ok(None);
    };
    let run = sealed_run(alloc, parts.as_slice())?;
    Ok(Some(run))
}

/// Whether the bytes are the file of a part of so many rows.
fn opens(alloc: Global, file: &[u8], rows: u64) -> Result<bool, NoMemory> {
    let copy = Bytes::from_slice(alloc, file)?;
    match Part::opened(copy) {
        Ok(part) => Ok(part.rows() == rows),
        Err(FileFault::NoMemory) => Err(NoMemory),
        Err(_) => Ok(false),
    }
}

/// Writes the file of a sealed part that opens, and answers the exit status.
fn write_run<K: Sink>(alloc: Global, run: &SealedRun, out: &mut K) -> Result<u8, NoMemory> {
    let Some(file) = run.part.file() else {
        return Ok(NO_FILE);
    };
    if !opens(alloc, file, run.rows)? {
        return Ok(NO_FILE);
    }
    match out.write(file) {
        Put::Done => Ok(0),
        Put::Failed => Ok(WRITE_FAULT),
    }
}

/// Writes the file of what a session writes, and answers the exit status.
fn run<S: Source, K: Sink>(alloc: Global, input: &mut S, out: &mut K) -> Result<u8, NoMemory> {
    let Some(shelf) = shelf_of(alloc, input)? else {
        return Ok(NO_FILE);
    };
    match sealed_block(alloc, &shelf)? {
        Some(sealed) => write_run(alloc, &sealed, out),
        None => Ok(NO_FILE),
    }
}

fn main(rt: HostRuntime) -> ExitCode {
    let mut input = StdSource::new(rt.stdin());
    let mut out = StdSink::new(rt.stdout());
    match run(rt.alloc(), &mut input, &mut out) {
        Ok(status) => ExitCode::from(status),
        Err(NoMemory) => ExitCode::from(NO_MEMORY),
    }
}
