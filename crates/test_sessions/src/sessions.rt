use crate::cases::{sink_of, words_of};
use fd_api::{EndKind, Note, session};
use fd_device::{PlainSink, PlainSource};
use fd_kinds::{Bytes, NoMemory, Store, Texts};
use fd_local::run;
use fd_program::command;
use fd_shelf::Shelf;
use fd_store::Local;
use fixtures::{
    FUNCTIONS, LONG_FUNCTIONS, MERGE, WRITE, joined, long_frames, many_samples, profile_with_text,
    repeated, write_of,
};
use std::alloc::Global;
use std::process::ExitCode;
use std::test::Fail;

/// Whether a session over the input ends with this status and line, after so many bytes of replies
/// of which these are the last.
fn ends_with(
    alloc: Global,
    input: Bytes,
    end: (u8, &[u8]),
    length: usize,
    last: &[u8],
) -> Result<bool, NoMemory> {
    let words = words_of(alloc, Some("session"))?;
    let mut input = PlainSource::new(input)?;
    let mut out = PlainSink::new(alloc)?;
    let mut err = PlainSink::new(alloc)?;
    let status = run(alloc, &words, &mut input, &mut out, &mut err);
    let ends = (status, err.taken()) == end;
    Ok(ends && out.taken().len() == length && out.taken().ends_with(last))
}

#[test]
fn a_session_takes_100_000_requests(rt: HostRuntime) -> Result<(), Fail> {
    let input = repeated(rt.alloc(), b"GET / HTTP/1.1\r\n\r\n", 100_001)?;
    let last =
        b"HTTP/1.1 404 Not Found\r\nContent-Type: application/json\r\nContent-Length: 19\r\nConnection: close\r\n\r\n{\"error\":\"NoRoute\"}";
    let end = (10, b"frostd: request limit\n".as_slice());
    assert!(rt; ends_with(rt.alloc(), input, end, 9_700_019, last)?);
    Ok(())
}

/// A write of the longest body, and the head of one of a byte more.
fn long_bodies(alloc: Global) -> Result<Bytes, NoMemory> {
    let spaces = repeated(alloc, b" ", 16_777_214)?;
    let mut input = Bytes::from_slice(
        alloc,
        b"POST /profiles/writeraw HTTP/1.1\r\nContent-Length: 16777216\r\n\r\n{}",
    )?;
    input.extend(spaces.as_slice())?;
    input.extend(b"POST /profiles/writeraw HTTP/1.1\r\nContent-Length: 16777217\r\n\r\n{}")?;
    Ok(input)
}

#[test]
fn a_body_has_16_mebibytes(rt: HostRuntime) -> Result<(), Fail> {
    let replies =
        b"HTTP/1.1 200 OK\r\nContent-Type: application/json\r\nContent-Length: 14\r\n\r\n{\"number\":\"1\"}HTTP/1.1 413 Content Too Large\r\nContent-Type: application/json\r\nContent-Length: 20\r\nConnection: close\r\n\r\n{\"error\":\"TooLarge\"}";
    let input = long_bodies(rt.alloc())?;
    let end = (2, b"frostd: input refused: TooLarge\n".as_slice());
    assert!(rt; ends_with(rt.alloc(), input, end, 210, replies)?);
    Ok(())
}

/// The end of a session of one write whose reply fails, and how many numbers were drawn.
fn end_of_failed_reply(alloc: Global) -> Result<(EndKind, u64), NoMemory> {
    let mut input = PlainSource::new(Bytes::from_slice(alloc, WRITE)?)?;
    let mut out = sink_of(alloc, 1)?;
    let mut store = Local::new(Shelf::new(alloc));
    let end = session(alloc, &mut store, &mut input, &mut out).end;
    Ok((end, store.stand().drawn))
}

#[test]
fn a_write_whose_reply_fails_is_in_the_history(rt: HostRuntime) -> Result<(), Fail> {
    assert!(rt; end_of_failed_reply(rt.alloc())? == (EndKind::WriteFault, 1));
    Ok(())
}

#[test]
fn each_request_has_its_note(rt: HostRuntime) -> Result<(), Fail> {
    let requests = joined(rt.alloc(), &[WRITE, MERGE, b"GET /x HTTP/1.1\r\n\r\n"])?;
    let mut input = PlainSource::new(requests)?;
    let mut out = PlainSink::new(rt.alloc())?;
    let mut store = Local::new(Shelf::new(rt.alloc()));
    let notes = session(rt.alloc(), &mut store, &mut input, &mut out).notes;
    let wanted = [Note::Wrote { n: 1 }, Note::Read { w: 1 }, Note::Refused];
    assert!(rt; notes.as_slice() == wanted.as_slice());
    Ok(())
}

/// The exit status over words, and whether this is the line on the error sink.
fn exit_of(
    alloc: Global,
    words: Result<Texts, NoMemory>,
    line: &[u8],
) -> Result<(ExitCode, bool), NoMemory> {
    let mut input = PlainSource::new(Bytes::from_slice(alloc, MERGE)?)?;
    let mut out = PlainSink::new(alloc)?;
    let mut err = PlainSink::new(alloc)?;
    let exit = command(alloc, words, &mut input, &mut out, &mut err);
    Ok((exit, err.taken() == line))
}

#[test]
fn the_exit_status_is_that_of_the_command(rt: HostRuntime) -> Result<(), Fail> {
    let words = words_of(rt.alloc(), Some("session"));
    assert!(rt; exit_of(rt.alloc(), words, b"")? == (ExitCode::from(0), true));
    let line = b"frostd: no memory\n";
    assert!(rt; exit_of(rt.alloc(), Err(NoMemory), line)? == (ExitCode::from(7), true));
    Ok(())
}

/// Whether the write of a profile is answered by this reply.
fn is_answered(alloc: Global, profile: Bytes, reply: &[u8]) -> Result<bool, NoMemory> {
    let input = write_of(alloc, profile.as_slice())?;
    ends_with(alloc, input, (0, b""), reply.len(), reply)
}

#[test]
fn a_text_that_is_too_long_is_refused(rt: HostRuntime) -> Result<(), Fail> {
    let reply =
        b"HTTP/1.1 422 Unprocessable Content\r\nContent-Type: application/json\r\nContent-Length: 46\r\n\r\n{\"error\":\"LongText\",\"sample\":\"0\",\"series\":\"0\"}";
    let profile = profile_with_text(rt.alloc(), FUNCTIONS, 1_048_577)?;
    assert!(rt; is_answered(rt.alloc(), profile, reply)?);
    Ok(())
}

#[test]
fn a_stack_that_is_too_deep_is_refused(rt: HostRuntime) -> Result<(), Fail> {
    let reply =
        b"HTTP/1.1 422 Unprocessable Content\r\nContent-Type: application/json\r\nContent-Length: 45\r\n\r\n{\"error\":\"TooDeep\",\"sample\":\"0\",\"series\":\"0\"}";
    let profile = profile_with_text(rt.alloc(), LONG_FUNCTIONS, 1_048_569)?;
    assert!(rt; is_answered(rt.alloc(), profile, reply)?);
    Ok(())
}

#[test]
fn a_batch_that_is_too_large_is_refused(rt: HostRuntime) -> Result<(), Fail> {
    let reply =
        b"HTTP/1.1 422 Unprocessable Content\r\nContent-Type: application/json\r\nContent-Length: 48\r\n\r\n{\"error\":\"LargeBatch\",\"sample\":\"0\",\"series\":\"0\"}";
    let profile = long_frames(rt.alloc(), 140, 1, &[])?;
    assert!(rt; is_answered(rt.alloc(), profile, reply)?);
    Ok(())
}

#[test]
fn a_body_above_64_kibibytes_is_written(rt: HostRuntime) -> Result<(), Fail> {
    let reply =
        b"HTTP/1.1 200 OK\r\nContent-Type: application/json\r\nContent-Length: 14\r\n\r\n{\"number\":\"1\"}";
    let profile = many_samples(rt.alloc(), 10_000)?;
    assert!(rt; is_answered(rt.alloc(), profile, reply)?);
    Ok(())
}
