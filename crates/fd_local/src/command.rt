ghost use Rattle.std.specs.Prelude.{◌≡◌, ◌≢◌, ◌↔◌, IsTrue, []};
ghost use Rattle.std.specs.Io.KnownBytes.{Keeps};
ghost use Rattle.fd_kinds.specs.History.{IsOpened};
ghost use Rattle.fd_api.specs.declared.sessions.EndKind.{EndKind};
ghost use Rattle.fd_api.specs.Streams.{stream, streams};
ghost use Rattle.fd_local.specs.Runs.{session_words, status_of, line_of, bad_words, Tells};
ghost use Rattle.fd_local.specs.Runs.{RunsSession, TellsSession};

use fd_api::{EndKind, alone_laws, session};
use fd_device::{Sink, Source};
use fd_kinds::Texts;
use fd_shelf::Shelf;
use fd_store::Local;
use std::alloc::Global;

/// Runs the command that the words name, and answers its exit status:
///
/// | Status | Comes | Line on the error sink |
/// |---|---|---|
/// | 0 | the session came to its end, or a request asked to close it | none |
/// | 1 | the words name no command | `frostd: bad words` |
/// | 2 | the input was cut in a request, or a head is refused | `frostd: input refused: NAME` |
/// | 3 | the source failed | `frostd: read fault` |
/// | 4 | the output sink failed | `frostd: write fault` |
/// | 7 | memory was wanting | `frostd: no memory` |
/// | 10 | the session took as many requests as one may | `frostd: request limit` |
///
/// The one command is `session`: one session over a store in memory, which begins empty. A fault
/// of the error sink changes nothing.
pub fn run<S: Source, K: Sink, E: Sink>(
    alloc: Global,
    words: &Texts,
    input: &mut S,
    out: &mut K,
    err: &mut E,
) -> u8
    // 1 is told exactly where the words are not those of a session; then nothing is read or
    // answered.
    ensures words { (result ≡ 1) ↔ (words.now ≢ session_words) }
    ensures refused { words.now ≢ session_words → (input.new ≡ input.old) × (out.new ≡ out.old)
        × Tells (stream E.taken E.faults err.old) (stream E.taken E.faults err.new) bad_words }

    // Else the session comes to an end, of which the status and the line on the error sink tell.
    ensures session { words.now ≡ session_words → TellsSession
        (streams (stream S.left S.faults input.old) (stream K.taken K.faults out.old))
        (streams (stream S.left S.faults input.new) (stream K.taken K.faults out.new))
        (stream E.taken E.faults err.old) (stream E.taken E.faults err.new) result }

    // A store in memory has no disk that fails.
    ensures memory { result ≢ 5 }
{
    if !is_session(words) {
        tell(err, b"frostd: bad words\n");
        return 1;
    }
    let end = serve(alloc, input, out);
    tell(err, line_of(end));
    status_of(end)
}

/// A store without batches, in memory alone.
fn empty_store(alloc: Global) -> Local
    ensures { IsOpened [] result }
{
    Local::new(Shelf::new(alloc))
}

/// A session over an empty store.
fn serve<S: Source, K: Sink>(alloc: Global, input: &mut S, out: &mut K) -> EndKind
    ensures session { RunsSession
        (streams (stream S.left S.faults input.old) (stream K.taken K.faults out.old))
        (streams (stream S.left S.faults input.new) (stream K.taken K.faults out.new)) result }
    ensures memory { result ≢ EndKind.DiskFault }
{
    let mut store = empty_store(alloc);
    alone_laws();
    session(alloc, &mut store, input, out).end
}

/// Whether the words are the one word `session`.
fn is_session(words: &Texts) -> bool
    ensures { IsTrue result ↔ (words.now ≡ session_words) }
{
    match words.as_slice() {
        [word] => word.as_str() == "session",
        _ => false,
    }
}

fn status_of(end: EndKind) -> u8
    ensures { result ≡ status_of end }
{
    match end {
        EndKind::Ended | EndKind::Closed => 0,
        EndKind::Cut | EndKind::BadHead | EndKind::NoLength | EndKind::TooLarge => 2,
        EndKind::ReadFault => 3,
        EndKind::WriteFault => 4,
        EndKind::DiskFault => 5,
        EndKind::NoMemory => 7,
        EndKind::Limit => 10,
    }
}

fn line_of(end: EndKind) -> &'static [u8]
    ensures { result.now ≡ line_of end }
{
    match end {
        EndKind::Ended | EndKind::Closed => b"",
        EndKind::Cut => b"frostd: input refused: Cut\n",
        EndKind::BadHead => b"frostd: input refused: BadHead\n",
        EndKind::NoLength => b"frostd: input refused: NoLength\n",
        EndKind::TooLarge => b"frostd: input refused: TooLarge\n",
        EndKind::ReadFault => b"frostd: read fault\n",
        EndKind::WriteFault => b"frostd: write fault\n",
        EndKind::DiskFault => b"frostd: disk fault\n",
        EndKind::NoMemory => b"frostd: no memory\n",
        EndKind::Limit => b"frostd: request limit\n",
    }
}

/// Writes a line to the error sink, where there is one to write.
fn tell<E: Sink>(err: &mut E, line: &[u8])
    ensures { Tells (stream E.taken E.faults err.old) (stream E.taken E.faults err.new) line.now }
{
    if !line.is_empty() {
        let _ = err.write(line);
    }
}
