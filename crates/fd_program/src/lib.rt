//! The program over given devices: frostd itself and the programs of the stored runs call it.
#![tactic(auto)]

ghost use Rattle.std.specs.Prelude.{◌≡◌, ◌≢◌, ◌↔◌, IfOk, IfErr};
ghost use Rattle.std.specs.Process.{exit_status};
ghost use Rattle.fd_api.specs.declared.sessions.EndKind.{EndKind};
ghost use Rattle.fd_api.specs.Streams.{stream, streams};
ghost use Rattle.fd_local.specs.Runs.{session_words, bad_words, status_of, line_of, Tells};
ghost use Rattle.fd_local.specs.Runs.{TellsSession};

use fd_device::{Sink, Source, StdSink, StdSource};
use fd_kinds::{NoMemory, Text, Texts};
use fd_local::run;
use std::alloc::Global;
use std::env::{self, Env};
use std::io::{ErrorKind, Stderr, Stdin, Stdout};
use std::process::ExitCode;

const NO_MEMORY: u8 = 7;

/// The words of the command line, without the program's own name. Where one of them is not UTF-8
/// there are none, which name no command.
fn words_of<R: Env + AllocGlobal>(rt: &R) -> Result<Texts, NoMemory> {
    let mut words = Texts::new(rt.alloc());
    match env::args(rt) {
        Ok(arguments) => {
            for word in arguments.skip(1) {
                words.push(Text::from_string(word)?)?;
            }
        }
        Err(error) => {
            if error.kind() != ErrorKind::InvalidData {
                return Err(NoMemory);
            }
        }
    }
    Ok(words)
}

/// Ends where there was no memory for the words.
fn give_up<E: Sink>(err: &mut E) -> u8
    ensures status { result ≡ status_of EndKind.NoMemory }
    ensures told { Tells (stream E.taken E.faults err.old) (stream E.taken E.faults err.new)
        (line_of EndKind.NoMemory) }
{
    let _ = err.write(b"frostd: no memory\n");
    NO_MEMORY
}

/// Runs the command that the words name over a source and two sinks, and ends with its status.
/// Words that could not be read for want of memory end with the status of that, and its line.
///
/// What the real source and sinks take and give no contract can say, so this is the part of the
/// program that one speaks of.
pub fn command<S: Source, K: Sink, E: Sink>(
    alloc: Global,
    words: Result<Texts, NoMemory>,
    input: &mut S,
    out: &mut K,
    err: &mut E,
) -> ExitCode
    ensures wanting { IfErr words (λ _. (input.new ≡ input.old) × (out.new ≡ out.old)
        × (exit_status result ≡ status_of EndKind.NoMemory)
        × Tells (stream E.taken E.faults err.old) (stream E.taken E.faults err.new)
        (line_of EndKind.NoMemory)) }
    ensures words { IfOk words (λ w. (exit_status result ≡ 1) ↔ (w ≢ session_words)) }
    ensures refused { IfOk words (λ w. w ≢ session_words
        → (input.new ≡ input.old) × (out.new ≡ out.old)
        × Tells (stream E.taken E.faults err.old) (stream E.taken E.faults err.new) bad_words) }
    ensures session { IfOk words (λ w. w ≡ session_words → TellsSession
        (streams (stream S.left S.faults input.old) (stream K.taken K.faults out.old))
        (streams (stream S.left S.faults input.new) (stream K.taken K.faults out.new))
        (stream E.taken E.faults err.old) (stream E.taken E.faults err.new)
        (exit_status result)) }
{
    match words {
        Ok(words) => ExitCode::from(run(alloc, &words, input, out, err)),
        Err(NoMemory) => ExitCode::from(give_up(err)),
    }
}

/// Runs the command that the words of the command line name over the standard streams.
pub fn program<R: Env + AllocGlobal>(rt: &R, input: Stdin, out: Stdout, err: Stderr) -> ExitCode {
    let mut input = StdSource::new(input);
    let mut out = StdSink::new(out);
    let mut err = StdSink::new(err);
    command(rt.alloc(), words_of(rt), &mut input, &mut out, &mut err)
}
