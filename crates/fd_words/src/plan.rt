ghost use Rattle.std.specs.Prelude.{◌≡◌, ◌≢◌, Some, None, All, IfOk, IfErr, IsUtf8, codes, drop, map};
ghost use Rattle.std.specs.Prelude.{option_map, option_and_then, unwrap_or};
ghost use Rattle.clap.specs.Matches.{first_value, found_of};
ghost use Rattle.fd_words.specs.Lines.{given as given_by};
ghost use Rattle.fd_words.specs.Plans.{dir_of as dir_given, command_plan, plan_of};
ghost use Rattle.fd_words.specs.Plans.{persist_of, make_of};
ghost use Rattle.fd_words.specs.Plans.{serve_of, Meets};

use crate::WordsFault;
use crate::forms::{Form, given};
use crate::numbers::number;
use clap::ArgMatches;
use fd_lists::{NoMemory, Text, Texts};
use std::alloc::Global;

/// What the program is to do. `dir` is the folder of the store.
#[derive(Debug, PartialEq, Eq, Drop)]
pub enum Plan {
    /// One session, from the standard input to the standard output.
    Session {
        dir: Text,
    },
    /// Make one part of the active block's.
    Compact {
        dir: Text,
    },
    /// Put closed blocks into files, and with `rotate` close the active block before.
    Persist {
        dir: Text,
        rotate: bool,
    },
    /// Print each row.
    Dump {
        dir: Text,
    },
    /// Read everything, and write nothing.
    Verify {
        dir: Text,
    },
    /// Take so many made bodies, from 1 to 10,000.
    Make {
        dir: Text,
        seed: u64,
        count: u32,
    },
    /// Serve at an address with 1 to 32 workers, each of which takes so many connections, 0 for
    /// without end.
    Serve {
        dir: Text,
        listen: Text,
        workers: u32,
        connections: u64,
    },
}

/// The text that is given under the name, or else the other.
fn text_or<'a>(matches: &ArgMatches<'a>, name: &str, other: &'a str) -> &'a str
    ensures { result.now ≡ unwrap_or (first_value (found_of matches.now) name.now) other.now }
{
    match matches.get_str(name) {
        Some(text) => text,
        None => other,
    }
}

fn dir_of(alloc: Global, matches: &ArgMatches<'_>) -> Result<Text, WordsFault>
    ensures ok { IfOk result (λ dir. dir
        ≡ unwrap_or (first_value (found_of matches.now) (codes "dir")) (codes "frostd-data")) }
    ensures err { IfErr result (λ fault. fault ≡ WordsFault.NoMemory) }
{
    Ok(Text::of(alloc, text_or(matches, "dir", "frostd-data"))?)
}

/// The folder, where nothing else can be given.
#[tactic(auto, using(crate::proofs::Texts::folder_steps))]
fn folder(alloc: Global, words: &[&str]) -> Result<Text, WordsFault>
    requires utf8 { All IsUtf8 (map (λ w. w.now) words.now) }
    ensures { Meets (option_map dir_given
        (given_by Form.Store (drop 1 (map (λ w. w.now) words.now)))) result }
{
    let matches = match given(alloc, Form::Store, words) {
        Ok(matches) => matches,
        Err(fault) => return Err(fault),
    };
    dir_of(alloc, &matches)
}

#[tactic(auto, using(crate::proofs::Texts::persist_steps))]
fn persist_words(alloc: Global, words: &[&str]) -> Result<Plan, WordsFault>
    requires utf8 { All IsUtf8 (map (λ w. w.now) words.now) }
    ensures { Meets (option_map persist_of
        (given_by Form.Persist (drop 1 (map (λ w. w.now) words.now)))) result }
{
    let matches = match given(alloc, Form::Persist, words) {
        Ok(matches) => matches,
        Err(fault) => return Err(fault),
    };
    let rotate = text_or(&matches, "rotate", "false") == "true";
    let dir = dir_of(alloc, &matches)?;
    Ok(Plan::Persist { dir, rotate })
}

#[tactic(auto, using(crate::proofs::Texts::make_steps))]
fn make_words(alloc: Global, words: &[&str]) -> Result<Plan, WordsFault>
    requires utf8 { All IsUtf8 (map (λ w. w.now) words.now) }
    ensures { Meets (option_and_then make_of
        (given_by Form.Make (drop 1 (map (λ w. w.now) words.now)))) result }
{
    let matches = match given(alloc, Form::Make, words) {
        Ok(matches) => matches,
        Err(fault) => return Err(fault),
    };
    let Some(seed) = number(0, u64::MAX, text_or(&matches, "seed", "")) else {
        return Err(WordsFault::BadWords);
    };
    let Some(count) = number(1, 10_000, text_or(&matches, "count", "")) else {
        return Err(WordsFault::BadWords);
    };
    let dir = dir_of(alloc, &matches)?;
    let count = count as u32;
    Ok(Plan::Make { dir, seed, count })
}

#[tactic(auto, using(crate::proofs::Texts::serve_steps))]
fn serve_words(alloc: Global, words: &[&str]) -> Result<Plan, WordsFault>
    requires utf8 { All IsUtf8 (map (λ w. w.now) words.now) }
    ensures { Meets (option_and_then serve_of
        (given_by Form.Serve (drop 1 (map (λ w. w.now) words.now)))) result }
{
    let matches = match given(alloc, Form::Serve, words) {
        Ok(matches) => matches,
        Err(fault) => return Err(fault),
    };
    let Some(workers) = number(1, 32, text_or(&matches, "workers", "4")) else {
        return Err(WordsFault::BadWords);
    };
    let Some(connections) = number(0, u64::MAX, text_or(&matches, "connections", "0")) else {
        return Err(WordsFault::BadWords);
    };
    let listen = Text::of(alloc, text_or(&matches, "listen", "127.0.0.1:7070"))?;
    let dir = dir_of(alloc, &matches)?;
    let workers = workers as u32;
    Ok(Plan::Serve {
        dir,
        listen,
        workers,
        connections,
    })
}

/// The plan of the command with this name, where it is the first of the words.
fn command_words(alloc: Global, name: &str, words: &[&str]) -> Result<Plan, WordsFault>
    requires utf8 { All IsUtf8 (map (λ w. w.now) words.now) }
    ensures { Meets (command_plan name.now (drop 1 (map (λ w. w.now) words.now))) result }
{
    match name {
        "session" => match folder(alloc, words) {
            Ok(dir) => Ok(Plan::Session { dir }),
            Err(fault) => Err(fault),
        },
        "compact" => match folder(alloc, words) {
            Ok(dir) => Ok(Plan::Compact { dir }),
            Err(fault) => Err(fault),
        },
        "persist" => persist_words(alloc, words),
        "dump" => match folder(alloc, words) {
            Ok(dir) => Ok(Plan::Dump { dir }),
            Err(fault) => Err(fault),
        },
        "verify" => match folder(alloc, words) {
            Ok(dir) => Ok(Plan::Verify { dir }),
            Err(fault) => Err(fault),
        },
        "make" => make_words(alloc, words),
        "serve" => serve_words(alloc, words),
        _ => Err(WordsFault::BadWords),
    }
}

/// The words, borrowed.
#[tactic(auto, using(crate::proofs::Borrowed::borrow_steps))]
fn words_of(alloc: Global, texts: &[Text]) -> Result<Vec<&str>, NoMemory>
    ensures words { IfOk result (λ words. map (λ w. w.now) words.items ≡ texts.now) }
    ensures utf8 { IfOk result (λ words. All IsUtf8 (map (λ w. w.now) words.items)) }
{
    let mut words = Vec::with_capacity(alloc, texts.len())?;
    for text in texts {
        words.push(text.as_str())?;
    }
    Ok(words)
}

/// What the words say, where they are those of the texts.
fn read_words(alloc: Global, words: &[&str]) -> Result<Plan, WordsFault>
    requires utf8 { All IsUtf8 (map (λ w. w.now) words.now) }
    ensures { Meets (plan_of (map (λ w. w.now) words.now)) result }
{
    match words.first() {
        Some(name) => command_words(alloc, name, words),
        None => Err(WordsFault::BadWords),
    }
}

/// What the words of a command line, without the program's own name, tell the program to do: a
/// command and what stands behind its name, as the head of this crate shows it.
pub fn plan_words(alloc: Global, words: &Texts) -> Result<Plan, WordsFault>
    ensures planned { IfOk result (λ plan. plan_of words.now ≡ Some plan) }
    ensures refused { IfErr result (λ fault.
        fault ≢ WordsFault.NoMemory → plan_of words.now ≡ None) }
{
    let words = words_of(alloc, words.as_slice())?;
    read_words(alloc, words.as_slice())
}
