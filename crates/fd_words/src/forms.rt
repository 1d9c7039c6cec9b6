ghost use Rattle.std.specs.Prelude.{◌≡◌, ◌≢◌, false, None, All, IfOk, IfErr, IsUtf8, drop, map};
ghost use Rattle.clap.specs.Simple.{app_of, with_rule};
ghost use Rattle.clap.specs.Values.{kind_of};
ghost use Rattle.clap.specs.Walk.{rule_of};
ghost use Rattle.fd_words.specs.Lines.{given as given_by};
ghost use Rattle.fd_words.specs.Rules.{option_rule, flag_rule, operand_rule, bare_app};
ghost use Rattle.fd_words.specs.Rules.{app_for, Gives};

use crate::WordsFault;
use clap::error::ErrorKind;
use clap::{Arg, ArgAction, ArgMatches, Command, Error};
use std::alloc::{AllocError, Global};

/// What stands behind the name of a command.
#[derive(Debug, Clone, Copy, PartialEq, Eq)]
pub(crate) enum Form {
    /// A folder.
    Store,
    /// A folder, and whether to rotate.
    Persist,
    /// A seed, a count and a folder.
    Make,
    /// A folder, an address and two numbers.
    Serve,
}

/// The option `--NAME` with a value.
fn option<'a>(alloc: Global, name: &'a str) -> Arg<'a>
    ensures rule { rule_of result ≡ option_rule name.now }
    ensures local { result.global ≡ false }
{
    Arg::new(alloc, name).long(name)
}

/// The option `--NAME` without a value.
fn flag<'a>(alloc: Global, name: &'a str) -> Arg<'a>
    ensures rule { rule_of result ≡ flag_rule name.now }
    ensures local { result.global ≡ false }
{
    Arg::new(alloc, name).long(name).action(ArgAction::SetTrue)
}

/// A word that is no option.
fn operand<'a>(alloc: Global, name: &'a str) -> Arg<'a>
    ensures rule { rule_of result ≡ operand_rule name.now }
    ensures local { result.global ≡ false }
{
    Arg::new(alloc, name).required(true)
}

/// A command without help and version flags. The first word is its name.
fn bare<'a>(alloc: Global) -> Command<'a>
    ensures { app_of result ≡ bare_app }
{
    Command::new(alloc, "frostd")
        .disable_help_flag(true)
        .disable_version_flag(true)
}

/// The command with one argument more.
fn with_arg<'a>(command: Command<'a>, arg: Arg<'a>) -> Result<Command<'a>, AllocError>
    requires local { arg.global ≡ false }
    ensures { IfOk result (λ more. app_of more
        ≡ with_rule (app_of command.entry) (rule_of arg.entry)) }
{
    command.arg(arg)
}

fn store_command<'a>(alloc: Global) -> Result<Command<'a>, AllocError>
    ensures { IfOk result (λ c. app_of c ≡ app_for Form.Store) }
{
    with_arg(bare(alloc), option(alloc, "dir"))
}

fn persist_command<'a>(alloc: Global) -> Result<Command<'a>, AllocError>
    ensures { IfOk result (λ c. app_of c ≡ app_for Form.Persist) }
{
    let command = store_command(alloc)?;
    with_arg(command, flag(alloc, "rotate"))
}

fn make_command<'a>(alloc: Global) -> Result<Command<'a>, AllocError>
    ensures { IfOk result (λ c. app_of c ≡ app_for Form.Make) }
{
    let command = store_command(alloc)?;
    let command = with_arg(command, operand(alloc, "seed"))?;
    with_arg(command, operand(alloc, "count"))
}

fn serve_command<'a>(alloc: Global) -> Result<Command<'a>, AllocError>
    ensures { IfOk result (λ c. app_of c ≡ app_for Form.Serve) }
{
    let command = store_command(alloc)?;
    let command = with_arg(command, option(alloc, "listen"))?;
    let command = with_arg(command, option(alloc, "workers"))?;
    with_arg(command, option(alloc, "connections"))
}

/// The command that reads words of the form.
fn command<'a>(alloc: Global, form: Form) -> Result<Command<'a>, AllocError>
    ensures { IfOk result (λ c. app_of c ≡ app_for form) }
{
    match form {
        Form::Store => store_command(alloc),
        Form::Persist => persist_command(alloc),
        Form::Make => make_command(alloc),
        Form::Serve => serve_command(alloc),
    }
}

/// What the command of the form makes of the words.
fn parse<'a>(
    command: Command<'a>,
    _form: Form,
    words: &'a [&'a str],
) -> Result<ArgMatches<'a>, Error>
    requires app { app_of command ≡ app_for _form }
    requires utf8 { All IsUtf8 (map (λ w. w.now) words.now) }
    ensures given { IfOk result (Gives _form (drop 1 (map (λ w. w.now) words.now))) }
    ensures refused { IfErr result (λ e. (kind_of e ≡ ErrorKind.OutOfMemory → ⊥)
        → given_by _form (drop 1 (map (λ w. w.now) words.now)) ≡ None) }
{
    command.try_get_matches_from(words)
}

/// What the words give behind the first.
pub(crate) fn given<'a>(
    alloc: Global,
    form: Form,
    words: &'a [&'a str],
) -> Result<ArgMatches<'a>, WordsFault>
    requires utf8 { All IsUtf8 (map (λ w. w.now) words.now) }
    ensures given { IfOk result (Gives form (drop 1 (map (λ w. w.now) words.now))) }
    ensures refused { IfErr result (λ fault. fault ≢ WordsFault.NoMemory
        → given_by form (drop 1 (map (λ w. w.now) words.now)) ≡ None) }
{
    match parse(command(alloc, form)?, form, words) {
        Ok(matches) => Ok(matches),
        Err(error) => {
            if error.kind() == ErrorKind::OutOfMemory {
                return Err(WordsFault::NoMemory);
            }
            Err(WordsFault::BadWords)
        }
    }
}
