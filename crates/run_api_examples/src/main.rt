//! Runs the session of the examples of the HTTP interface's document: its requests come in, and
//! the replies that the document names must come out.
#![tactic(auto)]

use fd_program::program;
use std::process::ExitCode;

fn main(rt: HostRuntime) -> ExitCode {
    program(&rt, rt.stdin(), rt.stdout(), rt.stderr())
}
