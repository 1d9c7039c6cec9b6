//! Runs a word that names no command: nothing is read and nothing is answered.
#![tactic(auto)]

use fd_program::program;
use std::process::ExitCode;

fn main(rt: HostRuntime) -> ExitCode {
    program(&rt, rt.stdin(), rt.stdout(), rt.stderr())
}
