//! Runs a session whose input ends inside its second request: the first one is answered.
#![tactic(auto)]

use fd_program::program;
use std::process::ExitCode;

fn main(rt: HostRuntime) -> ExitCode {
    program(&rt, rt.stdin(), rt.stdout(), rt.stderr())
}
