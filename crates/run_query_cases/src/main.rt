//! Runs a session of many writes and queries of each kind: its requests come in, and the replies
//! that a plain list of rows gives must come out.
#![tactic(auto)]

use fd_program::program;
use std::process::ExitCode;

fn main(rt: HostRuntime) -> ExitCode {
    program(&rt, rt.stdin(), rt.stdout(), rt.stderr())
}
