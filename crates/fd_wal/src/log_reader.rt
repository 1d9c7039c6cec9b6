ghost use Rattle.std.specs.Prelude.{◌≡◌, ◌↔◌, ◌-◌, ◌≤◌, ◌<◌, ℕ, List, length, true, IsTrue, IfOk, IfErr};
ghost use Rattle.fd_wal.specs.Frames.{Frame};
ghost use Rattle.fd_wal.specs.Logs.{IsOpen, IsLog, IsDamaged};
ghost use Rattle.fd_wal.specs.Replays.{IsReplayOf, AnswersLog, AnswersDamage, TellsDamage};

use crate::ReplayFault;
use crate::fault::ReadFault;
use crate::frame_reader::Gathered;
use fd_kinds::{Batches, Items};
use std::alloc::Global;

/// What the frames of a log tell.
#[derive(Debug, Drop)]
pub struct Replayed {
    pub batches: Batches,
    /// The last frame is a rotation, so that the next log follows.
    pub rotated: bool,
    /// The place of the closed gate, 0 where there is no byte.
    pub gate: u64,
}

/// Whether a gate is open: its byte is 1, and is not the last one.
fn is_open(rest: &[u8]) -> bool
    ensures value { IsTrue result ↔ IsOpen rest.now }
    ensures some { result ≡ true → 0 < length rest.now }
{
    matches!(rest, [1, _, ..])
}

/// The place in the bytes at which the rest stands.
fn place_of(bytes: &[u8], rest: &[u8]) -> u64
    requires { length rest.now ≤ length bytes.now }
    ensures { result ≡ length bytes.now - length rest.now }
{
    (bytes.len() - rest.len()) as u64
}

/// What the frames of the bytes tell, or the place where they are damaged.
fn read_frames(alloc: Global, bytes: &[u8], first: u64) -> Result<Replayed, ReplayFault>
    ensures ok { IfOk result (IsReplayOf bytes.now first) }
    ensures damaged { IfErr result (TellsDamage bytes.now first) }
{
    let mut gathered = Gathered::new(alloc, first);
    let mut rest = bytes;
    while is_open(rest) {
        rest = match gathered.frame(&rest[1..]) {
            Ok(behind) => behind,
            Err(ReadFault::Malformed) => {
                let at = place_of(bytes, rest);
                return Err(ReplayFault::Damaged { at });
            }
            Err(ReadFault::NoMemory) => return Err(ReplayFault::NoMemory),
        };
    }
    Ok(Replayed {
        batches: Items::from_vec(gathered.batches),
        rotated: gathered.rotated,
        gate: place_of(bytes, rest),
    })
}

/// Reads the log whose first batch has the number `first`. It takes memory in proportion to the
/// bytes.
pub fn replay(alloc: Global, bytes: &[u8], first: u64) -> Result<Replayed, ReplayFault>
    ensures ok { IfOk result (IsReplayOf bytes.now first) }
    ensures ok_only { (frames : List Frame) → (gate : ℕ)
        → IsLog bytes.now first frames gate → AnswersLog first frames gate result }
    ensures damaged { IfErr result (TellsDamage bytes.now first) }
    ensures damaged_only { (at : ℕ) → IsDamaged bytes.now first at → AnswersDamage at result }
{
    read_frames(alloc, bytes, first)
}
