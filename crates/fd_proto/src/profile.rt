ghost use Rattle.std.specs.Prelude.{◌≡◌, None, IfOk, IfErr};
ghost use Rattle.fd_proto.specs.Raw.{profile_flaw, raw_of};
ghost use Rattle.fd_proto.specs.Fault.{IsFlaw};

use crate::flaws::flaw;
use crate::message::Message;
use crate::reader::raw_of;
use crate::{ProtoFault, Raw};
use std::alloc::Global;

#[tactic(auto, unfolding(crate::specs::Raw::profile_flaw))]
/// The messages of the profile that all of the bytes spell, by pprof's `profile.proto`. Unknown
/// fields, and known fields with a wire type that they can't have, are skipped.
pub fn read(alloc: Global, bytes: &[u8]) -> Result<Raw, ProtoFault>
    ensures ok { IfOk result (λ raw. (profile_flaw bytes.now ≡ None) × (raw ≡ raw_of bytes.now)) }
    ensures err { IfErr result (IsFlaw (profile_flaw bytes.now)) }
{
    match flaw(alloc, bytes, Message::Profile, 0, bytes.len())? {
        Some(at) => Err(ProtoFault::Wire { at }),
        None => Ok(raw_of(alloc, bytes)?),
    }
}
