ghost use Rattle.std.specs.Prelude.{◌≡◌, ◌≢◌, None, Some, IfOk, IfErr};
ghost use Rattle.fd_proto.specs.Raw.{raw_of};
ghost use Rattle.fd_pprof.specs.Conditions.{texts};
ghost use Rattle.fd_pprof.specs.Profile.{is_compressed, messages_refusal};
ghost use Rattle.fd_pprof.specs.Profile.{profile_refusal, profile_of};
ghost use Rattle.fd_pprof.specs.declared.fault.ProfileFault.TheVariants.{NoMemory};

use crate::catalog::Catalog;
use crate::checks::plain_refusal;
use crate::fault::of_messages;
use crate::sizes::has_deep_stack;
use crate::tables::Tables;
use crate::texts::{has_long_text, texts_of};
use crate::{Profile, ProfileFault, Survey};
use fd_proto::{Raw, read};
use std::alloc::Global;

/// Whether the bytes begin as gzip does.
fn is_compressed(bytes: &[u8]) -> bool
    ensures { result ≡ is_compressed bytes.now }
{
    bytes.starts_with(&[0x1f, 0x8b])
}

#[tactic(auto, using(crate::proofs::Refusals::refusals))]
/// The tables of a profile without a refusal.
fn tables_of(alloc: Global, bytes: &[u8], raw: Raw) -> Result<Tables, ProfileFault>
    ensures none { IfOk result (λ tables. messages_refusal bytes.now raw ≡ None) }
    ensures raw { IfOk result (λ tables. tables.catalog.raw ≡ raw) }
    ensures texts { IfOk result (λ tables. tables.texts ≡ texts bytes.now raw) }
    ensures err { IfErr result (λ e. e ≢ NoMemory → messages_refusal bytes.now raw ≡ Some e) }
{
    let catalog = Catalog::of(alloc, raw)?;
    if let Some(fault) = plain_refusal(bytes, &catalog) {
        return Err(fault);
    }
    let Some(texts) = texts_of(alloc, bytes, catalog.raw.texts.as_slice())? else {
        return Err(ProfileFault::NotUtf8);
    };
    let tables = Tables::of(alloc, catalog, texts)?;
    if has_deep_stack(&tables) {
        return Err(ProfileFault::TooDeep);
    }
    if has_long_text(&tables.texts) {
        return Err(ProfileFault::LongText);
    }
    Ok(tables)
}

#[tactic(auto, unfolding(crate::specs::Profile::profile_refusal, crate::specs::Profile::profile_of))]
/// The profile that the bytes spell, by pprof's `profile.proto` in the wire format of Protocol
/// Buffers, uncompressed. Nothing of it is built yet.
pub fn survey(alloc: Global, bytes: &[u8]) -> Result<Survey, ProfileFault>
    ensures ok { IfOk result (λ s.
        (profile_refusal bytes.now ≡ None) × (s ≡ profile_of bytes.now)) }
    ensures err { IfErr result (λ e. e ≢ NoMemory → profile_refusal bytes.now ≡ Some e) }
{
    if is_compressed(bytes) {
        return Err(ProfileFault::Compressed);
    }
    let raw = match read(alloc, bytes) {
        Ok(raw) => raw,
        Err(fault) => return Err(of_messages(fault)),
    };
    let tables = tables_of(alloc, bytes, raw)?;
    Ok(Survey::of(tables))
}

/// The profile that the bytes spell, by pprof's `profile.proto` in the wire format of Protocol
/// Buffers, uncompressed.
pub fn read_profile(alloc: Global, bytes: &[u8]) -> Result<Profile, ProfileFault>
    ensures ok { IfOk result (λ p.
        (profile_refusal bytes.now ≡ None) × (p ≡ profile_of bytes.now)) }
    ensures err { IfErr result (λ e. e ≢ NoMemory → profile_refusal bytes.now ≡ Some e) }
{
    let survey = survey(alloc, bytes)?;
    Ok(survey.profile(alloc)?)
}
