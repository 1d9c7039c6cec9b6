ghost use Rattle.std.specs.Prelude.{◌≡◌, ◌≢◌, ◌++◌, ◌+◌, ◌<◌, ◌^◌, ℕ, List, None, IfOk, IfErr, IfSome, MatchOption, length};
ghost use Rattle.std.specs.Int.{w32, to_le_bytes, from_le_bytes};
ghost use Rattle.fd_parquet.specs.Refusals.{HasMagic, Holds};
ghost use Rattle.fd_parquet.specs.Stages.{HasInner, HeldBy, IsFrameFault};

use crate::FileFault;
use fd_table_file::MAGIC;

/// What stands behind a prefix, none where the bytes begin with something else.
pub(crate) fn behind<'a>(bytes: &'a [u8], prefix: &[u8]) -> Option<&'a [u8]>
    ensures { MatchOption result ((rest : List ℕ) → bytes.now ≢ prefix.now ++ rest)
        (λ r. bytes.now ≡ prefix.now ++ r.now) }
{
    bytes.strip_prefix(prefix)
}

/// What stands before a suffix, none where the bytes end with something else.
fn before<'a>(bytes: &'a [u8], suffix: &[u8]) -> Option<&'a [u8]>
    ensures { MatchOption result ((front : List ℕ) → bytes.now ≢ front ++ suffix.now)
        (λ r. bytes.now ≡ r.now ++ suffix.now) }
{
    bytes.strip_suffix(suffix)
}

#[tactic(auto, using(crate::proofs::MagicLaws::inner_there, crate::proofs::MagicLaws::no_first, crate::proofs::MagicLaws::no_last, crate::proofs::MagicLaws::too_short))]
/// What stands between the two magics, of four bytes at least.
fn inner(bytes: &[u8]) -> Option<&[u8]>
    ensures found { IfSome result (λ r. HasInner bytes.now r.now) }
    ensures none { result ≡ None → HasMagic bytes.now → ⊥ }
{
    let Some(rest) = behind(bytes, MAGIC) else {
        return None;
    };
    let Some(inner) = before(rest, MAGIC) else {
        return None;
    };
    if inner.len() < 4 {
        return None;
    }
    Some(inner)
}

/// The length that four bytes spell, the lowest first.
fn length_of(bytes: &[u8]) -> usize
    requires { length bytes.now ≡ 4 }
    ensures told { result ≡ from_le_bytes w32 bytes.now }
    ensures spelled { to_le_bytes w32 result ≡ bytes.now }
    ensures short { result < 2 ^ 32 }
{
    u32::from_le_bytes([bytes[0], bytes[1], bytes[2], bytes[3]]) as usize
}

/// The bytes of the chunks, and those of the footer.
pub(crate) fn parts_of(bytes: &[u8]) -> Result<(&[u8], &[u8]), FileFault>
    ensures found { IfOk result (λ r. Holds bytes.now r.0.now r.1.now) }
    ensures only { (body footer : List ℕ) → Holds bytes.now body footer
        → HeldBy (λ r. (r.0.now, r.1.now)) body footer result }
    ensures few { IfOk result (λ r. 4 + length r.0.now < 2 ^ 63) }
    ensures refused { IfErr result (IsFrameFault bytes.now) }
{
    let Some(inner) = inner(bytes) else {
        return Err(FileFault::Magic);
    };
    let (rest, tail) = inner.split_at(inner.len() - 4);
    let length = length_of(tail);
    if length > rest.len() {
        return Err(FileFault::Footer);
    }
    Ok(rest.split_at(rest.len() - length))
}
