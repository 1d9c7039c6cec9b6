ghost use Rattle.std.specs.Prelude.{◌≡◌, ℕ, List, Bool, [], ◌∷◌, MatchOption, codes, if◌then◌else◌};
ghost use Rattle.fd_select.specs.SelectorTexts.{parts_of};
ghost use Rattle.fd_select.specs.Outcomes.{ReadsKind};

use crate::SelectFault;
use fd_kinds::{ProfileType, Text};
use std::alloc::Global;

/// The text before the first `:` and behind it, none where there is no `:`.
fn next_part(text: &str) -> Option<(&str, &str)>
    ensures { MatchOption result (parts_of text.now ≡ text.now ∷ [])
        (λ cut. parts_of text.now ≡ cut.0.now ∷ parts_of cut.1.now) }
{
    text.split_once(':')
}

/// The last part or two: a unit, and whether `delta` stands behind it.
fn unit_part(text: &str) -> Option<(&str, bool)>
    ensures { MatchOption result
        ((unit : List ℕ) (delta : Bool)
        → parts_of text.now ≡ unit ∷ (if delta then codes "delta" ∷ [] else []) → ⊥)
        (λ last. parts_of text.now ≡ last.0.now ∷ (if last.1 then codes "delta" ∷ [] else [])) }
{
    let Some((unit, last)) = next_part(text) else {
        return Some((text, false));
    };
    if last == "delta" {
        Some((unit, true))
    } else {
        None
    }
}

/// The profile type that a text without braces names.
pub(crate) fn read_kind(alloc: Global, text: &str) -> Result<ProfileType, SelectFault>
    ensures { ReadsKind text.now result }
{
    let Some((name, rest)) = next_part(text) else {
        return Err(SelectFault::BadType);
    };
    let Some((sample_type, rest)) = next_part(rest) else {
        return Err(SelectFault::BadType);
    };
    let Some((sample_unit, rest)) = next_part(rest) else {
        return Err(SelectFault::BadType);
    };
    let Some((period_type, rest)) = next_part(rest) else {
        return Err(SelectFault::BadType);
    };
    let Some((period_unit, delta)) = unit_part(rest) else {
        return Err(SelectFault::BadType);
    };
    Ok(ProfileType {
        name: Text::of(alloc, name)?,
        sample_type: Text::of(alloc, sample_type)?,
        sample_unit: Text::of(alloc, sample_unit)?,
        period_type: Text::of(alloc, period_type)?,
        period_unit: Text::of(alloc, period_unit)?,
        delta,
    })
}
