ghost use Rattle.std.specs.Prelude.{◌≡◌, ◌+◌, ◌-◌, ◌^◌, ◌∷◌, List, map, min, length, sum_by, IfOk};
ghost use Rattle.fd_kinds.specs.declared.pair.Pair.{Pair};
ghost use Rattle.fd_kinds.specs.RowSize.{pair_size};
ghost use Rattle.fd_kinds.specs.LabelMaps.{is_kept};
ghost use Rattle.fd_kinds.specs.LabelsOf.{labels_of};
ghost use Rattle.fd_pprof.specs.Frames.{text};
ghost use Rattle.fd_pprof.specs.Profile.{pair_of, value_type_of};
ghost use Rattle.fd_pprof.specs.Sizes.{type_size};
ghost use Rattle.fd_pprof.specs.Winners.{wins, AreSeen, AreWinners};

use crate::tables::Tables;
use fd_kinds::{Items, NoMemory, Texts};
use fd_proto::{RawLabel, RawType};
use std::alloc::Global;
use std::collections::BTreeSet;

/// The bytes of the text of an index.
fn text_len(texts: &Texts, at: u64) -> usize
    ensures { result ≡ length (text texts.now at) }
{
    match texts.get(at as usize) {
        Some(text) => text.len(),
        None => 0,
    }
}

/// The bytes of both texts of a type.
pub(crate) fn type_size(texts: &Texts, raw: RawType) -> u64
    ensures { result ≡ type_size (value_type_of texts.now raw) }
{
    let kind = text_len(texts, raw.kind) as u64;
    let unit = text_len(texts, raw.unit) as u64;
    kind.saturating_add(unit)
}

/// A label with a key and a text.
fn is_kept(texts: &Texts, label: RawLabel) -> bool
    ensures { result ≡ is_kept (pair_of texts.now label) }
{
    text_len(texts, label.key) != 0 && text_len(texts, label.text) != 0
}

/// Whether a label counts in front of labels whose keys are `seen`; its key is seen from then on.
fn wins(seen: &mut BTreeSet<usize>, tables: &Tables, label: RawLabel) -> Result<bool, NoMemory>
    ensures wins { IfOk result (λ won. (behind : List Pair)
        → AreSeen tables.now.texts behind seen.old
        → won ≡ wins behind (pair_of tables.now.texts label)) }
    ensures seen { IfOk result (λ won. (behind : List Pair)
        → AreSeen tables.now.texts behind seen.old
        → AreSeen tables.now.texts (pair_of tables.now.texts label ∷ behind) seen.new) }
{
    if !is_kept(&tables.texts, label) {
        return Ok(false);
    }
    match tables.numbers.get(label.key as usize) {
        Some(number) => Ok(seen.insert(*number)?),
        None => Ok(false),
    }
}

/// The labels of a sample that count, from the last on.
pub(crate) fn winners(
    alloc: Global,
    tables: &Tables,
    raw: &[RawLabel],
) -> Result<Items<RawLabel>, NoMemory>
    ensures { IfOk result (λ labels. AreWinners
        (map (pair_of tables.now.texts) labels) (map (pair_of tables.now.texts) raw.now)) }
{
    let mut labels = Items::new(alloc);
    let mut seen = BTreeSet::new(alloc);
    let mut i = raw.len();
    while i > 0 {
        i -= 1;
        let counts = wins(&mut seen, tables, raw[i])?;
        if !counts {
            continue;
        }
        labels.push(raw[i])?;
    }
    Ok(labels)
}

fn with_label(size: u64, texts: &Texts, label: RawLabel) -> u64
    ensures { result ≡ min (size + pair_size (pair_of texts.now label)) (2 ^ 64 - 1) }
{
    let key = text_len(texts, label.key) as u64;
    let text = text_len(texts, label.text) as u64;
    size.saturating_add(8)
        .saturating_add(key)
        .saturating_add(text)
}

/// The bytes of the labels, each with four bytes more for its key and for its text.
fn size_of(texts: &Texts, labels: &[RawLabel]) -> u64
    ensures { result ≡ min (sum_by pair_size (map (pair_of texts.now) labels.now)) (2 ^ 64 - 1) }
{
    let mut size = 0;
    for label in labels {
        size = with_label(size, texts, *label);
    }
    size
}

/// The bytes of the labels of a sample.
pub(crate) fn labels_size(alloc: Global, tables: &Tables, raw: &[RawLabel]) -> Result<u64, NoMemory>
    ensures { IfOk result (λ n. n ≡ min
        (sum_by pair_size (labels_of (map (pair_of tables.now.texts) raw.now)).pairs)
        (2 ^ 64 - 1)) }
{
    let labels = winners(alloc, tables, raw)?;
    Ok(size_of(&tables.texts, labels.as_slice()))
}
