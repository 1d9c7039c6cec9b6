ghost use Rattle.std.specs.Prelude.{◌≡◌, ◌≢◌, ℕ, List, [], ◌∷◌, ◌++◌, not, filter};
ghost use Rattle.std.specs.Prelude.{None, Some, IfOk, IfErr};
ghost use Rattle.std.specs.List.{list_all};
ghost use Rattle.std.specs.Option.{option_or, option_map};
ghost use Rattle.std.specs.BTreeSet.{contains};
ghost use Rattle.fd_kinds.specs.declared.pair.Pair.{Pair};
ghost use Rattle.fd_lists.specs.Texts.{text_cmp};
ghost use Rattle.fd_rows.specs.Labels.{is_long, own_refusal, has_label, label_refusal};
ghost use Rattle.fd_rows.specs.Labels.{is_name, series_name};
ghost use Rattle.fd_rows.specs.Rows.{series_of};
ghost use Rattle.fd_rows.specs.Body.{labels_refusal, name_refusal};

use crate::limits::MOST_LABEL_BYTES;
use crate::series::Series;
use crate::{BatchFault, LabelFault};
use fd_kinds::{Items, Labels, NoMemory, Pair, Pairs, Share, Text, is_label_name};
use std::alloc::Global;
use std::collections::BTreeSet;

fn is_long(text: &Text) -> bool
    ensures { result ≡ is_long text.now }
{
    text.len() > MOST_LABEL_BYTES
}

/// Why a label is refused whose name and value alone are looked at.
fn own_fault(pair: &Pair) -> Option<LabelFault>
    ensures { result ≡ own_refusal pair.now }
{
    if !is_label_name(pair.name.as_bytes()) {
        return Some(LabelFault::BadLabelName);
    }
    if is_long(&pair.name) || is_long(&pair.value) {
        return Some(LabelFault::LongValue);
    }
    None
}

/// Why a label is refused behind the labels whose names are `seen`; its name is seen from then on.
fn label_fault(seen: &mut BTreeSet<Text>, pair: &Pair) -> Result<Option<LabelFault>, NoMemory>
    ensures fault { IfOk result (λ fault. (earlier : List Pair)
        → ((name : List ℕ) → contains text_cmp seen.old name ≡ has_label earlier name)
        → fault ≡ label_refusal earlier pair.now) }
    ensures seen { IfOk result (λ fault. fault ≡ None → (earlier : List Pair)
        → ((name : List ℕ) → contains text_cmp seen.old name ≡ has_label earlier name)
        → (name : List ℕ)
        → contains text_cmp seen.new name ≡ has_label (earlier ++ pair.now ∷ []) name) }
{
    if let Some(fault) = own_fault(pair) {
        return Ok(Some(fault));
    }
    if seen.insert(pair.name.share()?)? {
        Ok(None)
    } else {
        Ok(Some(LabelFault::RepeatedLabel))
    }
}

#[tactic(auto, using(crate::proofs::LabelSteps::label_steps))]
/// Tests the labels of a series in their order.
fn check_labels(alloc: Global, series: u64, pairs: &Pairs) -> Result<(), BatchFault>
    ensures ok { IfOk result (λ _. labels_refusal series [] pairs.now ≡ None) }
    ensures err { IfErr result (λ e. e ≢ BatchFault.NoMemory
        → labels_refusal series [] pairs.now ≡ Some e) }
{
    let mut seen = BTreeSet::new(alloc);
    for (i, pair) in pairs.as_slice().iter().enumerate() {
        if let Some(fault) = label_fault(&mut seen, pair)? {
            return Err(BatchFault::Label {
                series,
                label: i as u64,
                fault,
            });
        }
    }
    Ok(())
}

/// The label that names a series.
fn is_name(pair: &Pair) -> bool
    ensures { result ≡ is_name pair.now }
{
    pair.name.as_str() == "__name__"
}

/// The value of the label `__name__`, and empty where there is none.
fn name_of(alloc: Global, pairs: &Pairs) -> Result<Text, NoMemory>
    ensures { IfOk result (λ name. name ≡ series_name pairs.now) }
{
    for pair in pairs.as_slice() {
        if is_name(pair) {
            return pair.value.share();
        }
    }
    Ok(Text::new(alloc))
}

/// The labels besides `__name__`.
fn others(alloc: Global, pairs: &Pairs) -> Result<Pairs, NoMemory>
    ensures { IfOk result (λ others. others ≡ filter (λ p. not (is_name p)) pairs.now) }
{
    let mut kept = Items::new(alloc);
    for pair in pairs.as_slice() {
        if !is_name(pair) {
            kept.push(pair.share()?)?;
        }
    }
    Ok(kept)
}

#[tactic(auto, unfolding(crate::specs::Rows::series_of))]
/// The name and the labels of a series, tested.
pub(crate) fn checked(alloc: Global, at: u64, pairs: &Pairs) -> Result<Series, BatchFault>
    ensures labels { IfOk result (λ _. labels_refusal at [] pairs.now ≡ None) }
    ensures name { IfOk result (λ _. name_refusal at pairs.now ≡ None) }
    ensures ok { IfOk result (λ series. series ≡ series_of pairs.now) }
    ensures err { IfErr result (λ e. e ≢ BatchFault.NoMemory
        → option_or (labels_refusal at [] pairs.now) (name_refusal at pairs.now) ≡ Some e) }
{
    check_labels(alloc, at, pairs)?;
    let name = name_of(alloc, pairs)?;
    if name.is_empty() {
        return Err(BatchFault::NoName { series: at });
    }
    let labels = Labels::from_pairs(others(alloc, pairs)?)?;
    Ok(Series { name, labels })
}
