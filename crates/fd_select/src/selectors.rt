ghost use Rattle.std.specs.Prelude.{◌≡◌, ◌≢◌, ℕ, List, [], ◌∷◌, ◌++◌, ◌⊎◌, Result, MatchOption, IfOk, IfErr};
ghost use Rattle.fd_kinds.specs.declared.query.Selector.{Selector as Chosen};
ghost use Rattle.fd_select.specs.declared.faults.SelectFault.{SelectFault as Fault};
ghost use Rattle.fd_select.specs.SelectorTexts.{type_part, IsSelectorText, HasSelectFault};
ghost use Rattle.fd_select.specs.Outcomes.{OpensAt, Meets};

use crate::SelectFault;
use crate::braces::{BracesFault, read_braces};
use crate::kind::read_kind;
use fd_kinds::{Items, Selector};
use std::alloc::Global;

/// The text before the first `{` and behind it, none where there is no `{`.
fn open_brace(text: &str) -> Option<(&str, &str)>
    ensures { MatchOption result (type_part text.now ≡ text.now)
        (λ cut. OpensAt text.now cut.0.now cut.1.now) }
{
    text.split_once('{')
}

/// The selector of a text with these parts before and behind its first `{`.
fn with_braces(alloc: Global, front: &str, rest: &str) -> Result<Selector, SelectFault>
    requires { type_part front.now ≡ front.now }
    ensures { Meets (front.now ++ 123 ∷ rest.now) result }
{
    let kind = match read_kind(alloc, front) {
        Ok(kind) => kind,
        Err(fault) => return Err(fault),
    };
    match read_braces(alloc, rest) {
        Ok(matchers) => Ok(Selector { kind, matchers }),
        Err(BracesFault::Stops(at)) => Err(SelectFault::BadMatcher {
            at: front.len() + 1 + at,
        }),
        Err(BracesFault::NoMemory) => Err(SelectFault::NoMemory),
    }
}

fn without_braces(alloc: Global, text: &str) -> Result<Selector, SelectFault>
    requires { type_part text.now ≡ text.now }
    ensures { Meets text.now result }
{
    match read_kind(alloc, text) {
        Ok(kind) => Ok(Selector {
            kind,
            matchers: Items::new(alloc),
        }),
        Err(fault) => Err(fault),
    }
}

fn read_selector(alloc: Global, text: &str) -> Result<Selector, SelectFault>
    ensures { Meets text.now result }
{
    match open_brace(text) {
        Some((front, rest)) => with_braces(alloc, front, rest),
        None => without_braces(alloc, text),
    }
}

/// The selector that a text spells: name, sample type and unit, period type and unit, with `:`
/// between them and `:delta` behind them for profiles with a duration; then, in braces or left
/// out, matchers of labels, as `process_cpu:cpu:nanoseconds:cpu:nanoseconds{job="api", env!=""}`.
pub fn selector(alloc: Global, text: &str) -> Result<Selector, SelectFault>
    ensures selected { IfOk result (λ s. IsSelectorText text.now s) }
    ensures refused { IfErr result (λ fault.
        fault ≢ SelectFault.NoMemory → HasSelectFault text.now fault) }
    // The converse, unless memory is short.
    ensures selects { (s : Chosen) → IsSelectorText text.now s
        → (result ≡ Ok s) ⊎ (result ≡ Err SelectFault.NoMemory) }
    ensures refuses { (fault : Fault) → HasSelectFault text.now fault
        → (result ≡ Err fault) ⊎ (result ≡ Err SelectFault.NoMemory) }
{
    read_selector(alloc, text)
}

/// A text spells at most one selector, none where it is refused, and is refused in one way.
#[tactic(auto, using(crate::proofs::Meetings::selector_facts))]
pub fn selector_laws()
    ensures one_selector { (text : List ℕ) (a b : Chosen)
        → IsSelectorText text a → IsSelectorText text b → a ≡ b }
    ensures one_refusal { (text : List ℕ) (a b : Fault)
        → HasSelectFault text a → HasSelectFault text b → a ≡ b }
    ensures apart { (text : List ℕ) (s : Chosen) (fault : Fault)
        → IsSelectorText text s → HasSelectFault text fault → ⊥ }
{}
