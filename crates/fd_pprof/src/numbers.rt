ghost use Rattle.std.specs.Prelude.{◌≡◌, ℕ, List, IfOk};
ghost use Rattle.std.specs.BTreeMap.{get};
ghost use Rattle.fd_lists.specs.Texts.{text_cmp};
ghost use Rattle.fd_pprof.specs.Winners.{place_from, text_numbers};

use fd_kinds::{Items, NoMemory, Share, Text, Texts};
use std::alloc::Global;
use std::collections::BTreeMap;

/// The first place of each text.
fn text_places(alloc: Global, texts: &[Text]) -> Result<BTreeMap<Text, usize>, NoMemory>
    ensures { IfOk result (λ places. (text : List ℕ)
        → get text_cmp places text ≡ place_from 0 texts.now text) }
{
    let mut places = BTreeMap::new(alloc);
    let mut i = texts.len();
    while i > 0 {
        i -= 1;
        places.insert(texts[i].share()?, i)?;
    }
    Ok(places)
}

/// A number for each text of the table; equal texts have the same.
pub(crate) fn numbers_of(alloc: Global, texts: &Texts) -> Result<Items<usize>, NoMemory>
    ensures { IfOk result (λ numbers. numbers ≡ text_numbers texts.now) }
{
    let places = text_places(alloc, texts.as_slice())?;
    let mut numbers = Items::new(alloc);
    for text in texts.as_slice() {
        numbers.push(places.get(text).copied().unwrap_or(0))?;
    }
    Ok(numbers)
}
