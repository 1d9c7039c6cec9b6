ghost use Rattle.std.specs.Prelude.{◌≡◌, ◌++◌, ◌<◌, ◌^◌, ◌↔◌, IsTrue, List, ℕ, map, length, IfOk, OnOk, Ok};
ghost use Rattle.std.specs.Int.{w32};
ghost use Rattle.std.specs.declared.cmp.Ordering as Ordering;
ghost use Rattle.fd_lists.specs.Texts.{text_cmp};
ghost use Rattle.fd_pages.specs.Columns.{sized};
ghost use Rattle.fd_pages.specs.Dictionaries.{dictionary_body};
ghost use Rattle.fd_pages.specs.Pages.{SeenGives};
ghost use Rattle.fd_pages.specs.Reader.{Decodes, fixed_width_at, sized_at};
ghost use Rattle.fd_codes.specs.Texts.{AreTexts, Rises};

use fd_lists::{Bytes, Items, NoMemory};
use fd_pages::PageFault;
use std::alloc::Global;
use std::cmp::Ordering;

/// Texts in the bytes that they are read from.
pub type TextSlices<'a> = Items<&'a [u8]>;

/// Adds bytes with their length before them.
pub(crate) fn put_sized(out: &mut Bytes, bytes: &[u8]) -> Result<(), NoMemory>
    requires { length bytes.now < 2 ^ 32 }
    ensures { OnOk result (out.new ≡ out.old ++ sized bytes.now) }
{
    out.extend(&(bytes.len() as u32).to_le_bytes())?;
    out.extend(bytes)
}

/// Adds texts with their lengths before them.
pub(crate) fn put_texts(out: &mut Bytes, texts: &[&[u8]]) -> Result<(), NoMemory>
    requires { length (dictionary_body (map (λ t. t.now) texts.now)) < 2 ^ 32 }
    ensures { OnOk result (out.new ≡ out.old ++ dictionary_body (map (λ t. t.now) texts.now)) }
{
    for text in texts {
        put_sized(out, text)?;
    }
    Ok(())
}

/// The number in the first four bytes, the lowest first, and the bytes behind them.
fn u32_at(bytes: &[u8]) -> Result<(u32, &[u8]), PageFault>
    ensures { Decodes (λ x. (x.0, x.1.now)) result (fixed_width_at w32 bytes.now) }
{
    if bytes.len() < 4 {
        return Err(PageFault::BadPage);
    }
    let (front, rest) = bytes.split_at(4);
    let number = u32::from_le_bytes([front[0], front[1], front[2], front[3]]);
    Ok((number, rest))
}

/// The bytes that stand behind their length, and those behind them.
#[tactic(auto, unfolding(fd_pages::specs::Reader::sized_at))]
pub(crate) fn sized_of(bytes: &[u8]) -> Result<(&[u8], &[u8]), PageFault>
    ensures { Decodes (λ x. (x.0.now, x.1.now)) result (sized_at bytes.now) }
{
    let (size, rest) = u32_at(bytes)?;
    let size = size as usize;
    if rest.len() < size {
        return Err(PageFault::BadPage);
    }
    Ok(rest.split_at(size))
}

/// Whether a text is below another.
fn is_below(text: &[u8], other: &[u8]) -> bool
    ensures { IsTrue result ↔ (text_cmp text.now other.now ≡ Ordering.Less) }
{
    matches!(text.cmp(other), Ordering::Less)
}

/// Whether a text is above the last of the others.
fn rises(texts: &[&[u8]], text: &[u8]) -> bool
    ensures { IsTrue result ↔ Rises (map (λ t. t.now) texts.now) text.now }
{
    match texts.last() {
        Some(last) => is_below(last, text),
        None => true,
    }
}

/// The rising texts that all of the bytes spell, of which there are `count`.
pub(crate) fn texts_in<'a>(
    alloc: Global,
    count: usize,
    bytes: &'a [u8],
) -> Result<TextSlices<'a>, PageFault>
    ensures found { IfOk result (λ r. AreTexts count (map (λ t. t.now) r) bytes.now) }
    ensures only { (texts : List (List ℕ)) → AreTexts count texts bytes.now
        → SeenGives {Y = List (List ℕ)} (map (λ t. t.now)) result (Ok texts) }
{
    let mut texts = Items::new(alloc);
    let mut rest = bytes;
    for _ in 0..count {
        let (text, behind) = sized_of(rest)?;
        if !rises(texts.as_slice(), text) {
            return Err(PageFault::BadPage);
        }
        texts.push(text)?;
        rest = behind;
    }
    if !rest.is_empty() {
        return Err(PageFault::BadPage);
    }
    Ok(texts)
}
