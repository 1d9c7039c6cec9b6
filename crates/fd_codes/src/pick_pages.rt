ghost use Rattle.std.specs.Prelude.{◌≡◌, ◌++◌, ◌<◌, ◌≤◌, ◌^◌, ℕ, true, false, Bool, List, length, map, All, IfOk, OnOk, OnErr, Ok, Err};
ghost use Rattle.fd_pages.specs.declared.cell.Cell.{Cell as AnyCell};
ghost use Rattle.fd_pages.specs.declared.cell.TheConstants.{MAX_ROWS};
ghost use Rattle.fd_pages.specs.Pages.{Gives, SeenGives};
ghost use Rattle.fd_codes.specs.Picks.{picked_cells, present, spread, IsPick};
ghost use Rattle.fd_codes.specs.Codes.{AddsIndexes, AddsLevels, ArePicks, AreSpread, HasBody, IsPickBody};
ghost use Rattle.fd_codes.specs.Places.{Stands, Fronts, Adds, IsCodePageOf, IsCodePageAt, HasCodePage, IsPickPage};

use crate::Picks;
use crate::header::{header, header_of};
use crate::page_type::PageType;
use crate::picks::{indexes_of, levels_of, picks_in, present_in, spread_of};
use crate::runs::{runs_of, values_in};
use crate::texts::{put_sized, sized_of};
use crate::width::width_of;
use fd_lists::{Bytes, NoMemory};
use fd_pages::{MAX_ROWS, PageFault};
use std::alloc::Global;

/// Adds the indexes of the cells that are there, of so many texts: their width, and their runs.
fn put_indexes(out: &mut Bytes, picks: &[u32], required: bool, size: usize) -> Result<(), NoMemory>
    requires few { length picks.now ≤ MAX_ROWS }
    requires within { All (IsPick required size) picks.now }
    requires small { size < 2 ^ 31 }
    ensures { OnOk result (AddsIndexes size picks.now out.old out.new) }
{
    let width = width_of(size);
    let indexes = indexes_of(out.allocator(), picks)?;
    let runs = runs_of(out.allocator(), indexes.as_slice(), width)?;
    out.push(width)?;
    out.extend(runs.as_slice())
}

/// Adds the definition levels, with the length of their runs before them.
fn put_levels(out: &mut Bytes, picks: &[u32]) -> Result<(), NoMemory>
    requires few { length picks.now ≤ MAX_ROWS }
    ensures { OnOk result (AddsLevels picks.now out.old out.new) }
{
    let levels = levels_of(out.allocator(), picks)?;
    let runs = runs_of(out.allocator(), levels.as_slice(), 1)?;
    put_sized(out, runs.as_slice())
}

/// The body of a page of a required column.
fn required_body(alloc: Global, picks: &[u32], size: usize) -> Result<Bytes, NoMemory>
    requires few { length picks.now ≤ MAX_ROWS }
    requires within { All (IsPick true size) picks.now }
    requires small { size < 2 ^ 31 }
    ensures spelled { IfOk result
        (λ body. IsPickBody true size (length picks.now) body picks.now) }
    ensures short { IfOk result (λ body. length body < 2 ^ 31) }
{
    let mut out = Bytes::new(alloc);
    put_indexes(&mut out, picks, true, size)?;
    Ok(out)
}

/// The body of a page of an optional column.
fn optional_body(alloc: Global, picks: &[u32], size: usize) -> Result<Bytes, NoMemory>
    requires few { length picks.now ≤ MAX_ROWS }
    requires within { All (IsPick false size) picks.now }
    requires small { size < 2 ^ 31 }
    ensures spelled { IfOk result
        (λ body. IsPickBody false size (length picks.now) body picks.now) }
    ensures short { IfOk result (λ body. length body < 2 ^ 31) }
{
    let mut out = Bytes::new(alloc);
    put_levels(&mut out, picks)?;
    put_indexes(&mut out, picks, false, size)?;
    Ok(out)
}

/// The body of a page of these picks.
fn body(alloc: Global, picks: &[u32], required: bool, size: usize) -> Result<Bytes, NoMemory>
    requires few { length picks.now ≤ MAX_ROWS }
    requires within { All (IsPick required size) picks.now }
    requires small { size < 2 ^ 31 }
    ensures spelled { IfOk result
        (λ body. IsPickBody required size (length picks.now) body picks.now) }
    ensures short { IfOk result (λ body. length body < 2 ^ 31) }
{
    if required {
        required_body(alloc, picks, size)
    } else {
        optional_body(alloc, picks, size)
    }
}

/// The page of these picks.
fn page(alloc: Global, picks: &[u32], required: bool, size: usize) -> Result<Bytes, NoMemory>
    requires some { 0 < length picks.now }
    requires few { length picks.now ≤ MAX_ROWS }
    requires within { All (IsPick required size) picks.now }
    requires small { size < 2 ^ 31 }
    ensures { IfOk result (IsPickPage required size (length picks.now) picks.now) }
{
    let body = body(alloc, picks, required, size)?;
    let mut page = header(alloc, PageType::Codes, picks.len(), body.len())?;
    page.extend(body.as_slice())?;
    Ok(page)
}

/// Adds the page of these picks, with indexes of a dictionary of `size` texts (Apache Parquet,
/// `Encodings.md`, "Dictionary Encoding"). A page has at most 1,000 cells. Where memory is wanting,
/// `out` stays as it was.
pub fn write_picks(
    picks: &[u32],
    required: bool,
    size: usize,
    out: &mut Bytes,
) -> Result<(), NoMemory>
    requires some { 0 < length picks.now }
    requires few { length picks.now ≤ MAX_ROWS }
    requires within { All (IsPick required size) picks.now }
    requires small { size < 2 ^ 31 }
    ensures ok { OnOk result
        (Adds (IsPickPage required size (length picks.now) picks.now) out.old out.new) }
    ensures err { OnErr result (out.new ≡ out.old) }
{
    let page = page(out.allocator(), picks, required, size)?;
    out.extend(page.as_slice())
}

/// The picks of cells with these levels, of which those that are there have indexes that all of the
/// bytes spell.
fn leveled_picks(
    alloc: Global,
    levels: &[u32],
    bytes: &[u8],
    size: usize,
) -> Result<Picks, PageFault>
    requires { size < 2 ^ 31 }
    ensures found { IfOk result (AreSpread size levels.now bytes.now) }
    ensures only { (there : List ℕ) → ArePicks size (present levels.now) bytes.now there
        → Gives result (Ok (spread levels.now there)) }
{
    let picks = picks_in(alloc, bytes, size, present_in(levels))?;
    Ok(spread_of(alloc, levels, picks.as_slice())?)
}

/// The picks of the `count` cells of an optional column whose page has this body.
fn optional_picks(alloc: Global, body: &[u8], size: usize, count: usize) -> Result<Picks, PageFault>
    requires few { count ≤ MAX_ROWS }
    requires small { size < 2 ^ 31 }
    requires short { length body.now < 2 ^ 31 }
    ensures found { IfOk result (IsPickBody false size count body.now) }
    ensures only { (texts : List (List ℕ)) (cells : List AnyCell) → length texts ≡ size
        → HasBody false texts count body.now cells
        → SeenGives {Y = List AnyCell} (picked_cells texts) result (Ok cells) }
{
    let (runs, bytes) = sized_of(body)?;
    let levels = values_in(alloc, runs, 1, count)?;
    leveled_picks(alloc, levels.as_slice(), bytes, size)
}

/// The picks of the `count` cells of a required column whose page has this body.
fn required_picks(alloc: Global, body: &[u8], size: usize, count: usize) -> Result<Picks, PageFault>
    requires small { size < 2 ^ 31 }
    ensures found { IfOk result (IsPickBody true size count body.now) }
    ensures only { (texts : List (List ℕ)) (cells : List AnyCell) → length texts ≡ size
        → HasBody true texts count body.now cells
        → SeenGives {Y = List AnyCell} (picked_cells texts) result (Ok cells) }
{
    picks_in(alloc, body, size, count)
}

/// The picks of the `count` cells of a column whose page has this body.
fn body_picks(
    alloc: Global,
    body: &[u8],
    size: usize,
    required: bool,
    count: usize,
) -> Result<Picks, PageFault>
    requires few { count ≤ MAX_ROWS }
    requires small { size < 2 ^ 31 }
    requires short { length body.now < 2 ^ 31 }
    ensures found { IfOk result (IsPickBody required size count body.now) }
    ensures only { (texts : List (List ℕ)) (cells : List AnyCell) → length texts ≡ size
        → HasBody required texts count body.now cells
        → SeenGives {Y = List AnyCell} (picked_cells texts) result (Ok cells) }
{
    if required {
        required_picks(alloc, body, size, count)
    } else {
        optional_picks(alloc, body, size, count)
    }
}

/// The picks of the page of `count` cells that stands in front of the bytes, and the bytes behind
/// it.
fn first_picks<'a>(
    alloc: Global,
    bytes: &'a [u8],
    size: usize,
    required: bool,
    count: usize,
) -> Result<(Picks, &'a [u8]), PageFault>
    requires { size < 2 ^ 31 }
    ensures found { IfOk result
        (λ r. Fronts (IsPickPage required size count r.0) bytes.now r.1.now) }
    ensures only { (texts : List (List ℕ)) (cells : List AnyCell) (rest : List ℕ)
        → length texts ≡ size → Fronts (IsCodePageOf required texts count cells) bytes.now rest
        → SeenGives {Y = List AnyCell × List ℕ} (λ r. (picked_cells texts r.0, r.1.now)) result
        (Ok (cells, rest)) }
{
    if count == 0 || count > MAX_ROWS {
        return Err(PageFault::BadPage);
    }
    let ((counted, length), rest) = header_of(alloc, PageType::Codes, bytes)?;
    if counted != count {
        return Err(PageFault::BadPage);
    }
    if rest.len() < length {
        return Err(PageFault::BadPage);
    }
    let (body, rest) = rest.split_at(length);
    let picks = body_picks(alloc, body, size, required, count)?;
    Ok((picks, rest))
}

/// Reads the page of `count` cells with indexes of a dictionary of `size` texts that stands at the
/// place `at`, and the place behind it, as `write_picks` writes it. Other bytes may follow there.
/// Places count bytes. No count or length that the bytes claim makes it take memory.
pub fn read_picks(
    alloc: Global,
    bytes: &[u8],
    at: usize,
    size: usize,
    required: bool,
    count: usize,
) -> Result<(Picks, usize), PageFault>
    requires within { at ≤ length bytes.now }
    requires small { size < 2 ^ 31 }
    // What is read is spelled so.
    ensures found { IfOk result
        (λ r. Stands (IsPickPage required size count r.0) bytes.now at r.1) }
    // What is spelled so is read, unless memory runs out.
    ensures only { (texts : List (List ℕ)) (cells : List AnyCell) (end : ℕ) → length texts ≡ size
        → IsCodePageAt required texts count bytes.now at cells end
        → SeenGives {Y = List AnyCell × ℕ} (λ r. (picked_cells texts r.0, r.1)) result
        (Ok (cells, end)) }
    // A page is bad exactly where there is none.
    ensures bad { (texts : List (List ℕ)) → length texts ≡ size → result ≡ Err PageFault.BadPage
        → ¬ HasCodePage required texts count bytes.now at }
    ensures bad_only { (texts : List (List ℕ)) → length texts ≡ size
        → (¬ HasCodePage required texts count bytes.now at)
        → Gives result (Err PageFault.BadPage) }
{
    let (picks, rest) = first_picks(alloc, &bytes[at..], size, required, count)?;
    Ok((picks, bytes.len() - rest.len()))
}
