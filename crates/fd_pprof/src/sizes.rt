ghost use Rattle.std.specs.Prelude.{◌≡◌, ◌+◌, ◌-◌, ◌^◌, ℕ, min, length, IfOk};
ghost use Rattle.std.specs.List.{list_any};
ghost use Rattle.fd_kinds.specs.RowSize.{text_size};
ghost use Rattle.fd_pprof.specs.Frames.{frame, location_frames, frames_of, stack};
ghost use Rattle.fd_pprof.specs.Sizes.{frames_size, location_sizes};
ghost use Rattle.fd_pprof.specs.Conditions.{is_too_deep};

use crate::catalog::Catalog;
use crate::frames::name_of;
use crate::limits::MOST_STACK_BYTES;
use crate::tables::Tables;
use fd_kinds::{Items, NoMemory, Texts};
use fd_proto::{RawLocation, RawSample};
use std::alloc::Global;

#[tactic(auto, using(crate::proofs::Hex::hex_text_size))]
/// `size` with the frame of a line that names the function `id`.
fn with_frame(size: u64, of: &Catalog, texts: &Texts, id: u64) -> u64
    ensures { (address : ℕ) → result
        ≡ min (size + text_size (frame texts.now of.now.raw address id)) (2 ^ 64 - 1) }
{
    if id == 0 {
        return size.saturating_add(22);
    }
    let more = match name_of(of, texts, id) {
        Some(name) => name.len() as u64,
        None => 0,
    };
    size.saturating_add(4).saturating_add(more)
}

#[tactic(auto, using(crate::proofs::Hex::hex_text_size, crate::proofs::SizeSteps::size_steps))]
/// The bytes of the frames of a location, each with four bytes more.
fn size_of(of: &Catalog, texts: &Texts, location: &RawLocation) -> u64
    ensures { result ≡ frames_size (location_frames texts.now of.now.raw location.now) }
{
    if location.lines.len() == 0 {
        return 22;
    }
    let mut size = 0;
    for id in location.lines.as_slice() {
        size = with_frame(size, of, texts, *id);
    }
    size
}

/// The bytes of the frames of each location.
pub(crate) fn sizes_of(alloc: Global, of: &Catalog, texts: &Texts) -> Result<Items<u64>, NoMemory>
    ensures { IfOk result (λ sizes. sizes ≡ location_sizes texts.now of.now.raw) }
{
    let mut sizes = Items::new(alloc);
    for location in of.raw.locations.as_slice() {
        sizes.push(size_of(of, texts, location))?;
    }
    Ok(sizes)
}

/// The bytes of the frames of the location with an id.
fn size_at(tables: &Tables, id: u64) -> u64
    ensures { result ≡ frames_size (frames_of tables.now.texts tables.now.catalog.raw id) }
{
    match tables.catalog.locations.place(id) {
        Some(at) => tables.sizes.get(at).copied().unwrap_or(0),
        None => 0,
    }
}

#[tactic(auto, using(crate::proofs::SizeSteps::size_steps))]
/// The bytes of the frames of a sample.
pub(crate) fn stack_size(tables: &Tables, sample: &RawSample) -> u64
    ensures { result ≡ frames_size (stack tables.now.texts tables.now.catalog.raw sample.now) }
{
    let mut size: u64 = 0;
    for id in sample.locations.as_slice() {
        size = size.saturating_add(size_at(tables, *id));
    }
    size
}

fn is_deep(tables: &Tables, sample: &RawSample) -> bool
    ensures { result ≡ is_too_deep (stack tables.now.texts tables.now.catalog.raw sample.now) }
{
    stack_size(tables, sample) > MOST_STACK_BYTES
}

/// The frames of some sample have too many bytes.
pub(crate) fn has_deep_stack(tables: &Tables) -> bool
    ensures { result ≡ list_any
        (λ s. is_too_deep (stack tables.now.texts tables.now.catalog.raw s))
        tables.now.catalog.raw.samples }
{
    tables
        .catalog
        .raw
        .samples
        .as_slice()
        .iter()
        .any(|s| is_deep(tables, s))
}
