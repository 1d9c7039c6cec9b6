ghost use Rattle.std.specs.Prelude.{◌≡◌, ◌++◌, ◌+◌, ◌<◌, ◌≤◌, ◌^◌, ℕ, List, length, slice_range, All, true, false, IfOk, OnOk, OnErr};
ghost use Rattle.fd_pages.specs.Columns.{IsOfColumn, Fits};
ghost use Rattle.fd_pages.specs.Pages.{IsBody, IsPage, AddsPage};
ghost use Rattle.fd_pages.specs.declared.cell.TheConstants.{MAX_ROWS};

use crate::header::header;
use crate::levels::level_runs;
use crate::values::{put_sized, put_values};
use crate::{Cell, CellKind, Cells};
use fd_lists::{Bytes, NoMemory};
use std::alloc::Global;

/// The body of a page of a required column.
fn required_body(alloc: Global, cells: &[Cell]) -> Result<Bytes, NoMemory>
    requires { (body : List ℕ) → IsBody true cells.now body → length body < 2 ^ 31 }
    ensures spelled { IfOk result (IsBody true cells.now) }
    ensures fit { OnOk result (All Fits cells.now) }
{
    let mut out = Bytes::new(alloc);
    put_values(&mut out, cells)?;
    Ok(out)
}

/// The body of a page of an optional column.
fn optional_body(alloc: Global, cells: &[Cell]) -> Result<Bytes, NoMemory>
    requires { (body : List ℕ) → IsBody false cells.now body → length body < 2 ^ 31 }
    ensures spelled { IfOk result (IsBody false cells.now) }
    ensures fit { OnOk result (All Fits cells.now) }
{
    let runs = level_runs(alloc, cells)?;
    let mut out = Bytes::new(alloc);
    put_sized(&mut out, runs.as_slice())?;
    put_values(&mut out, cells)?;
    Ok(out)
}

/// The body of a page.
fn body(alloc: Global, required: bool, cells: &[Cell]) -> Result<Bytes, NoMemory>
    requires { (body : List ℕ) → IsBody required cells.now body → length body < 2 ^ 31 }
    ensures spelled { IfOk result (IsBody required cells.now) }
    ensures fit { OnOk result (All Fits cells.now) }
{
    if required {
        required_body(alloc, cells)
    } else {
        optional_body(alloc, cells)
    }
}

/// The page of cells.
fn page(alloc: Global, kind: CellKind, required: bool, cells: &[Cell]) -> Result<Bytes, NoMemory>
    requires some { 0 < length cells.now }
    requires few { length cells.now ≤ MAX_ROWS }
    requires column { All (IsOfColumn kind required) cells.now }
    requires small { (body : List ℕ) → IsBody required cells.now body → length body < 2 ^ 31 }
    ensures { IfOk result (IsPage kind required cells.now) }
{
    let body = body(alloc, required, cells)?;
    let mut page = header(alloc, cells.len(), body.len())?;
    page.extend(body.as_slice())?;
    Ok(page)
}

/// Adds the page of the `count` cells from the place `from` on (Apache Parquet, `README.md`, "Data
/// Pages"): its header and its body, uncompressed. A page has at most 1,000 cells, and its body
/// fewer than 2^31 bytes. Where memory is wanting, `out` stays as it was.
pub fn write_page(cells: &Cells, from: usize, count: usize, out: &mut Bytes) -> Result<(), NoMemory>
    requires some { 0 < count }
    requires few { count ≤ MAX_ROWS }
    requires within { from + count ≤ length cells.now.cells }
    requires column { All (IsOfColumn cells.now.kind cells.now.required)
        (slice_range cells.now.cells from (from + count)) }
    requires small { (body : List ℕ)
        → IsBody cells.now.required (slice_range cells.now.cells from (from + count)) body
        → length body < 2 ^ 31 }
    ensures ok { OnOk result (AddsPage cells.now.kind cells.now.required
        (slice_range cells.now.cells from (from + count)) out.old out.new) }
    ensures err { OnErr result (out.new ≡ out.old) }
{
    let range = &cells.cells.as_slice()[from..from + count];
    let page = page(out.allocator(), cells.kind, cells.required, range)?;
    out.extend(page.as_slice())
}
