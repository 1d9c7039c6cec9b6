ghost use Rattle.std.specs.Prelude.{◌≡◌, ◌<◌, ◌≤◌, ◌^◌, ◌++◌, All, IfOk, OnOk, length};
ghost use Rattle.fd_table_file.specs.Files.{magic, IsSmall, IsFileOf};
ghost use Rattle.fd_kinds.specs.Parts.{IsWithin};
ghost use Rattle.std.specs.Int.{w32, to_le_bytes};
ghost use Rattle.fd_footer.specs.declared.footer.Pages.TheVariants.{Plain};
ghost use Rattle.fd_footer.specs.Footers.{footer_bytes, IsWritable};

use crate::chunks::add_chunks;
use fd_column::{ColumnPart, Columns};
use fd_footer::{Footer, Pages, write_footer};
use fd_kinds::{Bytes, NoMemory};
use fd_table_file::{MAGIC, chunks_are_placed, footer_of};
use std::alloc::Global;

/// Adds a footer, its length in four bytes, and the magic. A footer of 2^32 bytes or more wants
/// memory.
fn add_footer(alloc: Global, footer: &Footer, out: &mut Bytes) -> Result<(), NoMemory>
    requires { IsWritable footer.now }
    ensures added { OnOk result (out.new ≡ out.old ++ (footer_bytes footer.now
        ++ (to_le_bytes w32 (length (footer_bytes footer.now)) ++ magic))) }
    ensures short { OnOk result (length (footer_bytes footer.now) < 2 ^ 32) }
{
    let bytes = write_footer(alloc, footer)?;
    let Ok(length) = u32::try_from(bytes.len()) else {
        return Err(NoMemory);
    };
    out.extend(bytes.as_slice())?;
    out.extend(&length.to_le_bytes())?;
    out.extend(MAGIC)
}

/// Bytes in memory are fewer than 2^63.
fn are_few(bytes: &[u8])
    ensures { length bytes.now < 2 ^ 63 }
{
    let _length = bytes.len();
}

/// The file of a table whose numbers lie from `lo` to `hi`, with plain pages (`IsFileOf`). The rows
/// have fewer than `BLOCK_BYTES_LIMIT` bytes by `fd_kinds::row_bytes`. A footer of 2^32 bytes wants memory.
pub fn write_file(table: &ColumnPart, lo: u64, hi: u64) -> Result<Bytes, NoMemory>
    requires range { lo ≤ hi }
    requires below { hi < 2 ^ 63 }
    requires within { All (IsWithin lo hi) table.now }
    requires small { IsSmall table.now }
    ensures { IfOk result (λ bytes. IsFileOf Plain bytes table.now lo hi) }
{
    chunks_are_placed();
    table.in_order();
    let alloc = table.names().allocator();
    let mut out = Bytes::from_slice(alloc, MAGIC)?;
    let places = add_chunks(table, &mut out)?;
    are_few(out.as_slice());
    let footer = footer_of(alloc, Pages::Plain, table, lo, hi, places)?;
    add_footer(alloc, &footer, &mut out)?;
    Ok(out)
}
