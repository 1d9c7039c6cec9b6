ghost use Rattle.std.specs.Prelude.{◌≡◌, IfOk, decimal};
ghost use Rattle.fd_thrift.specs.View.{view, items_view};
ghost use Rattle.fd_thrift.specs.Values.{list};
ghost use Rattle.fd_thrift.specs.Format.{Spells};
ghost use Rattle.fd_footer.specs.Tables.{entry_value, entries_value, sequence, pages_name as name_of_pages};
ghost use Rattle.fd_footer.specs.Footers.{group_values, footer_value, footer_bytes, IsWritable};

use crate::chunks::group_tree;
use crate::field_ids::{
    FILE_CREATED_BY, FILE_KEY_VALUE_METADATA, FILE_NUM_ROWS, FILE_ROW_GROUPS, FILE_SCHEMA,
    FILE_VERSION, PAIR_KEY, PAIR_VALUE,
};
use crate::fields::{binary_field, list_field, struct_tree, whole32_field, whole64_field};
use crate::schema::schema_trees;
use crate::{Footer, Pages};
use fd_lists::{Bytes, NoMemory};
use fd_thrift::{Tree, Trees, write};
use std::alloc::Global;

/// The name of a file's kind.
fn pages_name(pages: Pages) -> &'static [u8]
    ensures { result.now ≡ name_of_pages pages }
{
    match pages {
        Pages::Plain => b"plain",
        Pages::Dict => b"dict",
    }
}

/// A key with its value.
fn entry_tree(alloc: Global, key: &[u8], value: &[u8]) -> Result<Tree, NoMemory>
    ensures { IfOk result (λ t. view t ≡ entry_value key.now value.now) }
{
    let key = binary_field(alloc, PAIR_KEY, key)?;
    let value = binary_field(alloc, PAIR_VALUE, value)?;
    Ok(struct_tree(vec![in alloc; key, value]?))
}

/// A key with a number in decimal.
fn number_entry_tree(alloc: Global, key: &[u8], number: u64) -> Result<Tree, NoMemory>
    ensures { IfOk result (λ t. view t ≡ entry_value key.now (decimal number)) }
{
    let text = format!(in alloc; "{number}")?;
    entry_tree(alloc, key, text.as_bytes())
}

/// The range of the rows' numbers and the kind of the pages.
fn entry_trees(alloc: Global, hi: u64, lo: u64, pages: Pages) -> Result<Trees, NoMemory>
    ensures { IfOk result (λ ts. list (items_view ts.items) ≡ entries_value hi lo pages) }
{
    let hi = number_entry_tree(alloc, b"hi", hi)?;
    let lo = number_entry_tree(alloc, b"lo", lo)?;
    let pages = entry_tree(alloc, b"pages", pages_name(pages))?;
    Ok(vec![in alloc; hi, lo, pages]?)
}

/// The group of all rows, where there are rows.
fn group_trees(alloc: Global, footer: &Footer) -> Result<Trees, NoMemory>
    requires { IsWritable footer.now }
    ensures { IfOk result (λ ts. list (items_view ts.items) ≡ sequence (group_values footer.now)) }
{
    if footer.rows == 0 {
        return Ok(Vec::new(alloc));
    }
    let group = group_tree(
        alloc,
        footer.pages,
        footer.rows,
        footer.columns.as_slice(),
        footer.chunks.as_slice(),
    )?;
    Ok(vec![in alloc; group]?)
}

/// The footer as a Thrift struct.
fn footer_tree(alloc: Global, footer: &Footer) -> Result<Tree, NoMemory>
    requires { IsWritable footer.now }
    ensures { IfOk result (λ t. view t ≡ footer_value footer.now) }
{
    let version = whole32_field(FILE_VERSION, 1);
    let schema = list_field(FILE_SCHEMA, schema_trees(alloc, footer.columns.as_slice())?);
    let rows = whole64_field(FILE_NUM_ROWS, footer.rows as i64);
    let groups = list_field(FILE_ROW_GROUPS, group_trees(alloc, footer)?);
    let entries = entry_trees(alloc, footer.hi, footer.lo, footer.pages)?;
    let entries = list_field(FILE_KEY_VALUE_METADATA, entries);
    let creator = binary_field(alloc, FILE_CREATED_BY, b"frostd")?;
    Ok(struct_tree(vec![in alloc; version, schema, rows, groups, entries, creator]?))
}

/// The one spelling of a footer (`parquet.thrift`, FileMetaData, by the Thrift compact protocol).
#[tactic(auto, using(crate::proofs::Legality::footer_is_legal), unfolding(crate::specs::Footers::footer_bytes))]
pub fn write_footer(alloc: Global, footer: &Footer) -> Result<Bytes, NoMemory>
    requires { IsWritable footer.now }
    ensures value { IfOk result (λ bytes. bytes ≡ footer_bytes footer.now) }
    ensures spelled { IfOk result (λ bytes. Spells bytes (footer_value footer.now)) }
{
    let tree = footer_tree(alloc, footer)?;
    match write(alloc, &tree) {
        Ok(bytes) => Ok(Bytes::from_vec(bytes.into_vec())),
        Err(_) => Err(NoMemory),
    }
}
