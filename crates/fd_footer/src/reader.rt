ghost use Rattle.std.specs.Prelude.{◌≡◌, ◌≢◌, ◌*◌, ◌≤◌, length, true, false, Ok, Err, Some, None, Option, IfOk, MatchOption};
ghost use Rattle.fd_thrift.specs.Values.{Value};
ghost use Rattle.fd_thrift.specs.View.{view};
ghost use Rattle.fd_thrift.specs.Format.{Spells};
ghost use Rattle.fd_footer.specs.Layout.{are_own};
ghost use Rattle.fd_footer.specs.Shapes.{has_shape as has_footer_shape};
ghost use Rattle.fd_footer.specs.Contents.{table_of as table_of_value};
ghost use Rattle.fd_footer.specs.Reader.{AnswersTable};

use crate::columns::schema_columns;
use crate::field_ids::{FILE_KEY_VALUE_METADATA, FILE_NUM_ROWS, FILE_SCHEMA};
use crate::key_values::read_entries;
use crate::lookup::{number, trees};
use crate::shape::has_shape;
use crate::{FooterFault, FooterTable};
use fd_lists::NoMemory;
use fd_thrift::{ThriftFault, Tree, read};
use std::alloc::Global;

/// What a fault of a tree is to a footer.
fn fault_of(fault: ThriftFault) -> FooterFault
    ensures refused { result ≡ FooterFault.Footer → fault ≢ ThriftFault.NoMemory }
    ensures other { result ≢ FooterFault.Schema }
{
    match fault {
        ThriftFault::NoMemory => FooterFault::NoMemory,
        _ => FooterFault::Footer,
    }
}

/// The tree that the bytes spell, all of them.
fn whole_tree(alloc: Global, bytes: &[u8]) -> Result<Tree, FooterFault>
    ensures found { IfOk result (λ t. Spells bytes.now (view t)) }
    ensures one { IfOk result (λ t. (v : Value) → Spells bytes.now v → v ≡ view t) }
    ensures none { result ≡ Err FooterFault.Footer → (v : Value) → Spells bytes.now v → ⊥ }
    ensures other { result ≢ Err FooterFault.Schema }
{
    match read(alloc, bytes, 0, bytes.len()) {
        Ok((tree, end)) => {
            if end == bytes.len() {
                Ok(tree)
            } else {
                Err(FooterFault::Footer)
            }
        }
        Err(fault) => Err(fault_of(fault)),
    }
}

/// The table of a footer's tree, where its columns and entries are this project's.
#[tactic(auto, unfolding(crate::specs::Contents::table_of))]
fn table_of(alloc: Global, tree: &Tree) -> Result<Option<FooterTable>, NoMemory>
    ensures { IfOk result (λ table. table ≡ table_of_value (view tree.now)) }
{
    let Some(entries) = read_entries(trees(tree, FILE_KEY_VALUE_METADATA)) else {
        return Ok(None);
    };
    let Some(columns) = schema_columns(alloc, trees(tree, FILE_SCHEMA))? else {
        return Ok(None);
    };
    Ok(Some(FooterTable {
        pages: entries.pages,
        lo: entries.lo,
        hi: entries.hi,
        rows: number(tree, FILE_NUM_ROWS),
        columns,
    }))
}

/// The table of a tree, or the first thing that speaks against it.
fn tabled(alloc: Global, tree: &Tree) -> Result<FooterTable, FooterFault>
    ensures { AnswersTable (view tree.now) result }
{
    if !has_shape(tree) {
        return Err(FooterFault::Footer);
    }
    match table_of(alloc, tree)? {
        Some(table) => Ok(table),
        None => Err(FooterFault::Schema),
    }
}

/// What a footer tells of its file (`parquet.thrift`, FileMetaData, by the Thrift compact
/// protocol). The bytes are all of the footer. Of its values only the columns, the key-value
/// entries and the number of rows are looked at: a footer that is read may still be none that
/// `write_footer` writes.
pub fn read_footer(alloc: Global, bytes: &[u8]) -> Result<FooterTable, FooterFault>
    // What is read is the table of a footer that the bytes spell.
    ensures ok { IfOk result
        (λ table. (v : Value) × Spells bytes.now v × (has_footer_shape v ≡ true)
        × (table_of_value v ≡ Some table)) }
    // The columns are those of this project's files.
    ensures own { IfOk result (λ table. are_own table.columns ≡ true) }
    // Each column takes two bytes of the footer at least.
    ensures few { IfOk result (λ table. 2 * length table.columns ≤ length bytes.now) }
    // The bytes spell no footer.
    ensures footer { result ≡ Err FooterFault.Footer → (v : Value) → Spells bytes.now v
        → has_footer_shape v ≡ false }
    // The bytes spell a footer, which has no table.
    ensures schema { result ≡ Err FooterFault.Schema
        → (v : Value) × Spells bytes.now v × (has_footer_shape v ≡ true)
        × (table_of_value v ≡ None) }
    // A footer that the bytes spell is answered by its own table or fault, unless memory runs out.
    ensures only { (v : Value) → Spells bytes.now v → AnswersTable v result }
{
    let tree = whole_tree(alloc, bytes)?;
    tabled(alloc, &tree)
}
