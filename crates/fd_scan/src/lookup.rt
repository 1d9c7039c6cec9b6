ghost use Rattle.std.specs.Prelude.{◌≡◌, ◌≢◌, true, false, Some, slice_get};
ghost use Rattle.fd_dictionary.specs.Dictionaries.{entries_of, entry_at, index_in};
ghost use Rattle.fd_scan.specs.RowPlaces.{is_entry};

use fd_column::Dictionary;

/// Whether the text is the one at a place among the distinct texts of a column.
fn is_entry_at(cells: &Dictionary, text: &[u8], at: usize) -> bool
    ensures yes { result ≡ true → slice_get (entries_of cells.now) at ≡ Some text.now }
    ensures no { result ≡ false → slice_get (entries_of cells.now) at ≢ Some text.now }
{
    match cells.entry(at) {
        Some(entry) => entry == text,
        None => false,
    }
}

/// The place of a text among the distinct texts of a column, none where it is not among them.
pub fn entry_of(cells: &Dictionary, text: &[u8]) -> Option<usize>
    ensures { result ≡ entry_at (entries_of cells.now) text.now }
{
    for at in 0..cells.entries() {
        if is_entry_at(cells, text, at) {
            return Some(at);
        }
    }
    None
}

/// Whether a cell has the text that is the wanted entry; an absent cell has the empty one.
pub fn is_entry(cells: &Dictionary, wanted: Option<usize>, empty: bool, at: usize) -> bool
    ensures { result ≡ is_entry wanted empty (index_in cells.now at) }
{
    match cells.index(at) {
        None => empty,
        Some(entry) => match wanted {
            None => false,
            Some(wanted) => wanted == entry,
        },
    }
}
