ghost use Rattle.std.specs.Prelude.{◌≡◌, ◌<◌, List, Some, None, IfOk, IfSome, All, IsUtf8, Decides};
ghost use Rattle.std.specs.Prelude.{is_some, length, slice_get, option_map};
ghost use Rattle.std.specs.Option.{option_copied};
ghost use Rattle.fd_kinds.specs.declared.row.Numbered.{Numbered};
ghost use Rattle.fd_kinds.specs.LabelMaps.{value_of};
ghost use Rattle.fd_column.specs.Cells.{Column, label, columns_of, column_names, column_texts};
ghost use Rattle.fd_column.specs.Cells.{is_text_column, cell_at, text_in, whole_in, labels_in};
ghost use Rattle.fd_column.specs.Stacks.{AreShort};
ghost use Rattle.fd_column.specs.Texts.{AreTexts};

use fd_dictionary::Dictionary;
use fd_kinds::{Labels, NoMemory, Stack, Text, Texts};

/// Numbered rows that are read by columns.
pub trait Columns {
    /// The rows.
    ghost rows: { Self → List Numbered };

    /// How many rows there are.
    fn len(&self) -> usize
        ensures { result ≡ length (rows self.now) };

    /// The concrete names of the columns: the fixed ones, `labels.` and each name of a series
    /// label that occurs, and `pprof_labels.` and each name of a sample label that occurs.
    fn names(&self) -> &Texts
        ensures { result.now ≡ column_names (rows self.now) };

    /// The text of a row in a column, both by their places: none where it is absent, or no text.
    fn text(&self, column: usize, at: usize) -> Option<&[u8]>
        requires column { column < length (column_names (rows self.now)) }
        requires at { at < length (rows self.now) }
        ensures { option_copied result ≡ text_in (cell_at (rows self.now) column at) };

    /// The whole number of a row in a column, both by their places: none where it is no number.
    fn whole(&self, column: usize, at: usize) -> Option<i64>
        requires column { column < length (column_names (rows self.now)) }
        requires at { at < length (rows self.now) }
        ensures { result ≡ whole_in (cell_at (rows self.now) column at) };

    /// The distinct texts of a column, and for each row which of them it has; none where the column
    /// has whole numbers, or there is none.
    fn dictionary(&self, column: usize) -> Option<&Dictionary>
        ensures kind { is_some result ≡ is_text_column (rows self.now) column }
        ensures cells { IfSome result (λ dictionary.
            dictionary.now ≡ column_texts (rows self.now) column) };

    /// The column of the series labels of this name, none where no row has one.
    fn label_column(&self, name: &Text) -> Option<usize>
        ensures found { IfSome result (λ column.
            slice_get (columns_of (rows self.now)) column ≡ Some (label name.now)) }
        ensures none { result ≡ None
            → All (λ row. value_of row.row.labels.pairs name.now ≡ None) (rows self.now) };

    /// The labels of a row's series.
    fn labels(&self, at: usize) -> Result<Labels, NoMemory>
        requires { at < length (rows self.now) }
        ensures { IfOk result (λ labels.
            option_map (λ row. row.row.labels) (slice_get (rows self.now) at) ≡ Some labels) };

    /// Whether the series of two rows have the same labels, of which no text is read.
    fn same_labels(&self, a: usize, b: usize) -> bool
        requires first { a < length (rows self.now) }
        requires second { b < length (rows self.now) }
        ensures { Decides result (labels_in (rows self.now) a ≡ labels_in (rows self.now) b) };

    /// The stack of a row.
    fn stack(&self, at: usize) -> Result<Stack, NoMemory>
        requires { at < length (rows self.now) }
        ensures { IfOk result (λ stack.
            option_map (λ row. row.row.stack) (slice_get (rows self.now) at) ≡ Some stack) };

    /// The length of each frame has four bytes, so no two stacks have the same cell.
    fn short(&self)
        ensures { All (λ row. AreShort row.row.stack) (rows self.now) };

    /// The texts of the rows and the names of the columns are UTF-8.
    fn utf8(&self)
        ensures texts { AreTexts (rows self.now) }
        ensures names { All IsUtf8 (column_names (rows self.now)) };
}
