ghost use Rattle.std.specs.Prelude.{◌≡◌, ◌≢◌, ℕ, ◌+◌, ◌<◌, ◌≤◌, ◌^◌, false, ◌∷◌, [], List, length};
ghost use Rattle.std.specs.Prelude.{filter, IsPermutation, IsSorted};
ghost use Rattle.fd_kinds.specs.History.{IsSmall};
ghost use Rattle.fd_kinds.specs.Parts.{PartMeaning, rows_of};
ghost use Rattle.fd_kinds.specs.RowOrder.{row_cmp};
ghost use Rattle.fd_kinds.specs.declared.row.Row.{Row};
ghost use Rattle.fd_shelf.specs.Books.{Book, Each, Shelved, all_parts, has_number, settled_parts};
ghost use Rattle.fd_shelf.specs.Histories.{batch_at, hist, in_row_order};
ghost use Rattle.fd_shelf.specs.Marks.{IsBook};
ghost use Rattle.fd_shelf.specs.Numbers.{IsIn};
ghost use Rattle.fd_shelf.specs.Steps.{has_next};
ghost use Rattle.fd_shelf.specs.Stragglers.{with_straggler};

use fd_kinds::row_order_laws;

/// Rows are one batch, whichever order they are given in, and as they stand where they are sorted.
/// The batch of a number in one part is that of its rows with the number.
pub fn batch_laws()
    ensures same { (a b : List Row) → IsPermutation a b → in_row_order a ≡ in_row_order b }
    ensures sorted { (rows : List Row) → IsSorted row_cmp rows → in_row_order rows ≡ rows }
    ensures part { (part : PartMeaning) (number : ℕ)
        → batch_at (part ∷ []) number
        ≡ in_row_order (rows_of (filter (has_number number) part.rows)) }
{
    row_order_laws();
}

/// A book in order holds the numbers up to its mark, and its blocks no other. The history up to a
/// mark has that many batches. Where no straggler follows the mark, no part holds the next number.
pub fn book_laws()
    ensures bounded { (book : Book) (mark : ℕ) → IsBook book mark → mark < 2 ^ 63 }
    ensures count { (book : Book) (mark : ℕ) → length (hist book mark) ≡ mark }
    ensures held { (book : Book) (mark n : ℕ)
        → IsBook book mark → 0 < n → n ≤ mark → IsIn n (all_parts book) }
    ensures only { (book : Book) (mark n : ℕ)
        → IsBook book mark → IsIn n (settled_parts book) → n ≤ mark }
    ensures gap { (shelf : Shelved)
        → IsBook shelf.book shelf.mark
        → has_next shelf ≡ false
        → IsIn (shelf.mark + 1) (all_parts shelf.book)
        → ⊥ }
{}

/// A batch above the mark whose number no part holds may wait in a book in order. Then its number
/// has its rows, and no other number has others than before.
pub fn straggler_laws()
    ensures book { (book : Book) (mark number : ℕ) (rows : List Row)
        → IsBook book mark
        → mark < number
        → number < 2 ^ 63
        → (IsIn number (all_parts book) → ⊥)
        → IsSmall rows
        → IsBook (with_straggler number rows book) mark }
    ensures batch { (book : Book) (mark number : ℕ) (rows : List Row)
        → IsBook book mark
        → mark < number
        → (IsIn number (all_parts book) → ⊥)
        → batch_at (all_parts (with_straggler number rows book)) number ≡ in_row_order rows }
    ensures others { (book : Book) (number : ℕ) (rows : List Row) (n : ℕ)
        → n ≢ number
        → batch_at (all_parts (with_straggler number rows book)) n ≡ batch_at (all_parts book) n }
    ensures history { (book : Book) (mark number : ℕ) (rows : List Row)
        → mark < number
        → hist (with_straggler number rows book) mark ≡ hist book mark }

    // What `Shelf::admit` asks of the stragglers.
    ensures free { (book : Book) (mark number : ℕ)
        → IsBook book mark
        → (IsIn number (all_parts book) → ⊥)
        → Each (λ p. p.lo ≢ number) book.stragglers }
{}
