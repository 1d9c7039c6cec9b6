ghost use Rattle.std.specs.Prelude.{◌≡◌, List, IsPermutation};
ghost use Rattle.fd_kinds.specs.declared.row.Row.{Row};
ghost use Rattle.fd_kinds.specs.declared.batch.Batch.{Batch};

use fd_kinds::row_order_laws;

/// Rows have one batch, however they stand: the batch of a body is a function of its rows.
pub fn batch_laws()
    ensures one { (rows : List Row) → (a b : Batch)
        → IsPermutation rows a.rows → IsPermutation rows b.rows → a ≡ b }
{
    row_order_laws();
}
