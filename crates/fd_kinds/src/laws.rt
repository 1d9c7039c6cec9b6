//! Laws, as contracts of functions that do nothing.

ghost use Rattle.std.specs.Prelude.{◌≡◌, ◌<◌, ℕ, Ok, List, IsPermutation, length};
ghost use Rattle.std.specs.Cmp.{IsTotalOrder};
ghost use Rattle.fd_kinds.specs.RowOrder.{row_cmp};
ghost use Rattle.fd_kinds.specs.declared.row.Row.{Row};
ghost use Rattle.fd_kinds.specs.declared.query.Query.{Query};
ghost use Rattle.fd_kinds.specs.Meaning.{meaning};
ghost use Rattle.fd_kinds.specs.RowSize.{row_size};
ghost use Rattle.fd_kinds.specs.RowSpelling.{row_spelling};
ghost use Rattle.fd_kinds.specs.Stores.{StoreView, WriteFacts};

use std::cmp::Ordering;

/// The row order is total, and rows that tie are equal in every field.
#[tactic(auto, using(crate::proofs::RowLaws::row_cmp_total, crate::proofs::RowLaws::same_row))]
pub fn row_order_laws()
    ensures total { IsTotalOrder row_cmp }
    ensures same { (a b : Row) → row_cmp a b ≡ Ordering.Equal → a ≡ b }
{}

/// What a query means does not depend on the order of the rows: those in another order, each as
/// often as before, give the same answer. So a store may keep its rows in blocks and parts, sort
/// them and merge them, and scan them in any order.
#[tactic(auto, using(crate::proofs::Meanings::same_meaning))]
pub fn meaning_laws()
    ensures meaning { (query : Query) → (a b : List Row)
        → IsPermutation a b → meaning query a ≡ meaning query b }
{}

/// The bytes of a row in the log are as many as its size counts.
#[tactic(auto, using(crate::proofs::SpellingLaws::row_spelling_length))]
pub fn row_spelling_laws()
    ensures length { (r : Row) → length (row_spelling r) ≡ row_size r }
{}

/// Of two writes that a store accepts, the later one has the greater number. So a store that
/// answers the same number twice is none.
pub fn store_laws()
    ensures numbers { (old mid new : StoreView) (first second : List Row) (number later : ℕ)
        → WriteFacts old first (Ok number) mid
        → WriteFacts mid second (Ok later) new
        → number < later }
{}
