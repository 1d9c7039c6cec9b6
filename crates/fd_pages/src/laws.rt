ghost use Rattle.std.specs.Prelude.{◌≡◌, ℕ, ◌+◌, ◌≤◌, Bool, true, List, [], ◌∷◌, ◌++◌, length};
ghost use Rattle.fd_pages.specs.declared.cell.CellKind.{CellKind as Kind};
ghost use Rattle.fd_pages.specs.declared.cell.Cell.{Cell};
ghost use Rattle.fd_pages.specs.declared.cell.Cell.TheVariants.{Bytes};
ghost use Rattle.fd_pages.specs.Columns.{plain_values};
ghost use Rattle.fd_pages.specs.Pages.{IsBody, IsPage};
ghost use Rattle.fd_pages.specs.declared.cell.TheConstants.{MAX_ROWS};
ghost use Rattle.fd_pages.specs.Dictionaries.{AreRising, IsDictionary, IsCodePage};

use fd_hybrid::one_reading;
use fd_thrift::one_spelling;

/// No page is that of two lists of cells of a column, and none begins another.
pub fn one_page()
    ensures { (kind : Kind) (required : Bool) (cells others : List Cell) (a b x y : List ℕ)
        → IsPage kind required cells a → IsPage kind required others b → a ++ x ≡ b ++ y
        → (cells ≡ others) × (a ≡ b) }
{
    one_spelling();
}

/// The definition levels of a page take few bytes, so whoever knows how many bytes the values have
/// knows that a body has fewer than 2^31.
pub fn levels_are_short()
    ensures { (required : Bool) (cells : List Cell) (body : List ℕ)
        → length cells ≤ MAX_ROWS → IsBody required cells body
        → length body ≤ length (plain_values cells) + 3004 }
{}

/// No bytes are the dictionaries of two lists of texts, and none begins another.
pub fn one_dictionary()
    ensures { (texts others : List (List ℕ)) (a b x y : List ℕ)
        → IsDictionary texts a → IsDictionary others b → a ++ x ≡ b ++ y
        → (texts ≡ others) × (a ≡ b) }
{
    one_spelling();
}

/// No page with indexes of a dictionary's texts is that of two lists of cells, and none begins
/// another.
pub fn one_code_page()
    ensures { (required : Bool) (texts : List (List ℕ))
        (cells others : List Cell) (a b x y : List ℕ)
        → IsCodePage required texts cells a → IsCodePage required texts others b → a ++ x ≡ b ++ y
        → (cells ≡ others) × (a ≡ b) }
{
    one_spelling();
    one_reading();
}

/// Cells have one page with indexes of rising texts.
pub fn one_coding()
    ensures { (required : Bool) (texts : List (List ℕ)) (cells : List Cell) (a b : List ℕ)
        → AreRising texts → IsCodePage required texts cells a → IsCodePage required texts cells b
        → a ≡ b }
{
    fd_hybrid::one_spelling();
}

/// The dictionary of the texts `a` and `b`, and the page of the required texts `a`, `b`, `a` with
/// its indexes, byte by byte.
pub fn dictionaries_are_as_described()
    ensures dictionary { IsDictionary ((97 ∷ []) ∷ (98 ∷ []) ∷ [])
        (21 ∷ 4 ∷ 21 ∷ 20 ∷ 21 ∷ 20 ∷ 76 ∷ 21 ∷ 4 ∷ 21 ∷ 0 ∷ 0 ∷ 0 ∷ 1 ∷ 0 ∷ 0 ∷ 0 ∷ 97 ∷ 1 ∷ 0
        ∷ 0 ∷ 0 ∷ 98 ∷ []) }
    ensures code_page { IsCodePage true ((97 ∷ []) ∷ (98 ∷ []) ∷ []) (Bytes (97 ∷ [])
        ∷ Bytes (98 ∷ []) ∷ Bytes (97 ∷ []) ∷ [])
        (21 ∷ 0 ∷ 21 ∷ 6 ∷ 21 ∷ 6 ∷ 44 ∷ 21 ∷ 6 ∷ 21 ∷ 16 ∷ 21 ∷ 6 ∷ 21 ∷ 6 ∷ 0 ∷ 0 ∷ 1 ∷ 3 ∷ 2
        ∷ []) }
{}

/// The same bytes with a fault: with the two texts exchanged they begin with no dictionary, and
/// without the last byte with no page.
pub fn faulty_dictionaries_are_none()
    ensures exchanged { (texts : List (List ℕ)) (page rest : List ℕ)
        → page ++ rest
        ≡ 21 ∷ 4 ∷ 21 ∷ 20 ∷ 21 ∷ 20 ∷ 76 ∷ 21 ∷ 4 ∷ 21 ∷ 0 ∷ 0 ∷ 0 ∷ 1 ∷ 0 ∷ 0 ∷ 0 ∷ 98 ∷ 1 ∷ 0
        ∷ 0 ∷ 0 ∷ 97 ∷ []
        → ¬ IsDictionary texts page }
    ensures cut { (required : Bool) (texts : List (List ℕ)) (cells : List Cell) (page rest : List ℕ)
        → page ++ rest
        ≡ 21 ∷ 0 ∷ 21 ∷ 6 ∷ 21 ∷ 6 ∷ 44 ∷ 21 ∷ 6 ∷ 21 ∷ 16 ∷ 21 ∷ 6 ∷ 21 ∷ 6 ∷ 0 ∷ 0 ∷ 1 ∷ 3 ∷ []
        → ¬ IsCodePage required texts cells page }
{
    one_spelling();
}
