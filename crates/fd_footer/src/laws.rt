ghost use Rattle.std.specs.Prelude.{◌≡◌, ◌<◌, ◌^◌, ℕ, List, length, true, pos, Some};
ghost use Rattle.fd_thrift.specs.Format.{Spells};
ghost use Rattle.fd_footer.specs.declared.footer.Footer.{Footer as AnyFooter};
ghost use Rattle.fd_footer.specs.Footers.{footer_value, footer_bytes, IsWritable};
ghost use Rattle.fd_footer.specs.Layout.{are_own};
ghost use Rattle.fd_footer.specs.Shapes.{has_shape};
ghost use Rattle.fd_footer.specs.Contents.{table_of, have_text_names};

use fd_thrift::one_spelling;

/// No bytes spell two footers.
pub fn one_footer()
    ensures { (bytes : List ℕ) (f g : AnyFooter) → IsWritable f → IsWritable g
        → Spells bytes (footer_value f) → Spells bytes (footer_value g) → f ≡ g }
{
    one_spelling();
}

/// A footer with this project's columns is read as what it is.
pub fn footers_are_read()
    ensures shape { (f : AnyFooter) → has_shape (footer_value f) ≡ true }
    ensures table { (f : AnyFooter) → IsWritable f → have_text_names f.columns ≡ true
        → are_own f.columns ≡ true
        → table_of (footer_value f)
        ≡ Some (record {
          pages = f.pages;
          lo = Some f.lo;
          hi = Some f.hi;
          rows = pos f.rows;
          columns = f.columns;
        }) }
{}

/// The bytes of a footer spell it, where they are fewer than 2^64.
pub fn footers_are_spelled()
    ensures { (f : AnyFooter) → IsWritable f → length (footer_bytes f) < 2 ^ 64
        → Spells (footer_bytes f) (footer_value f) }
{}
