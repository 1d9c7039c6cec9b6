ghost use Rattle.std.specs.Prelude.{◌≡◌, flat_map, IfOk};
ghost use Rattle.fd_kinds.specs.Meaning.{meaning};
ghost use Rattle.fd_kinds.specs.Parts.{rows_of};
ghost use Rattle.fd_part.specs.Parts.{part_meaning};

use fd_kinds::{Answer, NoMemory, Query};
use fd_part::Part;
use fd_scan::{Gathered, scan};
use fd_shelf::Picked;

/// What the query means over all rows of the parts. Their columns are scanned one part after the
/// other, and no row is copied.
pub fn answer(query: &Query, parts: &Picked<Part>) -> Result<Answer, NoMemory>
    ensures { IfOk result (λ answer.
        answer ≡ meaning query.now (flat_map (λ i. rows_of (part_meaning i.part).rows) parts.now)) }
{
    let mut gathered = Gathered::new(parts.allocator(), query)?;
    for picked in parts.as_slice() {
        scan(query, picked.part.cells(), &mut gathered)?;
    }
    gathered.finish()
}
