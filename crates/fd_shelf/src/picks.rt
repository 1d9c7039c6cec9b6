ghost use Rattle.std.specs.Prelude.{◌≡◌, ◌++◌, OnOk, map, filter};
ghost use Rattle.fd_shelf.specs.Steps.{placed_in, begins_upto, is_level0};

use fd_kinds::{Held, Items, NoMemory};

/// A part and the number of its block.
#[derive(Debug, Drop)]
pub struct InBlock<P> {
    pub block: u64,
    pub part: P,
}

/// Parts that were picked, in the order of their numbers.
pub type Picked<P> = Items<InBlock<P>>;

/// Adds shares of the parts of a block that begin at or below a number.
pub(crate) fn pick_upto<P: Held>(
    picked: &mut Picked<P>,
    block: u64,
    parts: &[P],
    w: u64,
) -> Result<(), NoMemory>
    ensures { OnOk result (
        map (λ i. placed_in i.block (P.means i.part)) picked.new
        ≡ map (λ i. placed_in i.block (P.means i.part)) picked.old
        ++ filter (begins_upto w) (map (placed_in block) (map P.means parts.now))) }
{
    for part in parts {
        if part.lo() <= w {
            picked.push(InBlock {
                block,
                part: part.share()?,
            })?;
        }
    }
    Ok(())
}

/// Adds shares of the loose parts of a block that begin at or below a limit.
pub(crate) fn pick_level0<P: Held>(
    picked: &mut Picked<P>,
    block: u64,
    parts: &[P],
    limit: u64,
) -> Result<(), NoMemory>
    ensures { OnOk result (
        map (λ i. placed_in i.block (P.means i.part)) picked.new
        ≡ map (λ i. placed_in i.block (P.means i.part)) picked.old
        ++ map (placed_in block) (filter (is_level0 limit) (map P.means parts.now))) }
{
    for part in parts {
        if !part.sealed() && part.lo() <= limit {
            picked.push(InBlock {
                block,
                part: part.share()?,
            })?;
        }
    }
    Ok(())
}
