ghost use Rattle.fd_kinds.specs.History.{IsSmall};

use fd_kinds::Batch;

/// A batch of a size that every store takes.
#[derive(Drop)]
pub struct SmallBatch {
    pub batch: Batch,
    ghost small: { IsSmall batch.rows },
}
