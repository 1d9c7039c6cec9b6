ghost use Rattle.std.specs.Prelude.{◌≡◌, ◌++◌, ◌+◌, ◌≤◌, ℕ, List, length, All, OnOk};
ghost use Rattle.fd_kinds.specs.History.{IsSmall};
ghost use Rattle.fd_kinds.specs.declared.limits.TheConstants.{MOST_BATCH_BYTES};
ghost use Rattle.fd_wal.specs.Frames.{IsRow, batch_spelling};
ghost use Rattle.fd_wal.specs.Runs.{IsSpelling};

use crate::batch_writer::{batch_bytes, put_batch};
use fd_kinds::{Bytes, NoMemory, NumberedBatch, row_spelling_laws};

/// What a frame has a batch of: the batch itself, or its bytes.
pub(crate) trait Transaction {
    /// Its bytes in a frame.
    ghost spelling: { Self → List ℕ };

    /// It has no more bytes than those of a batch.
    ghost is_small: { Self → Type 0 };

    /// What is known once it is in a frame.
    ghost is_sound: { Self → Type 0 };

    /// How many bytes it has.
    fn size(&self) -> u64
        requires { is_small self.now }
        ensures value { result ≡ length (spelling self.now) }
        ensures small { result ≤ MOST_BATCH_BYTES + 4 }
        ensures some { 4 ≤ result };

    /// Adds its bytes.
    fn put(&self, out: &mut Bytes) -> Result<(), NoMemory>
        requires { is_small self.now }
        ensures ok { OnOk result (out.new ≡ out.old ++ spelling self.now) }
        ensures sound { OnOk result (is_sound self.now) };
}

impl Transaction for NumberedBatch {
    ghost spelling = { λ b. batch_spelling b.batch.rows };

    ghost is_small = { λ b. IsSmall b.batch.rows };

    ghost is_sound = { λ b. All IsRow b.batch.rows };

    fn size(&self) -> u64 {
        row_spelling_laws();
        4 + batch_bytes(&self.batch)
    }

    fn put(&self, out: &mut Bytes) -> Result<(), NoMemory> {
        put_batch(out, &self.batch)
    }
}

impl Transaction for Bytes {
    ghost spelling = { λ bytes. bytes };

    ghost is_small = { IsSpelling };

    ghost is_sound = { λ bytes. Unit {0} };

    fn size(&self) -> u64 {
        self.len() as u64
    }

    fn put(&self, out: &mut Bytes) -> Result<(), NoMemory> {
        out.extend(self.as_slice())
    }
}
