ghost use Rattle.std.specs.Prelude.{◌≡◌, ◌≤◌, false};

use fd_kinds::{Held, NoMemory};

/// A part without rows.
#[derive(Debug, Drop)]
pub struct Stub {
    pub lo: u64,
    pub hi: u64,
    pub sealed: bool,
    ghost ordered: { lo ≤ hi },
    ghost one_number: { sealed ≡ false → lo ≡ hi },
}

impl Held for Stub {
    ghost use Rattle.fd_kinds.specs.Parts.{IsWithin};
    ghost use Rattle.std.proofs.lemmas.List.Elements.{«All-nil»};
    ghost use Rattle.stubs.specs.Stubs.{stub_meaning};

    ghost means = { stub_meaning };

    ghost sound = { λ part. record {
      ordered = part.ordered;
      within = «All-nil» (IsWithin part.lo part.hi);
      one_number = part.one_number;
    } };

    fn lo(&self) -> u64 {
        self.lo
    }

    fn hi(&self) -> u64 {
        self.hi
    }

    fn sealed(&self) -> bool {
        self.sealed
    }

    fn rows(&self) -> u64 {
        0
    }

    fn bytes(&self) -> u64 {
        0
    }

    fn share(&self) -> Result<Stub, NoMemory> {
        Ok(Stub {
            lo: self.lo,
            hi: self.hi,
            sealed: self.sealed,
        })
    }

    fn number(&mut self, number: u64) {
        *self = loose(number);
    }
}

pub fn loose(number: u64) -> Stub
    ensures lo { result.lo ≡ number }
    ensures hi { result.hi ≡ number }
    ensures sealed { result.sealed ≡ false }
{
    Stub {
        lo: number,
        hi: number,
        sealed: false,
    }
}
