ghost use Rattle.std.specs.Prelude.{◌≡◌, ◌+◌, ◌-◌, ◌*◌, ◌/◌, ◌%◌, ◌^◌, ◌<◌, ◌≤◌};

/// Bits that were taken from digits and not yet given on, and the place of the next digit.
#[derive(Clone, Copy)]
pub(crate) struct Bits {
    pub at: usize,
    pub held: u64,
    pub count: u32,
    ghost small: { held < 2 ^ count },
}

impl Bits {
    /// No bits, before the first digit.
    pub(crate) fn new() -> Bits
        ensures at { result.at ≡ 0 }
        ensures held { result.held ≡ 0 }
        ensures count { result.count ≡ 0 }
    {
        Bits {
            at: 0,
            held: 0,
            count: 0,
        }
    }

    /// With a digit of `width` bits above the others. The next one stands at `at`.
    #[tactic(auto, using(crate::proofs::Shifts::shifts))]
    pub(crate) fn with(self, digit: u64, width: u32, at: usize) -> Bits
        requires width { width ≤ 32 }
        requires count { self.count < 32 }
        requires digit { digit < 2 ^ width }
        ensures at { result.at ≡ at }
        ensures held { result.held ≡ self.held + 2 ^ self.count * digit }
        ensures count { result.count ≡ self.count + width }
    {
        Bits {
            at,
            held: self.held + (digit << self.count),
            count: self.count + width,
        }
    }

    /// The lowest bits as a number.
    #[tactic(auto, using(crate::proofs::Shifts::shifts))]
    pub(crate) fn lowest(self, width: u32) -> u64
        requires { width ≤ 32 }
        ensures { result ≡ self.held % 2 ^ width }
    {
        self.held % (1 << width)
    }

    /// Without the lowest bits.
    #[tactic(auto, using(crate::proofs::Shifts::shifts))]
    pub(crate) fn without(self, width: u32) -> Bits
        requires held { width ≤ self.count }
        requires most { self.count < 64 }
        ensures at { result.at ≡ self.at }
        ensures held { result.held ≡ self.held / 2 ^ width }
        ensures count { result.count + width ≡ self.count }
    {
        Bits {
            at: self.at,
            held: self.held >> width,
            count: self.count - width,
        }
    }
}
