ghost use Rattle.std.specs.Prelude.{◌≡◌, IsTrue, ◌↔◌, Contains};
ghost use Rattle.std.specs.Bool.{OnTrue, OnFalse};
ghost use Rattle.fd_device.specs.Causes.{Rose, next_count};

use fd_lists::Items;

/// The numbers, from 1, of the calls that are to fail.
pub type Calls = Items<u64>;

/// Counts calls and faults, and says which calls fail.
#[derive(Drop)]
pub(crate) struct Schedule {
    pub fails: Calls,
    pub calls: u64,
    pub faults: u64,
}

impl Schedule {
    /// No call yet.
    pub fn new(fails: Calls) -> Schedule
        ensures fails { result.fails ≡ fails }
        ensures calls { result.calls ≡ 0 }
        ensures faults { result.faults ≡ 0 }
    {
        Schedule {
            fails,
            calls: 0,
            faults: 0,
        }
    }

    /// Counts a call, and a fault where it is listed.
    pub fn is_listed(&mut self) -> bool
        ensures fails { self.new.fails ≡ self.old.fails }
        ensures calls { self.new.calls ≡ next_count self.old.calls }
        ensures listed { IsTrue result ↔ Contains self.old.fails (next_count self.old.calls) }
        ensures rose { OnTrue result (Rose self.old.faults self.new.faults) }
        ensures kept { OnFalse result (self.new.faults ≡ self.old.faults) }
    {
        self.calls = self.calls.saturating_add(1);
        let listed = self.fails.as_slice().contains(&self.calls);
        if listed {
            self.raise();
        }
        listed
    }

    /// Counts a fault.
    pub fn raise(&mut self)
        ensures fails { self.new.fails ≡ self.old.fails }
        ensures calls { self.new.calls ≡ self.old.calls }
        ensures rose { Rose self.old.faults self.new.faults }
    {
        self.faults = self.faults.saturating_add(1);
    }
}
