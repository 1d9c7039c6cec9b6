ghost use Rattle.std.specs.Prelude.{[], ◌++◌};
ghost use Rattle.fd_kinds.specs.History.{History};
ghost use Rattle.fd_durable.specs.Durable.{Held, Moves};

use fd_device::Disk;

/// What calls of a store over a disk leave together: a crash at any moment of two of them leaves
/// what it leaves at a moment of one. After a fault of the disk nothing more is done, so that of all
/// calls at most one batch is pending.
pub fn moving_laws<D: Disk>()
    ensures stays { (held : Held D)
        → Moves D.honest D.seen D.may_leave D.moment D.left_since held held [] }
    ensures joined { (old mid new : Held D) → (first later : History)
        → Moves D.honest D.seen D.may_leave D.moment D.left_since old mid first
        → Moves D.honest D.seen D.may_leave D.moment D.left_since mid new later
        → Moves D.honest D.seen D.may_leave D.moment D.left_since old new (first ++ later) }
{}
