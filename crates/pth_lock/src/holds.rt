//! The mutexes and the read-write locks as lists of holds: laws of what the calls do to these lists. They have no code.

ghost use Rattle.pth_lock.specs.Holds.{StartWithoutHolds, TakesAddHold, ReleasesDropHold, EndsDropHolds, HoldsTellOwners, StartWithoutLockHolds, LockTakesAddHold, LockReleasesDropHold, LockEndsDropHolds};

/// Each level of a mutex is a hold: a call that takes a mutex adds one, a release drops one, and a thread that ends drops all of
/// its own. The holds of a mutex say who has it and how often.
pub fn levels_are_holds()
    ensures start { StartWithoutHolds }
    ensures taken { TakesAddHold }
    ensures released { ReleasesDropHold }
    ensures left { EndsDropHolds }
    ensures owners { HoldsTellOwners }
{}

/// Who reads or writes under a lock has one hold of it: a call that takes a lock adds one, a release drops one, and a thread that
/// ends drops all of its own.
pub fn lock_holders_have_holds()
    ensures start { StartWithoutLockHolds }
    ensures taken { LockTakesAddHold }
    ensures released { LockReleasesDropHold }
    ensures left { LockEndsDropHolds }
{}
