//! Synchronization of pth(3): read-write locks, `pth_rwlock_t`.

ghost use Rattle.std.specs.Prelude.{ℕ, ℤ, not, Bool, ◌||◌, ◌&&◌};
ghost use Rattle.pth_base.specs.declared.call.Call.TheVariants as call;
ghost use Rattle.pth_base.specs.declared.errno.Errno.TheVariants.{EINVAL, EBUSY, EDEADLK, EINTR, EACCES};
ghost use Rattle.pth_numbered.specs.Operands.{is_zero};
ghost use Rattle.pth_lock.specs.Objects.{is_object, object_named};
ghost use Rattle.pth_lock.specs.RwLocks.{lock_initialised, holds, lock_taken, may_enter, is_held, lock_released};
ghost use Rattle.pth_model.specs.Cancellation.{may_be_canceled};
ghost use Rattle.pth_model.specs.Rwlocks.{is_open};
ghost use Rattle.pth_model.specs.State.{State};
ghost use Rattle.pth_model.specs.declared.awaits.Awaits.TheVariants as awaits;
ghost use Rattle.pth_sheet.specs.Outcomes.{Begins, refused, ◌then◌, returns, waits_for, GoesOn, canceled};
ghost use Rattle.pth_numbered.specs.Clauses.{◌when◌otherwise◌};
ghost use Rattle.pth_sheet.specs.States.{locks_of, locks_become, is_no_ring_of, ring_is_in_use, claims_ring, unblocks, has_event_settled};

use pth_base::program::Program;

/// This dynamically initializes a read-write lock variable `l`. Here there are 64 of them, numbered from 0 (else EINVAL), and each is
/// initialized once (else EBUSY).
pub fn pth_rwlock_init<P: Program>()
    ensures { (s : State P P.State P.Shared) (t : ℕ) (l : ℤ) →
        Begins P.functions s t (call.RwInit l) (
        refused EINVAL when not (is_object l) otherwise
        refused EBUSY when (locks_of s).initialised (object_named l) otherwise
        locks_become (lock_initialised (object_named l)) then returns 1) }
{}

/// This acquires a read-only (`PTH_RWLOCK_RD`) or a read-write (`PTH_RWLOCK_RW`, `write`) lock `l`. When the lock is only locked by other
/// threads in read-only mode, a read-only lock succeeds. But when one thread holds a read-write lock, all locking attempts suspend the
/// current thread until this lock is released again. Additionally in `e` events can be given to let the locking time out. When `v` is TRUE
/// (not 0) this function never suspends execution. Instead it returns FALSE with `errno` set to EBUSY. Here a thread that holds the lock is
/// refused (EDEADLK). An event that comes first is answered EINTR.
pub fn pth_rwlock_acquire<P: Program>()
    ensures begins { (s : State P P.State P.Shared) (t : ℕ) (l : ℤ) (write : Bool) (v e : ℤ) →
        Begins P.functions s t (call.RwAcquire l write v e) (
        refused EINVAL when is_no_ring_of s e otherwise
        refused EINVAL when not ((locks_of s).initialised (object_named l)) otherwise
        refused EDEADLK when holds (locks_of s) t (object_named l) otherwise
        locks_become (lock_taken t write (object_named l)) then returns 1
        when may_enter (locks_of s) write (object_named l) otherwise
        refused EBUSY when not (is_zero v) || ring_is_in_use s e otherwise
        claims_ring t e then waits_for (awaits.Lock l write)) }
    ensures goes_on { (s : State P P.State P.Shared) (t : ℕ) (l : ℤ) (write : Bool) (v e : ℤ) →
        GoesOn P.functions s t (call.RwAcquire l write v e) (awaits.Lock l write) (
        canceled P.functions when may_be_canceled s.control t otherwise
        locks_become (lock_taken t write (object_named l)) then unblocks t then returns 1
        when is_open s write l && not (holds (locks_of s) t (object_named l)) otherwise
        unblocks t then refused EINTR when has_event_settled s e otherwise
        waits_for (awaits.Lock l write)) }
{}

/// This releases a previously acquired (read-only or read-write) lock `l`. Here a lock that nobody holds is refused (EDEADLK), and one that
/// only others hold (EACCES).
pub fn pth_rwlock_release<P: Program>()
    ensures { (s : State P P.State P.Shared) (t : ℕ) (l : ℤ) →
        Begins P.functions s t (call.RwRelease l) (
        refused EINVAL when not ((locks_of s).initialised (object_named l)) otherwise
        refused EDEADLK when not (is_held (locks_of s) (object_named l)) otherwise
        refused EACCES when not (holds (locks_of s) t (object_named l)) otherwise
        locks_become (lock_released t (object_named l)) then returns 1) }
{}
