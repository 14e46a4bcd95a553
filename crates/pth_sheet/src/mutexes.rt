//! Synchronization of pth(3): mutexes, `pth_mutex_t`.

ghost use Rattle.std.specs.Prelude.{ℕ, ℤ, not, ◌==◌, ◌||◌, is_none};
ghost use Rattle.pth_base.specs.declared.call.Call.TheVariants as call;
ghost use Rattle.pth_base.specs.declared.errno.Errno.TheVariants.{EINVAL, EBUSY, EAGAIN, EINTR, EDEADLK, EACCES};
ghost use Rattle.pth_numbered.specs.Operands.{is_zero};
ghost use Rattle.pth_lock.specs.Mutexes.{mutex_initialised, levels_of, level_limit, mutex_taken, is_anothers, owner_of, mutex_released};
ghost use Rattle.pth_lock.specs.Objects.{is_object, object_named};
ghost use Rattle.pth_model.specs.Cancellation.{may_be_canceled};
ghost use Rattle.pth_model.specs.Mutexes.{is_free};
ghost use Rattle.pth_model.specs.State.{State};
ghost use Rattle.pth_model.specs.declared.awaits.Awaits.TheVariants as awaits;
ghost use Rattle.pth_sheet.specs.Outcomes.{Begins, refused, ◌then◌, returns, waits_for, GoesOn, canceled};
ghost use Rattle.pth_numbered.specs.Clauses.{◌when◌otherwise◌};
ghost use Rattle.pth_sheet.specs.States.{is_mutex, mutexes_become, is_no_ring_of, mutex_of, ring_is_in_use, claims_ring, unblocks, has_event_settled};

use pth_base::program::Program;

/// This dynamically initializes a mutex variable `m`. Here there are 64 of them, numbered from 0 (else EINVAL), and each is initialized
/// once (else EBUSY).
pub fn pth_mutex_init<P: Program>()
    ensures { (s : State P P.State P.Shared) (t : ℕ) (m : ℤ) →
        Begins P.functions s t (call.MutexInit m) (
        refused EINVAL when not (is_object m) otherwise
        refused EBUSY when is_mutex s m otherwise
        mutexes_become (mutex_initialised (object_named m)) then returns 1) }
{}

/// This acquires a mutex `m`. If the mutex is already locked by another thread, the current thread's execution is suspended until the mutex
/// is unlocked again or additionally the extra events in `e` occurred (when `e` is not NULL, 0). Recursive locking is explicitly supported,
/// i.e., a thread is allowed to acquire a mutex more than once before it is released. But it then also has to be released the same number
/// of times. When `v` is TRUE (not 0) this function never suspends execution. Instead it returns FALSE with `errno` set to EBUSY. Here a
/// thread has a mutex at most 65,535 times (else EAGAIN), and an event that comes first is answered EINTR. When the thread is dispatched
/// and finds the mutex unlocked, it acquires it, even if an event has occurred too.
pub fn pth_mutex_acquire<P: Program>()
    ensures begins { (s : State P P.State P.Shared) (t : ℕ) (m v e : ℤ) →
        Begins P.functions s t (call.MutexAcquire m v e) (
        refused EINVAL when is_no_ring_of s e otherwise
        refused EINVAL when not (is_mutex s m) otherwise
        refused EAGAIN when levels_of t (mutex_of s m) == level_limit otherwise
        mutexes_become (mutex_taken t (object_named m)) then returns 1
        when not (is_anothers t (mutex_of s m)) otherwise
        refused EBUSY when not (is_zero v) || ring_is_in_use s e otherwise
        claims_ring t e then waits_for (awaits.Mutex m)) }
    ensures goes_on { (s : State P P.State P.Shared) (t : ℕ) (m v e : ℤ) →
        GoesOn P.functions s t (call.MutexAcquire m v e) (awaits.Mutex m) (
        canceled P.functions when may_be_canceled s.control t otherwise
        mutexes_become (mutex_taken t (object_named m)) then unblocks t then returns 1
        when is_free s m otherwise
        unblocks t then refused EINTR when has_event_settled s e otherwise
        waits_for (awaits.Mutex m)) }
{}

/// This decrements the recursion locking count on mutex `m`, and when it is zero it releases the mutex. Here a mutex that is not locked is
/// refused (EDEADLK), and one that another thread has locked (EACCES).
pub fn pth_mutex_release<P: Program>()
    ensures { (s : State P P.State P.Shared) (t : ℕ) (m : ℤ) →
        Begins P.functions s t (call.MutexRelease m) (
        refused EINVAL when not (is_mutex s m) otherwise
        refused EDEADLK when is_none (owner_of (mutex_of s m)) otherwise
        refused EACCES when is_anothers t (mutex_of s m) otherwise
        mutexes_become (mutex_released t (object_named m)) then returns 1) }
{}
