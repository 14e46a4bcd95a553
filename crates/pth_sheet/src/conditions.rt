//! Synchronization of pth(3): condition variables, `pth_cond_t`.
//!
//! A thread that waits on a condition, and an event of it for which a thread waits, has a *seat* there; `seat_of t` is that of `t`. Seats
//! stand in the order in which they were entered. A notification marks the first that is not marked, or all. Whoever is canceled or ends
//! before it uses the mark of a single notification hands it on: the first seat that is not marked is marked.

ghost use Rattle.std.specs.Prelude.{ℕ, ℤ, not, ◌≡◌, false, ◌||◌, is_none, true};
ghost use Rattle.pth_base.specs.declared.call.Call.TheVariants as call;
ghost use Rattle.pth_base.specs.declared.errno.Errno.TheVariants.{EINVAL, EBUSY, EDEADLK, EACCES, EINTR};
ghost use Rattle.pth_numbered.specs.Operands.{is_zero};
ghost use Rattle.pth_lock.specs.Mutexes.{owner_of, is_anothers, mutex_released};
ghost use Rattle.pth_lock.specs.Objects.{is_object, object_named};
ghost use Rattle.pth_cond.specs.Conditions.{cond_initialised, seat_entered, seat_handed_on, seat_left, cond_notified};
ghost use Rattle.pth_model.specs.Cancellation.{canceled_value, may_be_canceled};
ghost use Rattle.pth_model.specs.Conditions.{seat_of, is_noticed};
ghost use Rattle.pth_model.specs.RingWaits.{ring_seats, extra_ring};
ghost use Rattle.pth_model.specs.State.{State};
ghost use Rattle.pth_model.specs.declared.awaits.Awaits.TheVariants as awaits;
ghost use Rattle.pth_model.specs.declared.awaits.Retake.TheVariants as retake;
ghost use Rattle.pth_sheet.specs.Outcomes.{Begins, refused, ◌then◌, returns, waits_for, GoesOn, clears_request, ◌before◌, retakes, marks_mutex_taken, ends, still_waits};
ghost use Rattle.pth_numbered.specs.Clauses.{◌when◌otherwise◌};
ghost use Rattle.pth_sheet.specs.States.{is_condition, conditions_become, is_no_ring_of, is_mutex, mutex_of, ring_is_in_use, claims_ring, mutexes_become, sets_awaiting, control_becomes, unblocks, has_event_settled};

use pth_base::program::Program;

/// This dynamically initializes a condition variable `c`. Here there are 64 of them, numbered from 0 (else EINVAL), and each is initialized
/// once (else EBUSY).
pub fn pth_cond_init<P: Program>()
    ensures { (s : State P P.State P.Shared) (t : ℕ) (c : ℤ) →
        Begins P.functions s t (call.CondInit c) (
        refused EINVAL when not (is_object c) otherwise
        refused EBUSY when is_condition s c otherwise
        conditions_become (cond_initialised c) then returns 1) }
{}

/// This awaits a condition situation. The mutex `m` has to be acquired before this function is called. The execution of the current thread
/// is then suspended either until the events in `e` occurred (when `e` is not NULL, 0) or `c` was notified by another thread via
/// pth_cond_notify(3). While the thread is waiting, `m` is released. Before it returns, `m` is reacquired. Here a mutex that is not locked
/// is refused (EDEADLK), and one that another thread has locked (EACCES). One level of `m` is released. An event that comes first is
/// answered EINTR, and a canceled thread reacquires `m` before it ends.
///
/// `begins` is the call. `goes_on` is of a thread that waits for the notice: it is over for one of three causes (`retake`), and `retakes`
/// says that `t` reacquires `m` at once, or waits for it. The statements `takes_mutex_back_..` are of a thread that waits for `m`, for each
/// cause.
///
/// The premises hold in every run: the flag `awaits` of a thread is set from its wait until it has `m` again. `n` is `m` in every run.
pub fn pth_cond_await<P: Program>()
    ensures begins { (s : State P P.State P.Shared) (t : ℕ) (c m e : ℤ) →
        s.resources.awaits t ≡ false →
        Begins P.functions s t (call.CondAwait c m e) (
        refused EINVAL when not (is_condition s c) || is_no_ring_of s e otherwise
        refused EINVAL when not (is_mutex s m) otherwise
        refused EDEADLK when is_none (owner_of (mutex_of s m)) otherwise
        refused EACCES when is_anothers t (mutex_of s m) otherwise
        refused EBUSY when ring_is_in_use s e otherwise
        conditions_become (seat_entered c (seat_of t)) then claims_ring t e then
        mutexes_become (mutex_released t (object_named m)) then sets_awaiting t true then
        waits_for (awaits.Notice c)) }
    ensures goes_on { (s : State P P.State P.Shared) (t : ℕ) (c m e : ℤ) →
        s.resources.awaits t ≡ true →
        GoesOn P.functions s t (call.CondAwait c m e) (awaits.Notice c) (
        clears_request t (call.CondAwait c m e) before
        conditions_become (seat_handed_on c (seat_of t)) then
        control_becomes (ring_seats seat_handed_on (extra_ring e)) then unblocks t then
        retakes m retake.Canceled (marks_mutex_taken t m before ends P.functions canceled_value)
        when may_be_canceled s.control t otherwise
        conditions_become (seat_left c (seat_of t)) then unblocks t then
        retakes m retake.Notified (returns 1) when is_noticed s t c otherwise
        conditions_become (seat_left c (seat_of t)) then unblocks t then
        retakes m retake.Interrupted (refused EINTR) when has_event_settled s e otherwise
        still_waits) }
    ensures takes_mutex_back_notified { (s : State P P.State P.Shared) (t : ℕ) (c m e n : ℤ) →
        s.resources.awaits t ≡ true →
        GoesOn P.functions s t (call.CondAwait c m e) (awaits.Retaking n retake.Notified) (
        unblocks t then retakes m retake.Notified (returns 1)) }
    ensures takes_mutex_back_interrupted { (s : State P P.State P.Shared) (t : ℕ) (c m e n : ℤ) →
        s.resources.awaits t ≡ true →
        GoesOn P.functions s t (call.CondAwait c m e) (awaits.Retaking n retake.Interrupted) (
        unblocks t then retakes m retake.Interrupted (refused EINTR)) }
    ensures takes_mutex_back_canceled { (s : State P P.State P.Shared) (t : ℕ) (c m e n : ℤ) →
        s.resources.awaits t ≡ true →
        GoesOn P.functions s t (call.CondAwait c m e) (awaits.Retaking n retake.Canceled) (
        unblocks t then retakes m retake.Canceled (marks_mutex_taken t m before
        ends P.functions canceled_value)) }
{}

/// This notifies one or all threads which are waiting on `c`. When `v` is TRUE (not 0) all threads are notified, else only a single
/// (unspecified) one. Here it is the one that has waited longest of those that are not notified yet, a thread or an event. If nobody waits,
/// nothing changes, and the call returns 1.
pub fn pth_cond_notify<P: Program>()
    ensures { (s : State P P.State P.Shared) (t : ℕ) (c v : ℤ) →
        Begins P.functions s t (call.CondNotify c v) (
        refused EINVAL when not (is_condition s c) otherwise
        conditions_become (cond_notified c (not (is_zero v))) then returns 1) }
{}
