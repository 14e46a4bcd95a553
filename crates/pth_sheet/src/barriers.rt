//! Synchronization of pth(3): barriers, `pth_barrier_t`.

ghost use Rattle.std.specs.Prelude.{ℕ, ℤ, not, ◌&&◌, is_some, ◌≡◌, None, Some};
ghost use Rattle.pth_base.specs.declared.answer.Answer.TheVariants.{Int};
ghost use Rattle.pth_base.specs.declared.call.Call.TheVariants as call;
ghost use Rattle.pth_base.specs.declared.errno.Errno.TheVariants.{EINVAL, EBUSY};
ghost use Rattle.pth_lock.specs.Objects.{is_object, object_named};
ghost use Rattle.pth_cond.specs.Barriers.{is_size, barrier_initialised, Barrier, barrier_reached, taillight, lacks_one, round_answered, round_answer, has_passed};
ghost use Rattle.pth_model.specs.State.{State};
ghost use Rattle.pth_model.specs.declared.awaits.Awaits.TheVariants as awaits;
ghost use Rattle.pth_sheet.specs.Outcomes.{Begins, refused, ◌then◌, returns, answers, waits_for, GoesOn};
ghost use Rattle.pth_numbered.specs.Clauses.{◌when◌otherwise◌};
ghost use Rattle.pth_sheet.specs.States.{barriers_become, unblocks};

use pth_base::program::Program;

/// This dynamically initializes a barrier variable `b` with threshold `n`. Here there are 64 of them, numbered from 0, and `n` is 1 to 4096
/// (else EINVAL). Each is initialized once (else EBUSY).
pub fn pth_barrier_init<P: Program>()
    ensures { (s : State P P.State P.Shared) (t : ℕ) (b n : ℤ) →
        Begins P.functions s t (call.BarrierInit b n) (
        refused EINVAL when not (is_object b && is_size n) otherwise
        refused EBUSY when is_some (s.control.barriers (object_named b)) otherwise
        barriers_become (barrier_initialised b n) then returns 1) }
{}

/// This function reaches a barrier `b`. If this is the last thread (as specified by the threshold on init of the barrier), all threads are
/// awakened. Else the current thread is suspended until the last thread reached the barrier and this way awakes all threads. The function
/// returns the value TRUE for any thread which reached the barrier neither as the first nor as the last thread, `PTH_BARRIER_HEADLIGHT`
/// (-1) for the first thread, and `PTH_BARRIER_TAILLIGHT` (-2) for the last thread. Here this wait is no cancellation point.
pub fn pth_barrier_reach<P: Program>()
    ensures no_barrier { (s : State P P.State P.Shared) (t : ℕ) (b : ℤ) →
        s.control.barriers (object_named b) ≡ None →
        Begins P.functions s t (call.BarrierReach b) (refused EINVAL) }
    ensures begins { (s : State P P.State P.Shared) (t : ℕ) (b : ℤ) (y : Barrier) →
        s.control.barriers (object_named b) ≡ Some y →
        Begins P.functions s t (call.BarrierReach b) (
        barriers_become (barrier_reached b t) then answers (Int taillight)
        when lacks_one y otherwise
        barriers_become (barrier_reached b t) then waits_for (awaits.Round b y.round)) }
    ensures goes_on { (s : State P P.State P.Shared) (t : ℕ) (b : ℤ) (r : ℕ) →
        GoesOn P.functions s t (call.BarrierReach b) (awaits.Round b r) (
        barriers_become (round_answered b r t) then unblocks t then
        answers (Int (round_answer s.control.barriers b r t))
        when has_passed s.control.barriers b r otherwise
        waits_for (awaits.Round b r)) }
{}
