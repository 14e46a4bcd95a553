//! Waiting for a mutex: `pth_mutex_acquire`.

ghost use Rattle.std.specs.Prelude.{◌≡◌, ℤ, Some, false, IfOk};
ghost use Rattle.pth_base.specs.declared.call.Call.TheVariants.{MutexAcquire};
ghost use Rattle.pth_model.specs.Mutexes.{is_free, mutex_acquire};
ghost use Rattle.pth_model.specs.State.{State};
ghost use Rattle.pth_waits.specs.Verdicts.{Begins, TriesAgain};
ghost use Rattle.pth_world.specs.Frame.{Frame};
ghost use Rattle.pth_world.specs.Numbering.{no_numbers};
ghost use Rattle.pth_world.specs.Shows.{StandsFor};
ghost use Rattle.pth_world.specs.WellFormed.{WellFormed};

use crate::locking::turn_away;
use crate::ring_waits::is_no_ring;
use pth_base::answer::Answer;
use pth_base::errno::Errno;
use pth_base::ids::Tid;
use pth_base::memory::OutOfMemory;
use pth_base::program::Program;
use pth_model::awaits::{Awaits, extra_ring};
use pth_model::verdict::Verdict;
use pth_world::world::World;

/// Whether a mutex is initialised, and nobody has it.
pub(crate) fn is_free_mutex<P: Program>(w: &World<P>, m: i64) -> bool
    ensures { (s : State P P.State P.Shared) → StandsFor w.now s → result ≡ is_free s m }
{
    matches!(w.is_mutex_free(m), Ok(true))
}

/// `pth_mutex_acquire` of mutex `m`: the thread has one level more of it if it is free or its own; or else it waits, beside the ring
/// of event `e` (0 for none). EINVAL if there is no such mutex or ring, EAGAIN if the thread has 65,535 levels of it, and EBUSY if
/// another has it and the call only tries (`v` is not 0), or the ring is claimed.
#[inline(always)]
pub(crate) fn acquire_mutex<P: Program>(
    w: &mut World<P>,
    t: Tid,
    m: i64,
    v: i64,
    e: i64,
) -> Result<Verdict, OutOfMemory>
    requires whole { WellFormed w.old }
    requires runs { w.old.scheduler.running ≡ Some t.0 }
    ensures attempts { IfOk result (λ x. Begins w.old w.new t.0 (MutexAcquire m v e) (λ s. mutex_acquire s t.0 m v e) x) }
    ensures frame { Frame w.old w.new no_numbers w.old.scheduler.running false }
{
    let ring = extra_ring(e);
    if is_no_ring(w, ring) {
        return Ok(Verdict::Says(Answer::Fail(Errno::EINVAL)));
    }
    match w.take_mutex(t, m) {
        Ok(()) => Ok(Verdict::Says(Answer::Int(1))),
        Err(errno) => turn_away(w, t, errno, v != 0, ring, Awaits::Mutex(m)),
    }
}

/// Such a call, tried again: the thread has one level of the mutex if it is free.
pub(crate) fn acquire_mutex_again<P: Program>(w: &mut World<P>, t: Tid, m: i64) -> Verdict
    requires whole { WellFormed w.old }
    requires runs { w.old.scheduler.running ≡ Some t.0 }
    ensures tries { (v e : ℤ) → TriesAgain w.old w.new t.0 (MutexAcquire m v e) (λ s. mutex_acquire s t.0 m v e) result }
    ensures frame { Frame w.old w.new no_numbers w.old.scheduler.running false }
{
    if is_free_mutex(w, m) && w.take_mutex(t, m).is_ok() {
        Verdict::Says(Answer::Int(1))
    } else {
        Verdict::Blocks(Awaits::Mutex(m))
    }
}
