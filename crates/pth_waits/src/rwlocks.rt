//! Waiting for a read-write lock: `pth_rwlock_acquire`.

ghost use Rattle.std.specs.Prelude.{◌≡◌, ℤ, Some, false, IfOk};
ghost use Rattle.pth_base.specs.declared.call.Call.TheVariants.{RwAcquire};
ghost use Rattle.pth_model.specs.Rwlocks.{is_open, rw_acquire};
ghost use Rattle.pth_model.specs.State.{State};
ghost use Rattle.pth_waits.specs.Verdicts.{Begins, TriesAgain};
ghost use Rattle.pth_world.specs.Frame.{Frame};
ghost use Rattle.pth_world.specs.Numbering.{no_numbers};
ghost use Rattle.pth_world.specs.Shows.{StandsFor};
ghost use Rattle.pth_world.specs.WellFormed.{WellFormed};

use crate::locking::turn_away;
use crate::ring_waits::is_no_ring;
use pth_base::answer::Answer;
use pth_base::errno::Errno;
use pth_base::ids::Tid;
use pth_base::memory::OutOfMemory;
use pth_base::program::Program;
use pth_model::awaits::{Awaits, extra_ring};
use pth_model::verdict::Verdict;
use pth_world::world::World;

/// Whether a read-write lock is initialised, and who does not hold it may enter, to write or to read.
pub(crate) fn is_open_lock<P: Program>(w: &World<P>, l: i64, write: bool) -> bool
    ensures { (s : State P P.State P.Shared) → StandsFor w.now s → result ≡ is_open s write l }
{
    matches!(w.is_lock_open(l, write), Ok(true))
}

/// `pth_rwlock_acquire` of lock `l`, to write or to read: the thread enters, or else it waits, beside the ring of event `e` (0 for
/// none). EINVAL if there is no such lock or ring, EDEADLK if the thread holds the lock, and EBUSY if it may not enter and the call
/// only tries (`v` is not 0), or the ring is claimed.
#[inline(always)]
pub(crate) fn acquire_lock<P: Program>(
    w: &mut World<P>,
    t: Tid,
    l: i64,
    write: bool,
    v: i64,
    e: i64,
) -> Result<Verdict, OutOfMemory>
    requires whole { WellFormed w.old }
    requires runs { w.old.scheduler.running ≡ Some t.0 }
    ensures attempts { IfOk result (λ x. Begins w.old w.new t.0 (RwAcquire l write v e) (λ s. rw_acquire s t.0 l write v e) x) }
    ensures frame { Frame w.old w.new no_numbers w.old.scheduler.running false }
{
    let ring = extra_ring(e);
    if is_no_ring(w, ring) {
        return Ok(Verdict::Says(Answer::Fail(Errno::EINVAL)));
    }
    match w.take_lock(t, l, write) {
        Ok(()) => Ok(Verdict::Says(Answer::Int(1))),
        Err(errno) => turn_away(w, t, errno, v != 0, ring, Awaits::Lock { l, write }),
    }
}

/// Such a call, tried again: the thread enters if it may, and does not hold the lock.
pub(crate) fn acquire_lock_again<P: Program>(
    w: &mut World<P>,
    t: Tid,
    l: i64,
    write: bool,
) -> Verdict
    requires whole { WellFormed w.old }
    requires runs { w.old.scheduler.running ≡ Some t.0 }
    ensures tries { (v e : ℤ) → TriesAgain w.old w.new t.0 (RwAcquire l write v e) (λ s. rw_acquire s t.0 l write v e) result }
    ensures frame { Frame w.old w.new no_numbers w.old.scheduler.running false }
{
    match w.take_lock(t, l, write) {
        Ok(()) => Verdict::Says(Answer::Int(1)),
        Err(_) => Verdict::Blocks(Awaits::Lock { l, write }),
    }
}
