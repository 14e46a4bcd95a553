//! What becomes of a call that can't have the mutex or the read-write lock that it wants.

ghost use Rattle.std.specs.Prelude.{◌≡◌, ◌||◌, false, Err, IfOk};
ghost use Rattle.pth_base.specs.declared.call.Call.{Call};
ghost use Rattle.pth_base.specs.declared.errno.Errno.TheVariants.{EBUSY};
ghost use Rattle.pth_model.specs.Awaits.{is_await};
ghost use Rattle.pth_model.specs.RingWaits.{is_claimed_ring, is_no_ring};
ghost use Rattle.pth_model.specs.State.{State};
ghost use Rattle.pth_model.specs.Verdict.{refused, taken_or};
ghost use Rattle.pth_numbered.specs.Clauses.{◌when◌otherwise◌};
ghost use Rattle.pth_model.specs.declared.verdict.Verdict.TheVariants.{Blocks};
ghost use Rattle.pth_world.specs.Frame.{Frame};
ghost use Rattle.pth_world.specs.Leading.{IsReady};
ghost use Rattle.pth_world.specs.Numbering.{no_numbers};
ghost use Rattle.pth_world.specs.Shows.{StandsFor};
ghost use Rattle.pth_world.specs.WellFormed.{WellFormed};

use crate::ring_waits::wait_beside;
use pth_base::answer::Answer;
use pth_base::errno::Errno;
use pth_base::ids::Tid;
use pth_base::memory::OutOfMemory;
use pth_base::program::Program;
use pth_model::awaits::Awaits;
use pth_model::verdict::Verdict;
use pth_world::world::World;

/// If another has what the call wants (EBUSY), it waits, unless it only tries; any other error is its answer.
pub(crate) fn turn_away<P: Program>(
    w: &mut World<P>,
    t: Tid,
    errno: Errno,
    only_tries: bool,
    ring: Option<i64>,
    awaits: Awaits,
) -> Result<Verdict, OutOfMemory>
    requires { WellFormed w.old }
    ensures verdict { IfOk result (λ x. (s : State P P.State P.Shared) → StandsFor w.old s → is_no_ring s ring ≡ false → taken_or (Err errno) (refused EBUSY when only_tries || is_claimed_ring s ring otherwise Blocks awaits) ≡ x) }
    ensures ready { IfOk result (λ x. (c : Call) (s : State P P.State P.Shared) → is_await c ≡ false → StandsFor w.old s → IsReady w.new t.0 c ring x s) }
    ensures frame { Frame w.old w.new no_numbers w.old.scheduler.running false }
{
    if only_tries {
        return Ok(Verdict::Says(Answer::Fail(errno)));
    }
    match errno {
        Errno::EBUSY => wait_beside(w, t, ring, awaits),
        _ => Ok(Verdict::Says(Answer::Fail(errno))),
    }
}
